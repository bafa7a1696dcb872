//! Parses a script: what stands at its top, in order.

ghost use Rattle.std.specs.Prelude.{◌≡◌, ◌<◌, length, map, IfOk, not};
ghost use Rattle.nf_grammar.specs.Gram.{rule};
ghost use Rattle.nf_ast.specs.View.{trees};
ghost use Rattle.nf_ast.specs.Tops.{view_script, view_top};
ghost use Rattle.nf_exprs.specs.Level as level;
ghost use Rattle.nf_exprs.specs.Rules as row;
ghost use Rattle.nf_exprs.specs.Parses.{Parses};

use crate::{definitions, processes, workflows};
use nf_ast::{Script, Top};
use nf_exprs::{Fault, expect, peek};
use nf_token::{Keyword, Lexeme};
use std::alloc::Global;

/// A script, up to the first token that can't go on with it.
pub fn script(alloc: Global, tokens: &[Lexeme]) -> Result<(Script, &[Lexeme]), Fault>
    ensures { Parses (λ x. view_script x.0) (λ x. x.1.now) (rule level.Script) tokens.now result }
{
    let rest = expect::past_separator(tokens);
    let (tops, rest) = tops(alloc, rest)?;
    Ok((Script { tops }, rest))
}

/// What stands at the top, each with its separator.
fn tops(alloc: Global, tokens: &[Lexeme]) -> Result<(Vec<Top>, &[Lexeme]), Fault>
    ensures { Parses (λ x. trees (map view_top x.0.items)) (λ x. x.1.now) row.tops tokens.now result }
{
    let mut all = Vec::new(alloc);
    let mut rest = tokens;
    while begins(rest) {
        let (top, after) = top(alloc, rest)?;
        let after = expect::sep(after)?;
        all.push(top)?;
        rest = after;
    }
    Ok((all, rest))
}

/// Whether something that may stand at the top of a script comes next.
fn begins(tokens: &[Lexeme]) -> bool
    ensures { result ≡ not (row.no_top tokens.now) }
{
    peek::keyword(tokens, Keyword::Def).is_some() || begins_with_word(tokens)
}

fn begins_with_word(tokens: &[Lexeme]) -> bool
    ensures { result ≡ not (row.no_word row.top_words tokens.now) }
{
    peek::word(tokens, "process").is_some()
        || peek::word(tokens, "workflow").is_some()
        || peek::word(tokens, "params").is_some()
        || peek::word(tokens, "println").is_some()
        || peek::word(tokens, "log").is_some()
        || peek::word(tokens, "nextflow").is_some()
}

fn top(alloc: Global, tokens: &[Lexeme]) -> Result<(Top, &[Lexeme]), Fault>
    ensures parses { Parses (λ x. view_top x.0) (λ x. x.1.now) (rule level.Top) tokens.now result }
    ensures shorter { IfOk result (λ x. length x.1.now < length tokens.now) }
{
    if peek::word(tokens, "process").is_some() {
        return processes::process(alloc, tokens);
    }
    if peek::word(tokens, "workflow").is_some() {
        return workflows::workflow(alloc, tokens);
    }
    if peek::keyword(tokens, Keyword::Def).is_some() {
        return definitions::function(alloc, tokens);
    }
    small_top(alloc, tokens)
}

/// `params`, `println`, `log` or `nextflow` with what follows: words that may also be names.
fn small_top(alloc: Global, tokens: &[Lexeme]) -> Result<(Top, &[Lexeme]), Fault>
    ensures parses { Parses (λ x. view_top x.0) (λ x. x.1.now) row.small_top tokens.now result }
    ensures shorter { IfOk result (λ x. length x.1.now < length tokens.now) }
{
    if peek::word(tokens, "params").is_some() {
        return definitions::parameter(alloc, tokens);
    }
    if peek::word(tokens, "println").is_some() {
        return definitions::printed(alloc, tokens);
    }
    if peek::word(tokens, "log").is_some() {
        return definitions::logged(alloc, tokens);
    }
    definitions::dsl(tokens)
}
