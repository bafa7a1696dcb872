//! Parses workflows.

ghost use Rattle.std.specs.Prelude.{◌≡◌, ◌<◌, ◌≤◌, length, map, IfOk};
ghost use Rattle.nf_grammar.specs.Gram.{rule, bind, gives};
ghost use Rattle.nf_ast.specs.Tree.{Tree};
ghost use Rattle.nf_ast.specs.View.{trees, names as names_tree, name_tree};
ghost use Rattle.nf_ast.specs.Tops.{maybe, view_top, view_workflow_body, view_parts, view_take, view_section, view_emits, view_emit};
ghost use Rattle.nf_exprs.specs.Level as level;
ghost use Rattle.nf_exprs.specs.Tokens.{name_of};
ghost use Rattle.nf_grammar.specs.Parts.{no_next};
ghost use Rattle.nf_exprs.specs.Rules as row;
ghost use Rattle.nf_exprs.specs.Parses.{Parses, ParsesToLabel};
ghost use Rattle.nf_parser.specs.Ends.{parts_next};

use crate::sections;
use nf_ast::{Emit, Emits, Parts, Section, Take, Top, Workflow, WorkflowBody};
use nf_exprs::{Fault, expect, exprs, peek, stmts};
use nf_token::{Lexeme, Mark};
use nf_value::{Place, Txt};
use std::alloc::Global;

/// A workflow.
pub fn workflow(alloc: Global, tokens: &[Lexeme]) -> Result<(Top, &[Lexeme]), Fault>
    ensures parses { Parses (λ x. view_top x.0) (λ x. x.1.now) (rule level.Workflow) tokens.now result }
    ensures shorter { IfOk result (λ x. length x.1.now < length tokens.now) }
{
    let (place, rest) = expect::word(tokens, "workflow")?;
    let (name, rest) = maybe_name(rest)?;
    let (_, rest) = expect::opens(rest, 0, Mark::OpenBrace)?;
    let (body, rest) = inside(alloc, rest)?;
    Ok((Top::Workflow(Workflow { place, name, body }), rest))
}

fn maybe_name(tokens: &[Lexeme]) -> Result<(Option<(Place, Txt)>, &[Lexeme]), Fault>
    ensures parses { Parses (λ x. maybe name_tree x.0) (λ x. x.1.now) (row.maybe (row.kind name_of) (no_next name_of)) tokens.now result }
    ensures shorter { IfOk result (λ x. length x.1.now ≤ length tokens.now) }
{
    match peek::name(tokens) {
        Some((place, name, rest)) => {
            let name = name.copy()?;
            Ok((Some((place, name)), rest))
        }
        None => Ok((None, tokens)),
    }
}

/// Statements or parts, and the `}`.
fn inside(alloc: Global, tokens: &[Lexeme]) -> Result<(WorkflowBody, &[Lexeme]), Fault>
    ensures parses { Parses (λ x. view_workflow_body x.0) (λ x. x.1.now) (bind row.workflow_inside (λ x. bind row.closes (λ c. gives x))) tokens.now result }
    ensures shorter { IfOk result (λ x. length x.1.now < length tokens.now) }
{
    if begins_parts(tokens) {
        let (parts, rest) = parts(alloc, tokens)?;
        let rest = expect::closes_body(rest)?;
        return Ok((WorkflowBody::Parts(parts), rest));
    }
    let (body, rest) = stmts::body(alloc, 1, tokens)?;
    let rest = expect::closes_body(rest)?;
    Ok((WorkflowBody::Statements(body), rest))
}

/// Whether the sections of a workflow come next: the word of the first, and a colon.
fn begins_parts(tokens: &[Lexeme]) -> bool
    ensures { result ≡ parts_next tokens.now }
{
    peek::label(tokens).is_some()
        && (peek::word(tokens, "take").is_some() || peek::word(tokens, "main").is_some())
}

fn parts(alloc: Global, tokens: &[Lexeme]) -> Result<(Parts, &[Lexeme]), Fault>
    ensures parses { ParsesToLabel (λ x. view_parts x.0) (λ x. x.1.now) (rule level.Parts) tokens.now result }
    ensures shorter { IfOk result (λ x. length x.1.now < length tokens.now) }
{
    if peek::word(tokens, "take").is_none() {
        let (main, emit, rest) = main_parts(alloc, tokens)?;
        let parts = Parts {
            take: None,
            main,
            emit,
        };
        return Ok((parts, rest));
    }
    let (take, rest) = take(alloc, tokens)?;
    if let Some(left) = sections::stray_label(rest, peek::word(rest, "main").is_some()) {
        return Err(Fault::Unexpected(left));
    }
    let (main, emit, rest) = main_parts(alloc, rest)?;
    let parts = Parts {
        take: Some(take),
        main,
        emit,
    };
    Ok((parts, rest))
}

/// What the workflow takes.
fn take(alloc: Global, tokens: &[Lexeme]) -> Result<(Take, &[Lexeme]), Fault>
    ensures parses { ParsesToLabel (λ x. view_take x.0) (λ x. x.1.now) row.take_section tokens.now result }
    ensures shorter { IfOk result (λ x. length x.1.now < length tokens.now) }
{
    let (place, rest) = sections::head(tokens, "take")?;
    let (names, rest) = names(alloc, rest)?;
    Ok((Take { place, names }, rest))
}

/// Names, each with its separator.
fn names(alloc: Global, tokens: &[Lexeme]) -> Result<(Vec<(Place, Txt)>, &[Lexeme]), Fault>
    ensures parses { ParsesToLabel (λ x. names_tree x.0.items) (λ x. x.1.now) row.taken_names tokens.now result }
    ensures shorter { IfOk result (λ x. length x.1.now ≤ length tokens.now) }
{
    let mut all = Vec::new(alloc);
    let mut rest = tokens;
    while sections::starts_name(rest) {
        let (place, name, after) = expect::name(rest)?;
        let after = expect::sep(after)?;
        let name = name.copy()?;
        all.push((place, name))?;
        rest = after;
    }
    Ok((all, rest))
}

/// What the workflow does and what it emits.
fn main_parts(
    alloc: Global,
    tokens: &[Lexeme],
) -> Result<(Section, Option<Emits>, &[Lexeme]), Fault>
    ensures parses { (f : Tree → Tree → Tree) → ParsesToLabel (λ x. f (view_section x.0) (maybe view_emits x.1)) (λ x. x.2.now) (row.main_parts f) tokens.now result }
    ensures shorter { IfOk result (λ x. length x.2.now < length tokens.now) }
{
    let (main, rest) = sections::section(alloc, tokens, "main")?;
    if peek::word(rest, "emit").is_none() {
        return Ok((main, None, rest));
    }
    let (emits, rest) = emits(alloc, rest)?;
    Ok((main, Some(emits), rest))
}

/// What the workflow emits.
fn emits(alloc: Global, tokens: &[Lexeme]) -> Result<(Emits, &[Lexeme]), Fault>
    ensures parses { ParsesToLabel (λ x. view_emits x.0) (λ x. x.1.now) row.emit_section tokens.now result }
    ensures shorter { IfOk result (λ x. length x.1.now < length tokens.now) }
{
    let (place, rest) = sections::head(tokens, "emit")?;
    let (emits, rest) = all_emits(alloc, rest)?;
    Ok((Emits { place, emits }, rest))
}

fn all_emits(alloc: Global, tokens: &[Lexeme]) -> Result<(Vec<Emit>, &[Lexeme]), Fault>
    ensures parses { ParsesToLabel (λ x. trees (map view_emit x.0.items)) (λ x. x.1.now) row.emits tokens.now result }
    ensures shorter { IfOk result (λ x. length x.1.now ≤ length tokens.now) }
{
    let mut all = Vec::new(alloc);
    let mut rest = tokens;
    while peek::starts(rest) {
        let (emit, after) = emit(alloc, rest)?;
        all.push(emit)?;
        rest = after;
    }
    Ok((all, rest))
}

/// `name = e` or an expression alone, and its separator.
fn emit(alloc: Global, tokens: &[Lexeme]) -> Result<(Emit, &[Lexeme]), Fault>
    ensures parses { Parses (λ x. view_emit x.0) (λ x. x.1.now) (row.with_sep row.emit) tokens.now result }
    ensures shorter { IfOk result (λ x. length x.1.now < length tokens.now) }
{
    if let Some((place, name, rest)) = peek::assigned(tokens) {
        let (value, rest) = exprs::expr(alloc, 1, rest)?;
        let rest = expect::sep(rest)?;
        let name = name.copy()?;
        return Ok((Emit::Named(place, name, value), rest));
    }
    let (value, rest) = exprs::expr(alloc, 1, tokens)?;
    let rest = expect::sep(rest)?;
    Ok((Emit::Alone(value), rest))
}
