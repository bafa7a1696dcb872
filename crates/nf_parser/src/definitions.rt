//! Parses functions, parameters, and prints at the top of a script.

ghost use Rattle.std.specs.Prelude.{◌≡◌, ◌<◌, length, IfOk, MatchOption, true};
ghost use Rattle.nf_grammar.specs.Gram.{rule};
ghost use Rattle.nf_grammar.specs.Parts.{no_next};
ghost use Rattle.nf_ast.specs.Tree as tree;
ghost use Rattle.nf_ast.specs.View.{view_stmts};
ghost use Rattle.nf_ast.specs.Tops.{view_top};
ghost use Rattle.nf_exprs.specs.Level as level;
ghost use Rattle.nf_exprs.specs.Tokens as kind;
ghost use Rattle.nf_exprs.specs.Rules as row;
ghost use Rattle.nf_exprs.specs.Parses.{Parses, Takes};

use nf_ast::{Function, Parameter, Stmt, Top};
use nf_exprs::{Fault, closures, expect, exprs, stmts};
use nf_token::{Keyword, Lexeme, Mark, Token};
use nf_value::Place;
use std::alloc::Global;

/// A function.
pub fn function(alloc: Global, tokens: &[Lexeme]) -> Result<(Top, &[Lexeme]), Fault>
    ensures parses { Parses (λ x. view_top x.0) (λ x. x.1.now) (rule level.Function) tokens.now result }
    ensures shorter { IfOk result (λ x. length x.1.now < length tokens.now) }
{
    let (place, rest) = expect::keyword(tokens, Keyword::Def)?;
    let (name_place, name, rest) = expect::name(rest)?;
    let (_, rest) = expect::opens(rest, 0, Mark::OpenRound)?;
    let (params, rest) = closures::maybe_names(alloc, rest)?;
    let (_, rest) = expect::mark(rest, Mark::CloseRound)?;
    let (body, rest) = braced(alloc, rest)?;
    let name = name.copy()?;
    let function = Function {
        place,
        name_place,
        name,
        params,
        body,
    };
    Ok((Top::Function(function), rest))
}

/// Statements in curly brackets.
fn braced(alloc: Global, tokens: &[Lexeme]) -> Result<(Vec<Stmt>, &[Lexeme]), Fault>
    ensures parses { Parses (λ x. view_stmts x.0.items) (λ x. x.1.now) (row.braced 0 (rule (level.Body 1))) tokens.now result }
    ensures shorter { IfOk result (λ x. length x.1.now < length tokens.now) }
{
    let (_, rest) = expect::opens(tokens, 0, Mark::OpenBrace)?;
    let (body, rest) = stmts::body(alloc, 1, rest)?;
    let rest = expect::closes_body(rest)?;
    Ok((body, rest))
}

/// `params.name = e`
pub fn parameter(alloc: Global, tokens: &[Lexeme]) -> Result<(Top, &[Lexeme]), Fault>
    ensures parses { Parses (λ x. view_top x.0) (λ x. x.1.now) row.parameter tokens.now result }
    ensures shorter { IfOk result (λ x. length x.1.now < length tokens.now) }
{
    let (place, rest) = expect::word(tokens, "params")?;
    let (_, rest) = expect::mark(rest, Mark::Dot)?;
    let (name_place, name, rest) = expect::name(rest)?;
    let (_, rest) = expect::mark(rest, Mark::Equals)?;
    let (value, rest) = exprs::expr(alloc, 0, rest)?;
    let name = name.copy()?;
    let parameter = Parameter {
        place,
        name_place,
        name,
        value,
    };
    Ok((Top::Parameter(parameter), rest))
}

/// `println e`
pub fn printed(alloc: Global, tokens: &[Lexeme]) -> Result<(Top, &[Lexeme]), Fault>
    ensures parses { Parses (λ x. view_top x.0) (λ x. x.1.now) (row.print 0) tokens.now result }
    ensures shorter { IfOk result (λ x. length x.1.now < length tokens.now) }
{
    let (place, rest) = expect::word(tokens, "println")?;
    let (value, rest) = exprs::expr(alloc, 0, rest)?;
    Ok((Top::Println(place, value), rest))
}

/// `log.name e`
pub fn logged(alloc: Global, tokens: &[Lexeme]) -> Result<(Top, &[Lexeme]), Fault>
    ensures parses { Parses (λ x. view_top x.0) (λ x. x.1.now) (row.log 0) tokens.now result }
    ensures shorter { IfOk result (λ x. length x.1.now < length tokens.now) }
{
    let (place, rest) = expect::word(tokens, "log")?;
    let (_, rest) = expect::mark(rest, Mark::Dot)?;
    let (name_place, name, rest) = expect::name(rest)?;
    let (value, rest) = exprs::expr(alloc, 0, rest)?;
    let name = name.copy()?;
    Ok((Top::Log(place, name_place, name, value), rest))
}

/// `nextflow.enable.dsl = 2`
pub fn dsl(tokens: &[Lexeme]) -> Result<(Top, &[Lexeme]), Fault>
    ensures parses { Parses (λ x. view_top x.0) (λ x. x.1.now) row.dsl tokens.now result }
    ensures shorter { IfOk result (λ x. length x.1.now < length tokens.now) }
{
    let (place, rest) = expect::word(tokens, "nextflow")?;
    let (_, rest) = expect::mark(rest, Mark::Dot)?;
    let (_, rest) = expect::word(rest, "enable")?;
    let (_, rest) = expect::mark(rest, Mark::Dot)?;
    let (_, rest) = expect::word(rest, "dsl")?;
    let (_, rest) = expect::mark(rest, Mark::Equals)?;
    let (_, rest) = two(rest)?;
    Ok((Top::Dsl(place), rest))
}

/// The number 2.
fn two(tokens: &[Lexeme]) -> Result<(Place, &[Lexeme]), Fault>
    ensures parses { Parses (λ x. tree.point x.0) (λ x. x.1.now) (row.kind kind.two) tokens.now result }
    ensures shorter { IfOk result (λ x. length x.1.now < length tokens.now) }
{
    peek_two(tokens).ok_or(Fault::Unexpected(tokens.len()))
}

fn peek_two(tokens: &[Lexeme]) -> Option<(Place, &[Lexeme])>
    ensures { MatchOption result (no_next kind.two tokens.now ≡ true) (λ x. Takes kind.two tokens.now (tree.point x.0) x.1.now) }
{
    match tokens {
        [
            Lexeme {
                token: Token::Number(found),
                place,
            },
            rest @ ..,
        ] if *found == 2 => Some((*place, rest)),
        _ => None,
    }
}
