//! Parses one expression of a list of tokens.

ghost use Rattle.std.specs.Prelude.{◌≡◌, ◌-◌, ◌≤◌, IfOk, IfErr, length, drop};
ghost use Rattle.nf_ast.specs.View.{view};
ghost use Rattle.nf_exprs.specs.Spells.{IsExpr, Refuses, first_place};

use crate::exprs;
use crate::fault::{Fault, ParseFault};
use nf_ast::Expr;
use nf_token::{Lexeme, Tokens};
use nf_value::Place;
use std::alloc::Global;

/// The one expression that begins at token number `at`, and the number of the token after it (Nextflow reference documentation,
/// "Syntax", "Expressions"; where a part ends is this project's own). Tokens count from 0. Limits (own): 64 brackets open at once, 256
/// parts of a chain. Takes time that grows with the number of tokens.
///
/// # Errors
///
/// `Unexpected` where no expression begins there, `TooDeep` where one passes a limit, each with its place; `Mem` where there is no memory
/// for the tree.
pub fn expr(alloc: Global, tokens: &Tokens, at: usize) -> Result<(Expr, usize), ParseFault>
    ensures spelled { IfOk result (λ x. IsExpr (drop at tokens.now.0) (view x.0) (drop x.1 tokens.now.0)) }
    ensures within { IfOk result (λ x. x.1 ≤ length tokens.now.0) }
    ensures refused { IfErr result (Refuses (drop at tokens.now.0) tokens.now.1) }
{
    let items = tokens.items();
    match exprs::expr(alloc, 0, from(items, at)) {
        Ok((expr, rest)) => {
            let next = number_at(items, rest.len());
            Ok((expr, next))
        }
        Err(Fault::Unexpected(left)) => Err(ParseFault::Unexpected {
            place: place_at(items, tokens.end(), left),
        }),
        Err(Fault::TooDeep(left)) => Err(ParseFault::TooDeep {
            place: place_at(items, tokens.end(), left),
        }),
        Err(Fault::Mem) => Err(ParseFault::Mem),
    }
}

/// The tokens from number `at` on.
fn from(tokens: &[Lexeme], at: usize) -> &[Lexeme]
    ensures { result.now ≡ drop at tokens.now }
{
    if at <= tokens.len() {
        &tokens[at..]
    } else {
        &[]
    }
}

/// The number of the next token, where so many are left.
fn number_at(tokens: &[Lexeme], left: usize) -> usize
    requires { left ≤ length tokens.now }
    ensures { result ≡ length tokens.now - left }
{
    tokens.len() - left
}

/// The place of the next token, where so many are left, or of the script's end.
pub fn place_at(tokens: &[Lexeme], end: Place, left: usize) -> Place
    requires { left ≤ length tokens.now }
    ensures { result ≡ first_place end (drop (length tokens.now - left) tokens.now) }
{
    match &tokens[tokens.len() - left..] {
        [first, ..] => first.place,
        [] => end,
    }
}
