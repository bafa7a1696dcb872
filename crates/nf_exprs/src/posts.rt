//! Parses postfix chains and arguments.

ghost use Rattle.std.specs.Prelude.{◌≡◌, ℕ, ◌≤◌, ◌<◌, length, map, IfOk};
ghost use Rattle.nf_grammar.specs.Gram.{rule};
ghost use Rattle.nf_ast.specs.Tree.{Tree};
ghost use Rattle.nf_ast.specs.View.{view, view_postfix, view_arg, applied, postfix, trees};
ghost use Rattle.nf_exprs.specs.Level as level;
ghost use Rattle.nf_exprs.specs.Tokens.{no_start};
ghost use Rattle.nf_exprs.specs.Rules as row;
ghost use Rattle.nf_exprs.specs.Parses.{Parses};

use crate::expect::MOST_PARTS;
use crate::fault::Fault;
use crate::{closures, expect, exprs, peek, prims};
use nf_ast::{Arg, Expr, Postfix};
use nf_token::{Lexeme, Mark};
use nf_value::Mem;
use std::alloc::Global;

/// An expression with the parts after it, as `.name`, `[i]` and `(x)`.
#[cycle(parser)]
pub fn post(alloc: Global, depth: u32, tokens: &[Lexeme]) -> Result<(Expr, &[Lexeme]), Fault>
    ensures parses { Parses (λ x. view x.0) (λ x. x.1.now) (rule (level.Post depth)) tokens.now result }
    ensures shorter { IfOk result (λ x. length x.1.now < length tokens.now) }
{
    let (first, mut rest) = prims::prim(alloc, depth, tokens)?;
    let mut parts = Vec::new(alloc);
    let mut count: u32 = 0;
    while peek::starts_part(rest) {
        if count >= MOST_PARTS {
            return Err(Fault::TooDeep(rest.len()));
        }
        let (part, after) = post_part(alloc, depth, rest)?;
        parts.push(part)?;
        rest = after;
        count += 1;
    }
    let whole = with_parts(alloc, first, parts)?;
    Ok((whole, rest))
}

/// An expression with the parts after it.
fn with_parts(alloc: Global, first: Expr, parts: Vec<Postfix>) -> Result<Expr, Mem>
    ensures { IfOk result (λ e. view e ≡ postfix (view first) (map view_postfix parts.items)) }
{
    if parts.is_empty() {
        return Ok(first);
    }
    Expr::postfix(alloc, first, parts)
}

/// A part of a chain, after fewer than 256 others.
#[cycle(parser)]
fn post_part(alloc: Global, depth: u32, tokens: &[Lexeme]) -> Result<(Postfix, &[Lexeme]), Fault>
    ensures parses { (n : ℕ) → (e : Tree) → n < 256 → Parses (λ x. applied e (view_postfix x.0)) (λ x. x.1.now) (row.post_part depth n e) tokens.now result }
    ensures shorter { IfOk result (λ x. length x.1.now < length tokens.now) }
{
    if peek::mark(tokens, Mark::Dot).is_some() {
        return property(tokens);
    }
    if peek::mark(tokens, Mark::QuestionDot).is_some() {
        return safe_property(tokens);
    }
    if peek::mark(tokens, Mark::OpenSquare).is_some() {
        return index(alloc, depth, tokens);
    }
    if peek::mark(tokens, Mark::OpenRound).is_some() {
        return call(alloc, depth, tokens);
    }
    call_with(alloc, depth, tokens)
}

/// `.name`
fn property(tokens: &[Lexeme]) -> Result<(Postfix, &[Lexeme]), Fault>
    ensures parses { (n : ℕ) → (e : Tree) → n < 256 → Parses (λ x. applied e (view_postfix x.0)) (λ x. x.1.now) (row.property n e) tokens.now result }
    ensures shorter { IfOk result (λ x. length x.1.now < length tokens.now) }
{
    let (_, rest) = expect::mark(tokens, Mark::Dot)?;
    let (place, name, rest) = expect::name(rest)?;
    let copy = name.copy()?;
    let part = Postfix::property(place, copy);
    Ok((part, rest))
}

/// `?.name`
fn safe_property(tokens: &[Lexeme]) -> Result<(Postfix, &[Lexeme]), Fault>
    ensures parses { (n : ℕ) → (e : Tree) → n < 256 → Parses (λ x. applied e (view_postfix x.0)) (λ x. x.1.now) (row.safe_property n e) tokens.now result }
    ensures shorter { IfOk result (λ x. length x.1.now < length tokens.now) }
{
    let (_, rest) = expect::mark(tokens, Mark::QuestionDot)?;
    let (place, name, rest) = expect::name(rest)?;
    let copy = name.copy()?;
    let part = Postfix::safe_property(place, copy);
    Ok((part, rest))
}

/// `[e]`
#[cycle(parser)]
fn index(alloc: Global, depth: u32, tokens: &[Lexeme]) -> Result<(Postfix, &[Lexeme]), Fault>
    ensures parses { (n : ℕ) → (e : Tree) → n < 256 → Parses (λ x. applied e (view_postfix x.0)) (λ x. x.1.now) (row.index depth n e) tokens.now result }
    ensures shorter { IfOk result (λ x. length x.1.now < length tokens.now) }
{
    let (place, rest) = expect::opens(tokens, depth, Mark::OpenSquare)?;
    let (at, rest) = exprs::expr(alloc, depth + 1, rest)?;
    let (_, rest) = expect::mark(rest, Mark::CloseSquare)?;
    let part = Postfix::index(place, at);
    Ok((part, rest))
}

/// `(..)`
#[cycle(parser)]
fn call(alloc: Global, depth: u32, tokens: &[Lexeme]) -> Result<(Postfix, &[Lexeme]), Fault>
    ensures parses { (n : ℕ) → (e : Tree) → n < 256 → Parses (λ x. applied e (view_postfix x.0)) (λ x. x.1.now) (row.call depth n e) tokens.now result }
    ensures shorter { IfOk result (λ x. length x.1.now < length tokens.now) }
{
    let (place, rest) = expect::opens(tokens, depth, Mark::OpenRound)?;
    let (args, rest) = maybe_args(alloc, depth + 1, rest)?;
    let (_, rest) = expect::mark(rest, Mark::CloseRound)?;
    let part = Postfix::call(place, args);
    Ok((part, rest))
}

/// A closure after the expression that is called with it.
#[cycle(parser)]
fn call_with(alloc: Global, depth: u32, tokens: &[Lexeme]) -> Result<(Postfix, &[Lexeme]), Fault>
    ensures parses { (n : ℕ) → (e : Tree) → n < 256 → Parses (λ x. applied e (view_postfix x.0)) (λ x. x.1.now) (row.call_with depth n e) tokens.now result }
    ensures shorter { IfOk result (λ x. length x.1.now < length tokens.now) }
{
    let (place, rest) = expect::opens(tokens, depth, Mark::OpenBrace)?;
    let (closure, rest) = closures::closure(alloc, depth + 1, place, rest)?;
    let part = Postfix::with(closure);
    Ok((part, rest))
}

/// Arguments; none where no expression begins.
#[cycle(parser)]
pub fn maybe_args(
    alloc: Global,
    depth: u32,
    tokens: &[Lexeme],
) -> Result<(Vec<Arg>, &[Lexeme]), Fault>
    ensures parses { Parses (λ x. trees (map view_arg x.0.items)) (λ x. x.1.now) (row.maybe (rule (level.Args depth)) no_start) tokens.now result }
    ensures shorter { IfOk result (λ x. length x.1.now ≤ length tokens.now) }
{
    if !peek::starts(tokens) {
        let none = Vec::new(alloc);
        return Ok((none, tokens));
    }
    args(alloc, depth, tokens)
}

/// Arguments with commas between them.
#[cycle(parser)]
pub fn args(alloc: Global, depth: u32, tokens: &[Lexeme]) -> Result<(Vec<Arg>, &[Lexeme]), Fault>
    ensures parses { Parses (λ x. trees (map view_arg x.0.items)) (λ x. x.1.now) (rule (level.Args depth)) tokens.now result }
    ensures shorter { IfOk result (λ x. length x.1.now < length tokens.now) }
{
    let mut all = Vec::new(alloc);
    let (first, mut rest) = arg(alloc, depth, tokens)?;
    all.push(first)?;
    while let Some((_, after)) = peek::mark(rest, Mark::Comma) {
        let (next, after) = arg(alloc, depth, after)?;
        all.push(next)?;
        rest = after;
    }
    Ok((all, rest))
}

/// An argument.
#[cycle(parser)]
fn arg(alloc: Global, depth: u32, tokens: &[Lexeme]) -> Result<(Arg, &[Lexeme]), Fault>
    ensures parses { Parses (λ x. view_arg x.0) (λ x. x.1.now) (rule (level.Arg depth)) tokens.now result }
    ensures shorter { IfOk result (λ x. length x.1.now < length tokens.now) }
{
    let Some((place, name, rest)) = peek::label(tokens) else {
        let (value, rest) = exprs::expr(alloc, depth, tokens)?;
        let arg = Arg::new(None, value);
        return Ok((arg, rest));
    };
    let copy = name.copy()?;
    let (value, rest) = exprs::expr(alloc, depth, rest)?;
    let arg = Arg::new(Some((place, copy)), value);
    Ok((arg, rest))
}
