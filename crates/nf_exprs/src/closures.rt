//! Parses closures.

ghost use Rattle.std.specs.Prelude.{◌≤◌, ◌<◌, length, map, IfOk, Some, option_map};
ghost use Rattle.nf_grammar.specs.Gram.{rule};
ghost use Rattle.nf_ast.specs.View.{view_closure, view_label, params_tree, names as names_tree, trees};
ghost use Rattle.nf_exprs.specs.Level as level;
ghost use Rattle.nf_exprs.specs.Tokens.{name_of};
ghost use Rattle.nf_grammar.specs.Parts.{no_next};
ghost use Rattle.nf_exprs.specs.Rules as row;
ghost use Rattle.nf_exprs.specs.Parses.{Parses};

use crate::fault::Fault;
use crate::{expect, exprs, peek, stmts};
use nf_ast::{ClosureBody, ClosureExpr, Label};
use nf_token::{Lexeme, Mark};
use nf_value::{Place, Txt};
use std::alloc::Global;

/// A closure after its `{`, which stands at `place`.
#[cycle(parser)]
pub fn closure(
    alloc: Global,
    depth: u32,
    place: Place,
    tokens: &[Lexeme],
) -> Result<(ClosureExpr, &[Lexeme]), Fault>
    ensures parses { Parses (λ x. view_closure x.0) (λ x. x.1.now) (rule (level.Closure depth place)) tokens.now result }
    ensures shorter { IfOk result (λ x. length x.1.now < length tokens.now) }
{
    if peek::begins_params(tokens) {
        let (params, rest) = params(alloc, tokens)?;
        return closed(alloc, depth, place, Some(params), rest);
    }
    closed(alloc, depth, place, None, tokens)
}

/// The names before an arrow, and the arrow.
fn params(alloc: Global, tokens: &[Lexeme]) -> Result<(Vec<(Place, Txt)>, &[Lexeme]), Fault>
    ensures parses { Parses (λ x. params_tree (Some x.0.items)) (λ x. x.1.now) row.parameters tokens.now result }
    ensures shorter { IfOk result (λ x. length x.1.now < length tokens.now) }
{
    let (names, rest) = maybe_names(alloc, tokens)?;
    let (_, rest) = expect::mark(rest, Mark::Arrow)?;
    Ok((names, rest))
}

/// Names with commas between them; none where no name comes.
pub fn maybe_names(
    alloc: Global,
    tokens: &[Lexeme],
) -> Result<(Vec<(Place, Txt)>, &[Lexeme]), Fault>
    ensures parses { Parses (λ x. names_tree x.0.items) (λ x. x.1.now) (row.maybe row.names (no_next name_of)) tokens.now result }
    ensures shorter { IfOk result (λ x. length x.1.now ≤ length tokens.now) }
{
    if !peek::is_name(tokens) {
        let none = Vec::new(alloc);
        return Ok((none, tokens));
    }
    names(alloc, tokens)
}

/// Names with commas between them.
pub fn names(alloc: Global, tokens: &[Lexeme]) -> Result<(Vec<(Place, Txt)>, &[Lexeme]), Fault>
    ensures parses { Parses (λ x. names_tree x.0.items) (λ x. x.1.now) row.names tokens.now result }
    ensures shorter { IfOk result (λ x. length x.1.now < length tokens.now) }
{
    let mut all = Vec::new(alloc);
    let (place, name, mut rest) = expect::name(tokens)?;
    let copy = name.copy()?;
    all.push((place, copy))?;
    while let Some((_, after)) = peek::mark(rest, Mark::Comma) {
        let (place, name, after) = expect::name(after)?;
        let copy = name.copy()?;
        all.push((place, copy))?;
        rest = after;
    }
    Ok((all, rest))
}

/// A closure after its parameters.
#[cycle(parser)]
fn closed(
    alloc: Global,
    depth: u32,
    place: Place,
    params: Option<Vec<(Place, Txt)>>,
    tokens: &[Lexeme],
) -> Result<(ClosureExpr, &[Lexeme]), Fault>
    ensures parses { Parses (λ x. view_closure x.0) (λ x. x.1.now) (row.closure_body depth place (params_tree (option_map (λ v. v.items) params))) tokens.now result }
    ensures shorter { IfOk result (λ x. length x.1.now < length tokens.now) }
{
    if peek::label(tokens).is_some() {
        let (labels, rest) = labels(alloc, depth, tokens)?;
        let rest = expect::closes(rest)?;
        let body = ClosureBody::labels(labels);
        let closure = ClosureExpr::new(place, params, body);
        return Ok((closure, rest));
    }
    let (body, rest) = stmts::body(alloc, depth, tokens)?;
    let rest = expect::closes_body(rest)?;
    let body = ClosureBody::statements(body);
    let closure = ClosureExpr::new(place, params, body);
    Ok((closure, rest))
}

/// Labels with their expressions.
#[cycle(parser)]
fn labels(alloc: Global, depth: u32, tokens: &[Lexeme]) -> Result<(Vec<Label>, &[Lexeme]), Fault>
    ensures parses { Parses (λ x. trees (map view_label x.0.items)) (λ x. x.1.now) (row.some_labels depth) tokens.now result }
    ensures shorter { IfOk result (λ x. length x.1.now < length tokens.now) }
{
    let mut all = Vec::new(alloc);
    let (first, mut rest) = separated_label(alloc, depth, tokens)?;
    all.push(first)?;
    while peek::is_name(rest) {
        let (next, after) = separated_label(alloc, depth, rest)?;
        all.push(next)?;
        rest = after;
    }
    Ok((all, rest))
}

/// A label with its expression and a separator.
#[cycle(parser)]
fn separated_label(
    alloc: Global,
    depth: u32,
    tokens: &[Lexeme],
) -> Result<(Label, &[Lexeme]), Fault>
    ensures parses { Parses (λ x. view_label x.0) (λ x. x.1.now) (row.with_sep (row.label depth)) tokens.now result }
    ensures shorter { IfOk result (λ x. length x.1.now < length tokens.now) }
{
    let (label, rest) = label(alloc, depth, tokens)?;
    let rest = expect::sep(rest)?;
    Ok((label, rest))
}

/// A label with its expression.
#[cycle(parser)]
pub fn label(alloc: Global, depth: u32, tokens: &[Lexeme]) -> Result<(Label, &[Lexeme]), Fault>
    ensures parses { Parses (λ x. view_label x.0) (λ x. x.1.now) (row.label depth) tokens.now result }
    ensures shorter { IfOk result (λ x. length x.1.now < length tokens.now) }
{
    let (place, name, rest) = expect::name(tokens)?;
    let (_, rest) = expect::mark(rest, Mark::Colon)?;
    let copy = name.copy()?;
    let (value, rest) = exprs::expr(alloc, depth, rest)?;
    let label = Label::new(place, copy, value);
    Ok((label, rest))
}
