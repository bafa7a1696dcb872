//! Parses literals, templates, lists and maps.

ghost use Rattle.std.specs.Prelude.{suc, ◌≤◌, ◌<◌, length, map, IfOk};
ghost use Rattle.nf_grammar.specs.Gram.{rule};
ghost use Rattle.nf_ast.specs.View.{view, views, view_pair, view_piece, key_tree, part_of, trees};
ghost use Rattle.nf_exprs.specs.Level as level;
ghost use Rattle.nf_exprs.specs.Tokens.{no_start};
ghost use Rattle.nf_exprs.specs.Rules as row;
ghost use Rattle.nf_exprs.specs.Parses.{Parses};

use crate::fault::Fault;
use crate::{closures, expect, exprs, peek};
use nf_ast::{Expr, Fragment, Key, Pair};
use nf_token::{Lexeme, Mark};
use nf_value::{Place, Txt};
use std::alloc::Global;

/// An expression that stands by itself: a literal, a name, a template, a list, a map, a closure, or one in round brackets.
#[cycle(parser)]
pub fn prim(alloc: Global, depth: u32, tokens: &[Lexeme]) -> Result<(Expr, &[Lexeme]), Fault>
    ensures parses { Parses (λ x. view x.0) (λ x. x.1.now) (rule (level.Prim depth)) tokens.now result }
    ensures shorter { IfOk result (λ x. length x.1.now < length tokens.now) }
{
    let first = peek::literal(tokens)?;
    if let Some((literal, rest)) = first {
        return Ok((literal, rest));
    }
    if peek::open_template(tokens).is_some() {
        return template(alloc, depth, tokens);
    }
    if peek::mark(tokens, Mark::OpenRound).is_some() {
        return round(alloc, depth, tokens);
    }
    if peek::mark(tokens, Mark::OpenSquare).is_some() {
        return square(alloc, depth, tokens);
    }
    braced(alloc, depth, tokens)
}

/// An expression in round brackets.
#[cycle(parser)]
pub fn round(alloc: Global, depth: u32, tokens: &[Lexeme]) -> Result<(Expr, &[Lexeme]), Fault>
    ensures parses { Parses (λ x. view x.0) (λ x. x.1.now) (row.round depth (rule (level.Expr (suc depth) 0))) tokens.now result }
    ensures shorter { IfOk result (λ x. length x.1.now < length tokens.now) }
{
    let (_, rest) = expect::opens(tokens, depth, Mark::OpenRound)?;
    let (expr, rest) = exprs::expr(alloc, depth + 1, rest)?;
    let (_, rest) = expect::mark(rest, Mark::CloseRound)?;
    Ok((expr, rest))
}

/// A closure as an expression.
#[cycle(parser)]
fn braced(alloc: Global, depth: u32, tokens: &[Lexeme]) -> Result<(Expr, &[Lexeme]), Fault>
    ensures parses { Parses (λ x. view x.0) (λ x. x.1.now) (row.closure_of depth) tokens.now result }
    ensures shorter { IfOk result (λ x. length x.1.now < length tokens.now) }
{
    let (place, rest) = expect::opens(tokens, depth, Mark::OpenBrace)?;
    let (closure, rest) = closures::closure(alloc, depth + 1, place, rest)?;
    let expr = Expr::closure(closure);
    Ok((expr, rest))
}

/// A template.
#[cycle(parser)]
pub fn template(alloc: Global, depth: u32, tokens: &[Lexeme]) -> Result<(Expr, &[Lexeme]), Fault>
    ensures parses { Parses (λ x. view x.0) (λ x. x.1.now) (row.template_of depth) tokens.now result }
    ensures shorter { IfOk result (λ x. length x.1.now < length tokens.now) }
{
    let Some((place, kind, rest)) = peek::open_template(tokens) else {
        return Err(Fault::Unexpected(tokens.len()));
    };
    let (parts, rest) = pieces(alloc, depth, rest)?;
    let (_, rest) = expect::close_template(rest)?;
    let template = Expr::template(place, kind, parts);
    Ok((template, rest))
}

/// The texts and holes of a template.
#[cycle(parser)]
fn pieces(alloc: Global, depth: u32, tokens: &[Lexeme]) -> Result<(Vec<Fragment>, &[Lexeme]), Fault>
    ensures parses { Parses (λ x. trees (map view_piece x.0.items)) (λ x. x.1.now) (row.pieces depth) tokens.now result }
    ensures shorter { IfOk result (λ x. length x.1.now ≤ length tokens.now) }
{
    let mut all = Vec::new(alloc);
    let mut rest = tokens;
    while peek::starts_piece(rest) {
        let (next, after) = piece(alloc, depth, rest)?;
        all.push(next)?;
        rest = after;
    }
    Ok((all, rest))
}

/// A text or a hole.
#[cycle(parser)]
fn piece(alloc: Global, depth: u32, tokens: &[Lexeme]) -> Result<(Fragment, &[Lexeme]), Fault>
    ensures parses { Parses (λ x. view_piece x.0) (λ x. x.1.now) (row.piece depth) tokens.now result }
    ensures shorter { IfOk result (λ x. length x.1.now < length tokens.now) }
{
    if let Some((place, text, rest)) = peek::template_text(tokens) {
        let copy = text.copy()?;
        let piece = Fragment::plain(place, copy);
        return Ok((piece, rest));
    }
    let (place, rest) = expect::open_hole(tokens, depth)?;
    let (expr, rest) = exprs::expr(alloc, depth + 1, rest)?;
    let (_, rest) = expect::close_hole(rest)?;
    let piece = Fragment::hole(place, expr);
    Ok((piece, rest))
}

/// A list or a map.
#[cycle(parser)]
fn square(alloc: Global, depth: u32, tokens: &[Lexeme]) -> Result<(Expr, &[Lexeme]), Fault>
    ensures parses { Parses (λ x. view x.0) (λ x. x.1.now) (row.square depth) tokens.now result }
    ensures shorter { IfOk result (λ x. length x.1.now < length tokens.now) }
{
    let (place, rest) = expect::opens(tokens, depth, Mark::OpenSquare)?;
    squared(alloc, depth + 1, place, rest)
}

/// A list or a map after its bracket, which stands at `place`.
#[cycle(parser)]
fn squared(
    alloc: Global,
    depth: u32,
    place: Place,
    tokens: &[Lexeme],
) -> Result<(Expr, &[Lexeme]), Fault>
    ensures parses { Parses (λ x. view x.0) (λ x. x.1.now) (row.squared depth place) tokens.now result }
    ensures shorter { IfOk result (λ x. length x.1.now < length tokens.now) }
{
    if let Some((_, rest)) = peek::mark(tokens, Mark::Colon) {
        let (_, rest) = expect::mark(rest, Mark::CloseSquare)?;
        let none = Vec::new(alloc);
        let map = Expr::map(place, none);
        return Ok((map, rest));
    }
    if peek::starts_pair(tokens) {
        let (pairs, rest) = pairs(alloc, depth, tokens)?;
        let (_, rest) = expect::mark(rest, Mark::CloseSquare)?;
        let map = Expr::map(place, pairs);
        return Ok((map, rest));
    }
    let (items, rest) = maybe_items(alloc, depth, tokens)?;
    let (_, rest) = expect::mark(rest, Mark::CloseSquare)?;
    let list = Expr::list(place, items);
    Ok((list, rest))
}

/// The items of a list; none where no expression begins.
#[cycle(parser)]
fn maybe_items(
    alloc: Global,
    depth: u32,
    tokens: &[Lexeme],
) -> Result<(Vec<Expr>, &[Lexeme]), Fault>
    ensures parses { Parses (λ x. views x.0.items) (λ x. x.1.now) (row.maybe (row.ended_by_comma (rule (level.Expr depth 0))) no_start) tokens.now result }
    ensures shorter { IfOk result (λ x. length x.1.now ≤ length tokens.now) }
{
    if !peek::starts(tokens) {
        let none = Vec::new(alloc);
        return Ok((none, tokens));
    }
    items(alloc, depth, tokens)
}

/// The items of a list, with a comma after the last or without one.
#[cycle(parser)]
fn items(alloc: Global, depth: u32, tokens: &[Lexeme]) -> Result<(Vec<Expr>, &[Lexeme]), Fault>
    ensures parses { Parses (λ x. views x.0.items) (λ x. x.1.now) (row.ended_by_comma (rule (level.Expr depth 0))) tokens.now result }
    ensures shorter { IfOk result (λ x. length x.1.now < length tokens.now) }
{
    let mut all = Vec::new(alloc);
    let (first, mut rest) = exprs::expr(alloc, depth, tokens)?;
    all.push(first)?;
    while let Some((_, after)) = peek::mark(rest, Mark::Comma) {
        if peek::mark(after, Mark::CloseSquare).is_some() {
            return Ok((all, after));
        }
        let (next, after) = exprs::expr(alloc, depth, after)?;
        all.push(next)?;
        rest = after;
    }
    Ok((all, rest))
}

/// The pairs of a map, with a comma after the last or without one.
#[cycle(parser)]
fn pairs(alloc: Global, depth: u32, tokens: &[Lexeme]) -> Result<(Vec<Pair>, &[Lexeme]), Fault>
    ensures parses { Parses (λ x. trees (map view_pair x.0.items)) (λ x. x.1.now) (row.ended_by_comma (rule (level.Pair depth))) tokens.now result }
    ensures shorter { IfOk result (λ x. length x.1.now < length tokens.now) }
{
    let mut all = Vec::new(alloc);
    let (first, mut rest) = pair(alloc, depth, tokens)?;
    all.push(first)?;
    while let Some((_, after)) = peek::mark(rest, Mark::Comma) {
        if peek::mark(after, Mark::CloseSquare).is_some() {
            return Ok((all, after));
        }
        let (next, after) = pair(alloc, depth, after)?;
        all.push(next)?;
        rest = after;
    }
    Ok((all, rest))
}

/// A pair of a map.
#[cycle(parser)]
fn pair(alloc: Global, depth: u32, tokens: &[Lexeme]) -> Result<(Pair, &[Lexeme]), Fault>
    ensures parses { Parses (λ x. view_pair x.0) (λ x. x.1.now) (rule (level.Pair depth)) tokens.now result }
    ensures shorter { IfOk result (λ x. length x.1.now < length tokens.now) }
{
    let (key, rest) = key(tokens)?;
    let (_, rest) = expect::mark(rest, Mark::Colon)?;
    let (value, rest) = exprs::expr(alloc, depth, rest)?;
    let pair = Pair::new(key, value);
    Ok((pair, rest))
}

/// The key of a pair.
fn key(tokens: &[Lexeme]) -> Result<(Key, &[Lexeme]), Fault>
    ensures parses { Parses (λ x. key_tree x.0) (λ x. x.1.now) row.key tokens.now result }
    ensures shorter { IfOk result (λ x. length x.1.now < length tokens.now) }
{
    if let Some((place, name, rest)) = peek::name(tokens) {
        let copy = name.copy()?;
        return Ok((Key::Name(place, copy), rest));
    }
    if let Some((place, kind, text, rest)) = peek::plain(tokens) {
        let copy = text.copy()?;
        return Ok((Key::Text(place, kind, copy), rest));
    }
    let Some((place, kind, rest)) = peek::open_template(tokens) else {
        return Err(Fault::Unexpected(tokens.len()));
    };
    let (text, rest) = maybe_text(rest)?;
    let (_, rest) = expect::close_template(rest)?;
    Ok((Key::Template(place, kind, text), rest))
}

/// A text of a template with its place; none where a hole or the closing comes.
fn maybe_text(tokens: &[Lexeme]) -> Result<(Option<(Place, Txt)>, &[Lexeme]), Fault>
    ensures parses { Parses (λ x. part_of x.0) (λ x. x.1.now) row.maybe_text tokens.now result }
    ensures shorter { IfOk result (λ x. length x.1.now ≤ length tokens.now) }
{
    let Some((place, text, rest)) = peek::template_text(tokens) else {
        return Ok((None, tokens));
    };
    let copy = text.copy()?;
    Ok((Some((place, copy)), rest))
}
