//! Parses the inputs of a process.

ghost use Rattle.std.specs.Prelude.{◌≡◌, ◌<◌, ◌≤◌, length, map, IfOk, not};
ghost use Rattle.nf_grammar.specs.Gram.{rule};
ghost use Rattle.nf_ast.specs.Tree.{name};
ghost use Rattle.nf_ast.specs.View.{trees};
ghost use Rattle.nf_ast.specs.Tops.{view_inputs, view_input, view_input_part};
ghost use Rattle.nf_exprs.specs.Level as level;
ghost use Rattle.nf_exprs.specs.Rules as row;
ghost use Rattle.nf_exprs.specs.Parses.{Parses};

use crate::sections;
use nf_ast::{Input, InputPart, Inputs};
use nf_exprs::{Fault, expect, peek};
use nf_token::{Lexeme, Mark};
use nf_value::{Place, Txt};
use std::alloc::Global;

/// An input section.
pub fn section(alloc: Global, tokens: &[Lexeme]) -> Result<(Inputs, &[Lexeme]), Fault>
    ensures parses { Parses (λ x. view_inputs x.0) (λ x. x.1.now) (rule level.Inputs) tokens.now result }
    ensures shorter { IfOk result (λ x. length x.1.now < length tokens.now) }
{
    let (place, rest) = sections::head(tokens, "input")?;
    let (inputs, rest) = all(alloc, rest)?;
    Ok((Inputs { place, inputs }, rest))
}

/// The inputs, each with its separator.
fn all(alloc: Global, tokens: &[Lexeme]) -> Result<(Vec<Input>, &[Lexeme]), Fault>
    ensures parses { Parses (λ x. trees (map view_input x.0.items)) (λ x. x.1.now) row.inputs tokens.now result }
    ensures shorter { IfOk result (λ x. length x.1.now ≤ length tokens.now) }
{
    let mut all = Vec::new(alloc);
    let mut rest = tokens;
    while begins(rest) {
        let (input, after) = input(alloc, rest)?;
        all.push(input)?;
        rest = after;
    }
    Ok((all, rest))
}

/// Whether an input comes next.
fn begins(tokens: &[Lexeme]) -> bool
    ensures { result ≡ not (row.no_word row.input_words tokens.now) }
{
    peek::word(tokens, "val").is_some()
        || peek::word(tokens, "path").is_some()
        || peek::word(tokens, "stdin").is_some()
        || peek::word(tokens, "tuple").is_some()
}

/// An input and its separator.
fn input(alloc: Global, tokens: &[Lexeme]) -> Result<(Input, &[Lexeme]), Fault>
    ensures parses { Parses (λ x. view_input x.0) (λ x. x.1.now) (row.with_sep row.some_input) tokens.now result }
    ensures shorter { IfOk result (λ x. length x.1.now < length tokens.now) }
{
    let (input, rest) = one_or_tuple(alloc, tokens)?;
    let rest = expect::sep(rest)?;
    Ok((input, rest))
}

fn one_or_tuple(alloc: Global, tokens: &[Lexeme]) -> Result<(Input, &[Lexeme]), Fault>
    ensures parses { Parses (λ x. view_input x.0) (λ x. x.1.now) row.some_input tokens.now result }
    ensures shorter { IfOk result (λ x. length x.1.now < length tokens.now) }
{
    if let Some((place, rest)) = peek::word(tokens, "tuple") {
        let (parts, rest) = parts(alloc, rest)?;
        return Ok((Input::Tuple(place, parts), rest));
    }
    let (part, rest) = part(tokens)?;
    Ok((Input::One(part), rest))
}

/// The parts of a tuple.
fn parts(alloc: Global, tokens: &[Lexeme]) -> Result<(Vec<InputPart>, &[Lexeme]), Fault>
    ensures parses { Parses (λ x. trees (map view_input_part x.0.items)) (λ x. x.1.now) (row.commas (rule level.Input)) tokens.now result }
    ensures shorter { IfOk result (λ x. length x.1.now < length tokens.now) }
{
    let mut all = Vec::new(alloc);
    let (first, mut rest) = part(tokens)?;
    all.push(first)?;
    while let Some((_, after)) = peek::mark(rest, Mark::Comma) {
        let (next, after) = part(after)?;
        all.push(next)?;
        rest = after;
    }
    Ok((all, rest))
}

fn part(tokens: &[Lexeme]) -> Result<(InputPart, &[Lexeme]), Fault>
    ensures parses { Parses (λ x. view_input_part x.0) (λ x. x.1.now) (rule level.Input) tokens.now result }
    ensures shorter { IfOk result (λ x. length x.1.now < length tokens.now) }
{
    if let Some((place, rest)) = peek::word(tokens, "val") {
        let (name_place, name, rest) = bound(rest)?;
        let name = name.copy()?;
        return Ok((InputPart::Val(place, name_place, name), rest));
    }
    if let Some((place, rest)) = peek::word(tokens, "path") {
        let (name_place, name, rest) = bound(rest)?;
        let name = name.copy()?;
        return Ok((InputPart::Path(place, name_place, name), rest));
    }
    let (place, rest) = expect::word(tokens, "stdin")?;
    Ok((InputPart::Stdin(place), rest))
}

/// The name of an input, with round brackets or without.
fn bound(tokens: &[Lexeme]) -> Result<(Place, &Txt, &[Lexeme]), Fault>
    ensures parses { Parses (λ x. name x.0 x.1.now) (λ x. x.2.now) row.one_name tokens.now result }
    ensures shorter { IfOk result (λ x. length x.2.now < length tokens.now) }
{
    if let Some((place, name, rest)) = peek::name(tokens) {
        return Ok((place, name, rest));
    }
    let (_, rest) = expect::opens(tokens, 1, Mark::OpenRound)?;
    let (place, name, rest) = expect::name(rest)?;
    let (_, rest) = expect::mark(rest, Mark::CloseRound)?;
    Ok((place, name, rest))
}
