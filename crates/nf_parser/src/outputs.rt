//! Parses the outputs of a process.

ghost use Rattle.std.specs.Prelude.{◌≡◌, ◌<◌, ◌≤◌, length, map, IfOk, MatchOption, true, false, not};
ghost use Rattle.nf_grammar.specs.Gram.{rule};
ghost use Rattle.nf_ast.specs.View.{trees, view_label};
ghost use Rattle.nf_ast.specs.Tops.{view_outputs, view_output, view_output_value, view_output_part};
ghost use Rattle.nf_ast.specs.Tree as tree;
ghost use Rattle.nf_exprs.specs.Level as level;
ghost use Rattle.nf_exprs.specs.Tokens as kind;
ghost use Rattle.nf_exprs.specs.Rules as row;
ghost use Rattle.nf_exprs.specs.Parses.{Parses, Outcome};
ghost use Rattle.nf_token.specs.declared.token.Mark.TheVariants as m;
ghost use Rattle.nf_grammar.specs.Outcome.{got};
ghost use Rattle.nf_ast.specs.Tree.{empty};
ghost use Rattle.nf_parser.specs.Ends.{ParsesBefore, TakesComma, tuple_end};

use crate::sections;
use nf_ast::{Label, Output, OutputPart, OutputValue, Outputs};
use nf_exprs::{Fault, closures, expect, exprs, peek};
use nf_token::{Lexeme, Mark};
use nf_value::Place;
use std::alloc::Global;

/// An output section.
pub fn section(alloc: Global, tokens: &[Lexeme]) -> Result<(Outputs, &[Lexeme]), Fault>
    ensures parses { Parses (λ x. view_outputs x.0) (λ x. x.1.now) (rule level.Outputs) tokens.now result }
    ensures shorter { IfOk result (λ x. length x.1.now < length tokens.now) }
{
    let (place, rest) = sections::head(tokens, "output")?;
    let (outputs, rest) = all(alloc, rest)?;
    Ok((Outputs { place, outputs }, rest))
}

/// The outputs, each with its separator.
fn all(alloc: Global, tokens: &[Lexeme]) -> Result<(Vec<Output>, &[Lexeme]), Fault>
    ensures parses { Parses (λ x. trees (map view_output x.0.items)) (λ x. x.1.now) row.outputs tokens.now result }
    ensures shorter { IfOk result (λ x. length x.1.now ≤ length tokens.now) }
{
    let mut all = Vec::new(alloc);
    let mut rest = tokens;
    while begins(rest) {
        let (output, after) = output(alloc, rest)?;
        all.push(output)?;
        rest = after;
    }
    Ok((all, rest))
}

/// Whether an output comes next.
fn begins(tokens: &[Lexeme]) -> bool
    ensures { result ≡ not (row.no_word row.output_words tokens.now) }
{
    peek::word(tokens, "val").is_some()
        || peek::word(tokens, "path").is_some()
        || peek::word(tokens, "stdout").is_some()
        || peek::word(tokens, "tuple").is_some()
}

/// An output and its separator.
fn output(alloc: Global, tokens: &[Lexeme]) -> Result<(Output, &[Lexeme]), Fault>
    ensures parses { Parses (λ x. view_output x.0) (λ x. x.1.now) (row.with_sep (rule level.Output)) tokens.now result }
    ensures shorter { IfOk result (λ x. length x.1.now < length tokens.now) }
{
    let (value, rest) = value(alloc, tokens)?;
    let (options, rest) = options(alloc, rest)?;
    let rest = expect::sep(rest)?;
    Ok((Output { value, options }, rest))
}

/// What an output gives. Whether a comma after a tuple's part begins one more part or an option shows only after the comma.
fn value(alloc: Global, tokens: &[Lexeme]) -> Result<(OutputValue, &[Lexeme]), Fault>
    ensures parses { ParsesBefore (λ x. view_output_value x.0) (λ x. x.1.now) (λ v. row.with_sep (row.with_options v)) (row.with_sep (rule level.Output)) tokens.now result }
    ensures shorter { IfOk result (λ x. length x.1.now < length tokens.now) }
{
    if let Some((place, rest)) = peek::word(tokens, "tuple") {
        let (parts, rest) = parts(alloc, place, rest)?;
        return Ok((OutputValue::Tuple(place, parts), rest));
    }
    let (part, rest) = part(alloc, tokens)?;
    Ok((OutputValue::One(part), rest))
}

/// The parts of a tuple, up to a comma before an option.
fn parts(
    alloc: Global,
    place: Place,
    tokens: &[Lexeme],
) -> Result<(Vec<OutputPart>, &[Lexeme]), Fault>
    ensures parses { ParsesBefore (λ x. trees (map view_output_part x.0.items)) (λ x. x.1.now) (λ v. row.with_sep (row.with_options (tree.tuple place v))) (tuple_end place) tokens.now result }
    ensures shorter { IfOk result (λ x. length x.1.now < length tokens.now) }
{
    let mut all = Vec::new(alloc);
    let (first, mut rest) = part(alloc, tokens)?;
    all.push(first)?;
    while let Some(after) = next_part(rest) {
        let (next, after) = part(alloc, after)?;
        all.push(next)?;
        rest = after;
    }
    Ok((all, rest))
}

/// What stands after a comma, unless that is an option.
fn next_part(tokens: &[Lexeme]) -> Option<&[Lexeme]>
    ensures { MatchOption result (kind.outputs_end tokens.now ≡ true) (λ r. (kind.outputs_end tokens.now ≡ false) × TakesComma tokens.now r.now) }
{
    let (_, rest) = peek::mark(tokens, Mark::Comma)?;
    match peek::label(rest) {
        Some(_) => None,
        None => Some(rest),
    }
}

fn part(alloc: Global, tokens: &[Lexeme]) -> Result<(OutputPart, &[Lexeme]), Fault>
    ensures parses { Parses (λ x. view_output_part x.0) (λ x. x.1.now) row.output_value tokens.now result }
    ensures shorter { IfOk result (λ x. length x.1.now < length tokens.now) }
{
    if let Some((place, rest)) = peek::word(tokens, "val") {
        let (value, rest) = exprs::expr(alloc, 1, rest)?;
        return Ok((OutputPart::Val(place, value), rest));
    }
    if let Some((place, rest)) = peek::word(tokens, "path") {
        let (value, rest) = exprs::expr(alloc, 1, rest)?;
        return Ok((OutputPart::Path(place, value), rest));
    }
    let (place, rest) = expect::word(tokens, "stdout")?;
    Ok((OutputPart::Stdout(place), rest))
}

/// The options of an output.
fn options(alloc: Global, tokens: &[Lexeme]) -> Result<(Vec<Label>, &[Lexeme]), Fault>
    ensures parses { Parses (λ x. trees (map view_label x.0.items)) (λ x. x.1.now) row.options tokens.now result }
    ensures shorter { IfOk result (λ x. length x.1.now ≤ length tokens.now) }
{
    let mut all = Vec::new(alloc);
    let mut rest = tokens;
    while begins_option(rest) {
        let after = past_comma(rest);
        let (option, after) = closures::label(alloc, 1, after)?;
        all.push(option)?;
        rest = after;
    }
    Ok((all, rest))
}

/// Whether an option comes next.
fn begins_option(tokens: &[Lexeme]) -> bool
    ensures { result ≡ not (kind.no_option tokens.now) }
{
    peek::mark(tokens, Mark::Comma).is_some() || peek::is_name(tokens)
}

/// The tokens after a comma that may come.
fn past_comma(tokens: &[Lexeme]) -> &[Lexeme]
    ensures parses { Outcome (row.skips (kind.mark_of m.Comma) row.no_comma) tokens.now (got empty result.now (length result.now)) }
    ensures shorter { length result.now ≤ length tokens.now }
{
    match peek::mark(tokens, Mark::Comma) {
        Some((_, rest)) => rest,
        None => tokens,
    }
}
