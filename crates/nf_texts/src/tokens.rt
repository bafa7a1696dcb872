//! `tokenize()`: cuts a text at separators.

ghost use Rattle.std.specs.Prelude.{◌≡◌, ◌<◌, ◌^◌, [], ◌∷◌, ◌++◌, MatchOption, IfSome, OnOk, IfOk, length, min, map, Ok, Err, MatchResult};
ghost use Rattle.std.specs.List.{slice_split};
ghost use Rattle.std.specs.Str.{chars};
ghost use Rattle.nf_texts.specs.Texts.{is_one_of, token_of, token_texts, tokens_by, blanks, tokenize as tokenize_of};
ghost use Rattle.nf_value.specs.Plain.{plains_of};
ghost use Rattle.nf_value.specs.View.{plain_of};
ghost use Rattle.nf_value.specs.Code.{all_code};
ghost use Rattle.nf_texts.specs.Outcome.{Gives, limited};

use crate::args::{as_text, on_text};
use crate::fault::CallFault;
use crate::lengths::sum_len;
use crate::limits::{list_fault, text_weight};
use nf_value::{EvalKind, Mem, Txt, Vals, Value};
use std::alloc::Global;

/// `tokenize()`: the parts between blanks, tabs and line ends. `tokenize(t)`: the parts between characters of `t`. Empty parts are left out.
pub fn tokenize(alloc: Global, recv: &Value, args: &Vals) -> Result<Value, CallFault>
    ensures { Gives (tokenize_of (plain_of recv.now) args.now) result }
{
    let text = on_text(recv)?;
    match args.items() {
        [] => tokens_at_blanks(alloc, text.as_str()),
        [separators] => {
            let separators = as_text(separators)?;
            tokens(alloc, text.as_str(), separators.as_str())
        }
        _ => Err(CallFault::Kind(EvalKind::Arity)),
    }
}

fn tokens_at_blanks(alloc: Global, text: &str) -> Result<Value, CallFault>
    ensures { Gives (Ok (tokens_by blanks text.now)) result }
{
    tokens(alloc, text, " \t\n")
}

fn tokens(alloc: Global, text: &str, separators: &str) -> Result<Value, CallFault>
    ensures { Gives (Ok (tokens_by separators.now text.now)) result }
{
    tokens_fault(text, separators)?;
    Ok(Value::List(Vals::of(token_values(alloc, text, separators)?)))
}

/// The fault of the list of all parts, if it would weigh too much.
fn tokens_fault(text: &str, separators: &str) -> Result<(), EvalKind>
    ensures { let v = tokens_by separators.now text.now in MatchResult result (λ _. limited v ≡ Ok v) (λ k. limited v ≡ Err k) }
{
    let count = token_count(text, separators);
    let weight = tokens_weight(text, separators);
    list_fault(count, weight)
}

/// The number of parts, `LONGEST` at most.
fn token_count(text: &str, separators: &str) -> u64
    ensures { result ≡ min (length (token_texts (is_one_of (chars separators.now)) (chars text.now))) (2 ^ 32) }
{
    let mut count = 0;
    let mut left = text;
    while let Some((part, rest)) = cut(left, separators) {
        count = sum_len(count, part_count(part));
        left = rest;
    }
    sum_len(count, part_count(left))
}

/// The weight of all parts together, `LONGEST` at most.
fn tokens_weight(text: &str, separators: &str) -> u64
    ensures { result ≡ min (length (all_code (plains_of (token_texts (is_one_of (chars separators.now)) (chars text.now))))) (2 ^ 32) }
{
    let mut weight = 0;
    let mut left = text;
    while let Some((part, rest)) = cut(left, separators) {
        weight = sum_len(weight, part_weight(part));
        left = rest;
    }
    sum_len(weight, part_weight(left))
}

/// The parts as values.
fn token_values(alloc: Global, text: &str, separators: &str) -> Result<Vec<Value>, Mem>
    ensures { IfOk result (λ v. map plain_of v.items ≡ token_texts (is_one_of (chars separators.now)) (chars text.now)) }
{
    let mut parts = Vec::new(alloc);
    let mut left = text;
    while let Some((part, rest)) = cut(left, separators) {
        push_part(alloc, &mut parts, part)?;
        left = rest;
    }
    push_part(alloc, &mut parts, left)?;
    Ok(parts)
}

fn part_count(part: &str) -> u64
    ensures { result ≡ length (token_of (chars part.now)) }
{
    if part.is_empty() { 0 } else { 1 }
}

fn part_weight(part: &str) -> u64
    ensures { result ≡ min (length (all_code (plains_of (token_of (chars part.now))))) (2 ^ 32) }
{
    if part.is_empty() {
        return 0;
    }
    text_weight(part)
}

fn push_part(alloc: Global, parts: &mut Vec<Value>, part: &str) -> Result<(), Mem>
    ensures { OnOk result (map plain_of parts.new.items ≡ map plain_of parts.old.items ++ token_of (chars part.now)) }
{
    if !part.is_empty() {
        let text = Txt::of(String::from_str(alloc, part)?);
        parts.push(Value::Text(text))?;
    }
    Ok(())
}

/// Whether a character is one of the separators.
fn is_separator(separators: &str, character: char) -> bool
    ensures { result ≡ is_one_of (chars separators.now) character }
{
    separators.chars().any(|separator| separator == character)
}

/// The text before the first separator, and the text after it; nothing where there is no separator.
fn cut<'a>(text: &'a str, separators: &str) -> Option<(&'a str, &'a str)>
    ensures parts { MatchOption result (slice_split (is_one_of (chars separators.now)) (chars text.now) ≡ chars text.now ∷ [])
        (λ r. slice_split (is_one_of (chars separators.now)) (chars text.now) ≡ chars r.0.now ∷ slice_split (is_one_of (chars separators.now)) (chars r.1.now)) }
    ensures shorter { IfSome result (λ r. length r.1.now < length text.now) }
{
    text.split_once(
        |character: char| -> bool
            ensures { result ≡ is_one_of (chars separators.entry.now) character }
        { is_separator(separators, character) },
    )
}
