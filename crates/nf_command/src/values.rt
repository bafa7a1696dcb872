//! Parameters among words: their names and values.

ghost use Rattle.std.specs.Prelude.{◌≡◌, IfOk, option_map};
ghost use Rattle.std.specs.List.{list_all};
ghost use Rattle.nf_value.specs.View.{plain_of};
ghost use Rattle.nf_command.specs.Words.{is_name as is_name_of, is_name_byte as is_name_byte_of, is_dashed as is_dashed_of, is_value as is_value_of, begins_with_digit as begins_with_digit_of, parameter_in as parameter_in_of, after_dash as after_dash_of, named as named_of, parts_at_equals as parts_at_equals_of, if_name as if_name_of, value_of as value_of_word, number_or_text as number_or_text_of};
ghost use Rattle.nf_command.specs.Numbers.{integer_in as integer_in_of};

use crate::numbers::integer_in;
use nf_value::{Mem, Txt, Value};
use std::alloc::Global;

/// Whether a word begins with `-`.
pub(crate) fn is_dashed(word: &str) -> bool
    ensures { result ≡ is_dashed_of word.now }
{
    word.as_bytes().first() == Some(&b'-')
}

/// Whether the word after `--NAME` is its value: it doesn't begin with `-`, or a digit follows that.
pub(crate) fn is_value(word: &str) -> bool
    ensures { result ≡ is_value_of word.now }
{
    match word.as_bytes().split_first() {
        Some((first, rest)) => *first != b'-' || begins_with_digit(rest),
        None => true,
    }
}

fn begins_with_digit(bytes: &[u8]) -> bool
    ensures { result ≡ begins_with_digit_of bytes.now }
{
    match bytes.split_first() {
        Some((first, _)) => first.is_ascii_digit(),
        None => false,
    }
}

/// The name of the parameter that a word sets, and what stands after `=`: `--NAME` or `--NAME=VALUE`.
pub(crate) fn parameter_in(word: &str) -> Option<(&str, Option<&str>)>
    ensures { option_map (λ p. (p.0.now, option_map (λ v. v.now) p.1)) result ≡ parameter_in_of word.now }
{
    match after_dash(word) {
        Some(rest) => match after_dash(rest) {
            Some(text) => named(text),
            None => None,
        },
        None => None,
    }
}

fn after_dash(word: &str) -> Option<&str>
    ensures { option_map (λ t. t.now) result ≡ after_dash_of word.now }
{
    word.strip_prefix('-')
}

fn named(text: &str) -> Option<(&str, Option<&str>)>
    ensures { option_map (λ p. (p.0.now, option_map (λ v. v.now) p.1)) result ≡ named_of text.now }
{
    match parts_at_equals(text) {
        Some((name, value)) => if_name(name, Some(value)),
        None => if_name(text, None),
    }
}

fn parts_at_equals(text: &str) -> Option<(&str, &str)>
    ensures { option_map (λ p. (p.0.now, p.1.now)) result ≡ parts_at_equals_of text.now }
{
    text.split_once('=')
}

fn if_name<'a>(name: &'a str, value: Option<&'a str>) -> Option<(&'a str, Option<&'a str>)>
    ensures { option_map (λ p. (p.0.now, option_map (λ v. v.now) p.1)) result ≡ if_name_of (name.now, option_map (λ v. v.now) value.entry) }
{
    if is_name(name) {
        Some((name, value))
    } else {
        None
    }
}

/// Whether a text is the name of a parameter: letters, digits and `_`, of which the first is no digit.
fn is_name(text: &str) -> bool
    ensures { result ≡ is_name_of text.now }
{
    let bytes = text.as_bytes();
    match bytes.split_first() {
        Some((first, _)) => !first.is_ascii_digit() && are_name_bytes(bytes),
        None => false,
    }
}

fn are_name_bytes(bytes: &[u8]) -> bool
    ensures { result ≡ list_all is_name_byte_of bytes.now }
{
    bytes.iter().all(|byte| is_name_byte(*byte))
}

fn is_name_byte(byte: u8) -> bool
    ensures { result ≡ is_name_byte_of byte }
{
    byte.is_ascii_alphabetic() || byte.is_ascii_digit() || byte == b'_'
}

/// The value that a word is: `true`, `false`, a number of 64 signed bits, or a text.
pub(crate) fn value_of(alloc: Global, word: &str) -> Result<Value, Mem>
    ensures { IfOk result (λ v. plain_of v ≡ value_of_word word.now) }
{
    match word {
        "true" => Ok(Value::Truth(true)),
        "false" => Ok(Value::Truth(false)),
        _ => number_or_text(alloc, word),
    }
}

fn number_or_text(alloc: Global, word: &str) -> Result<Value, Mem>
    ensures { IfOk result (λ v. plain_of v ≡ number_or_text_of (integer_in_of word.now) word.now) }
{
    match integer_in(word) {
        Some(number) => Ok(Value::Int(number)),
        None => Ok(Value::Text(copied(alloc, word)?)),
    }
}

pub(crate) fn copied(alloc: Global, word: &str) -> Result<Txt, Mem>
    ensures { IfOk result (λ t. t ≡ word.now) }
{
    let text = String::from_str(alloc, word)?;
    Ok(Txt::of(text))
}
