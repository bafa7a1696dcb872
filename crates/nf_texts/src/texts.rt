//! The methods of texts. Places and counts are in characters.

ghost use Rattle.std.specs.Str.{chars};
ghost use Rattle.nf_value.specs.View.{plain_of};
ghost use Rattle.nf_texts.specs.Outcome.{Gives};
ghost use Rattle.nf_texts.specs.Texts.{text_take, text_drop, text_starts_with, text_ends_with, text_is_empty, text_size, text_length, text_reverse, to_lower_case as to_lower_case_of, to_upper_case as to_upper_case_of, substring as substring_of, part_from as part_from_of, part_between as part_between_of, text_contains, text_index_of, replace as replace_of, replaced_or_fault, trim as trim_of};

use crate::args::{as_count, count_arg, no_args, on_text, text_arg, text_args};
use crate::characters::{
    char_count, first_chars, inner_chars, is_end, is_front, later_chars, place_of, reversed,
};
use crate::fault::CallFault;
use crate::limits::{count_value, judged, text_fault, text_value};
use crate::replacing::{replaced, replaced_len};
use crate::trimming::without_blanks;
use nf_value::{EvalKind, Txt, Vals, Value};
use std::alloc::Global;

/// `take(n)`: the first n characters.
pub fn take(alloc: Global, text: &Txt, args: &Vals) -> Result<Value, CallFault>
    ensures { Gives (text_take text.now args.now) result }
{
    let count = count_arg(args)? as usize;
    let front = first_chars(alloc, text.as_str(), count)?;
    judged(Value::Text(Txt::of(front)))
}

/// `drop(n)`: all characters but the first n.
pub fn drop(alloc: Global, text: &Txt, args: &Vals) -> Result<Value, CallFault>
    ensures { Gives (text_drop text.now args.now) result }
{
    let count = count_arg(args)? as usize;
    let rest = later_chars(alloc, text.as_str(), count)?;
    judged(Value::Text(Txt::of(rest)))
}

/// `startsWith(t)`: whether the text begins with `t`.
pub fn starts_with(recv: &Value, args: &Vals) -> Result<Value, CallFault>
    ensures { Gives (text_starts_with (plain_of recv.now) args.now) result }
{
    let text = on_text(recv)?;
    let front = text_arg(args)?;
    judged(Value::Truth(is_front(text.as_str(), front.as_str())))
}

/// `endsWith(t)`: whether the text ends with `t`.
pub fn ends_with(recv: &Value, args: &Vals) -> Result<Value, CallFault>
    ensures { Gives (text_ends_with (plain_of recv.now) args.now) result }
{
    let text = on_text(recv)?;
    let end = text_arg(args)?;
    judged(Value::Truth(is_end(text.as_str(), end.as_str())))
}

/// `isEmpty()`: whether the text has no characters.
pub fn is_empty(text: &Txt, args: &Vals) -> Result<Value, CallFault>
    ensures { Gives (text_is_empty text.now args.now) result }
{
    no_args(args)?;
    judged(Value::Truth(text.as_str().is_empty()))
}

/// `size()`: the number of characters.
pub fn size(text: &Txt, args: &Vals) -> Result<Value, CallFault>
    ensures { Gives (text_size text.now args.now) result }
{
    no_args(args)?;
    let count = char_count(text.as_str());
    count_value(count)
}

/// `length()`: the number of characters.
pub fn length(recv: &Value, args: &Vals) -> Result<Value, CallFault>
    ensures { Gives (text_length (plain_of recv.now) args.now) result }
{
    size(on_text(recv)?, args)
}

/// `reverse()`: the characters from the last to the first.
pub fn reverse(alloc: Global, text: &Txt, args: &Vals) -> Result<Value, CallFault>
    ensures { Gives (text_reverse text.now args.now) result }
{
    no_args(args)?;
    let reversed = reversed(alloc, text.as_str())?;
    judged(Value::Text(Txt::of(reversed)))
}

/// `toLowerCase()`: the text with its ASCII letters small.
pub fn to_lower_case(alloc: Global, recv: &Value, args: &Vals) -> Result<Value, CallFault>
    ensures { Gives (to_lower_case_of (plain_of recv.now) args.now) result }
{
    let text = on_text(recv)?;
    no_args(args)?;
    let mut lower = String::from_str(alloc, text.as_str())?;
    lower.make_ascii_lowercase();
    judged(Value::Text(Txt::of(lower)))
}

/// `toUpperCase()`: the text with its ASCII letters large.
pub fn to_upper_case(alloc: Global, recv: &Value, args: &Vals) -> Result<Value, CallFault>
    ensures { Gives (to_upper_case_of (plain_of recv.now) args.now) result }
{
    let text = on_text(recv)?;
    no_args(args)?;
    let mut upper = String::from_str(alloc, text.as_str())?;
    upper.make_ascii_uppercase();
    judged(Value::Text(Txt::of(upper)))
}

/// `contains(t)`: whether `t` stands in the text.
pub fn contains(text: &Txt, args: &Vals) -> Result<Value, CallFault>
    ensures { Gives (text_contains text.now args.now) result }
{
    let part = text_arg(args)?;
    judged(Value::Truth(place_of(text.as_str(), part.as_str()).is_some()))
}

/// `indexOf(t)`: the place at which `t` first stands in the text, or -1.
pub fn index_of(text: &Txt, args: &Vals) -> Result<Value, CallFault>
    ensures { Gives (text_index_of text.now args.now) result }
{
    let part = text_arg(args)?;
    match place_of(text.as_str(), part.as_str()) {
        Some(place) => count_value(place),
        None => judged(Value::Int(-1)),
    }
}

/// `substring(i)`: the characters from the place `i` on. `substring(i, j)`: those of them before the place `j`. A place beyond the text, and `i` above
/// `j`, are the fault `WrongKind`.
pub fn substring(alloc: Global, recv: &Value, args: &Vals) -> Result<Value, CallFault>
    ensures { Gives (substring_of (plain_of recv.now) args.now) result }
{
    let text = on_text(recv)?;
    match args.items() {
        [from] => {
            let from = as_count(from)?;
            part_from(alloc, text, from)
        }
        [from, to] => {
            let from = as_count(from)?;
            let to = as_count(to)?;
            part_between(alloc, text, from, to)
        }
        _ => Err(CallFault::Kind(EvalKind::Arity)),
    }
}

fn part_from(alloc: Global, text: &Txt, from: u64) -> Result<Value, CallFault>
    ensures { Gives (part_from_of (chars text.now) from) result }
{
    let from = from as usize;
    if from > char_count(text.as_str()) {
        return Err(CallFault::Kind(EvalKind::WrongKind));
    }
    let part = later_chars(alloc, text.as_str(), from)?;
    judged(Value::Text(Txt::of(part)))
}

fn part_between(alloc: Global, text: &Txt, from: u64, to: u64) -> Result<Value, CallFault>
    ensures { Gives (part_between_of (chars text.now) from to) result }
{
    let from = from as usize;
    let to = to as usize;
    if from > to || to > char_count(text.as_str()) {
        return Err(CallFault::Kind(EvalKind::WrongKind));
    }
    let part = inner_chars(alloc, text.as_str(), from, to - from)?;
    judged(Value::Text(Txt::of(part)))
}

/// `replace(a, b)`: the text with each `a` replaced by `b`, from left to right. An empty `a` is the fault `WrongKind`.
pub fn replace(alloc: Global, recv: &Value, args: &Vals) -> Result<Value, CallFault>
    ensures { Gives (replace_of (plain_of recv.now) args.now) result }
{
    let text = on_text(recv)?;
    let (from, to) = text_args(args)?;
    replace_each(alloc, text.as_str(), from.as_str(), to.as_str())
}

fn replace_each(alloc: Global, text: &str, from: &str, to: &str) -> Result<Value, CallFault>
    ensures { Gives (replaced_or_fault text.now from.now to.now) result }
{
    if from.is_empty() {
        return Err(CallFault::Kind(EvalKind::WrongKind));
    }
    text_fault(replaced_len(text, from, to))?;
    Ok(Value::Text(Txt::of(replaced(alloc, text, from, to)?)))
}

/// `trim()`: the text without characters up to U+0020 at both ends.
pub fn trim(alloc: Global, recv: &Value, args: &Vals) -> Result<Value, CallFault>
    ensures { Gives (trim_of (plain_of recv.now) args.now) result }
{
    let text = on_text(recv)?;
    no_args(args)?;
    text_value(alloc, without_blanks(text.as_str()))
}
