//! `+` and `-` between two values.

ghost use Rattle.std.specs.Prelude.{◌≡◌, ◌++◌, ◌∷◌, [], IfOk, filter};
ghost use Rattle.nf_value.specs.Plain.{plain_pairs_of};
ghost use Rattle.nf_value.specs.View.{plain_of};
ghost use Rattle.nf_value.specs.Text.{value_text};
ghost use Rattle.nf_texts.specs.Outcome.{Gives};
ghost use Rattle.nf_infix.specs.Sum.{plus as plus_of, minus as minus_of, int_plus, text_plus, list_plus, map_plus, int_minus, list_minus, added_items, is_missing};

use crate::comparisons::has_in;
use crate::kinds::int_in;
use crate::pairs;
use nf_builtins::CallFault;
use nf_texts::limits::judged;
use nf_value::{EvalKind, Mem, Pairs, Txt, Vals, Value, text_of};
use std::alloc::Global;

/// `a + b` (Nextflow reference documentation, "Syntax", "Binary expressions"): the sum of two numbers, a text with the text of any value after it,
/// a list with the items of another list or with any other value after them, or a map with the pairs of another, which win.
///
/// # Errors
///
/// `WrongKind` of other values, `Overflow` where a sum leaves 64 signed bits, `TooLarge` where the value would weigh more than 16,777,216, and
/// else `TooDeep` where it would be deeper than 64 (own). `Mem` where there is no memory for it.
pub fn plus(alloc: Global, left: Value, right: Value) -> Result<Value, CallFault>
    ensures { Gives (plus_of (plain_of left) (plain_of right)) result }
{
    match left {
        Value::Int(number) => plus_int(number, &right),
        Value::Text(text) => plus_text(alloc, &text, &right),
        Value::List(list) => plus_list(list, right),
        Value::Map(pairs) => plus_map(pairs, right),
        _ => Err(CallFault::Kind(EvalKind::WrongKind)),
    }
}

fn plus_int(left: i64, right: &Value) -> Result<Value, CallFault>
    ensures { Gives (int_plus left (plain_of right.now)) result }
{
    match left.checked_add(int_in(right)?) {
        Some(sum) => judged(Value::Int(sum)),
        None => Err(CallFault::Kind(EvalKind::Overflow)),
    }
}

fn plus_text(alloc: Global, left: &Txt, right: &Value) -> Result<Value, CallFault>
    ensures { Gives (text_plus left.now (plain_of right.now)) result }
{
    judged(Value::Text(longer(alloc, left, right)?))
}

/// A text followed by the text of a value.
fn longer(alloc: Global, left: &Txt, right: &Value) -> Result<Txt, Mem>
    ensures { IfOk result (λ t. t ≡ left.now ++ value_text (plain_of right.now)) }
{
    let more = text_of(alloc, right)?;
    let mut text = String::from_str(alloc, left.as_str())?;
    text.push_str(more.as_str())?;
    Ok(Txt::of(text))
}

fn plus_list(left: Vals, right: Value) -> Result<Value, CallFault>
    ensures { Gives (list_plus left (plain_of right)) result }
{
    judged(Value::List(with_items(left, right)?))
}

/// A list followed by the items of another, or by one other value.
fn with_items(list: Vals, right: Value) -> Result<Vals, Mem>
    ensures { IfOk result (λ v. v ≡ list ++ added_items (plain_of right)) }
{
    match right {
        Value::List(more) => joined(list, more),
        other => with_item(list, other),
    }
}

fn joined(list: Vals, more: Vals) -> Result<Vals, Mem>
    ensures { IfOk result (λ v. v ≡ list ++ more) }
{
    let mut items = list.into_items();
    let mut more = more.into_items();
    items.append(&mut more)?;
    Ok(Vals::of(items))
}

fn with_item(list: Vals, item: Value) -> Result<Vals, Mem>
    ensures { IfOk result (λ v. v ≡ list ++ plain_of item ∷ []) }
{
    let mut items = list.into_items();
    items.push(item)?;
    Ok(Vals::of(items))
}

fn plus_map(left: Pairs, right: Value) -> Result<Value, CallFault>
    ensures { Gives (map_plus (plain_pairs_of left) (plain_of right)) result }
{
    match right {
        Value::Map(more) => judged(Value::Map(pairs::merged(left, more)?)),
        _ => Err(CallFault::Kind(EvalKind::WrongKind)),
    }
}

/// `a - b` (Nextflow reference documentation, "Syntax", "Binary expressions"): the difference of two numbers, or the items of a list that aren't in another.
/// Takes time by the product of their lengths.
///
/// # Errors
///
/// `WrongKind` of other values, `Overflow` where a difference leaves 64 signed bits (own); `TooLarge` and `TooDeep` as `plus`, where the first value
/// passed a limit.
pub fn minus(left: Value, right: &Value) -> Result<Value, CallFault>
    ensures { Gives (minus_of (plain_of left) (plain_of right.now)) result }
{
    match left {
        Value::Int(number) => minus_int(number, right),
        Value::List(list) => minus_list(list, right),
        _ => Err(CallFault::Kind(EvalKind::WrongKind)),
    }
}

fn minus_int(left: i64, right: &Value) -> Result<Value, CallFault>
    ensures { Gives (int_minus left (plain_of right.now)) result }
{
    match left.checked_sub(int_in(right)?) {
        Some(difference) => judged(Value::Int(difference)),
        None => Err(CallFault::Kind(EvalKind::Overflow)),
    }
}

fn minus_list(left: Vals, right: &Value) -> Result<Value, CallFault>
    ensures { Gives (list_minus left (plain_of right.now)) result }
{
    match right {
        Value::List(others) => judged(Value::List(without(left, others))),
        _ => Err(CallFault::Kind(EvalKind::WrongKind)),
    }
}

/// The items of a list that aren't in another.
fn without(list: Vals, others: &Vals) -> Vals
    ensures { result ≡ filter (is_missing others.now) list }
{
    let mut items = list.into_items();
    let others = others.items();
    items.retain(|item| !has_in(others, item));
    Vals::of(items)
}
