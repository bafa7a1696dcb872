//! The operators that compare: `<`, `<=`, `>`, `>=`, `==`, `!=`, `==~` and `in`.

ghost use Rattle.std.specs.Prelude.{◌≡◌, map};
ghost use Rattle.nf_value.specs.Plain.{plain_pairs_of};
ghost use Rattle.nf_value.specs.View.{plain_of};
ghost use Rattle.nf_texts.specs.Outcome.{Gives};
ghost use Rattle.nf_builtins.specs.Maps.{has_key as has_key_of};
ghost use Rattle.nf_infix.specs.Compare.{compared, compared_int, compared_text, less as less_of, at_most as at_most_of, greater as greater_of, at_least as at_least_of, same as same_of, differs as differs_of, matches as matches_of, is_in as is_in_of, in_items, in_keys};

use crate::kinds::{int_in, text_in};
use nf_builtins::CallFault;
use nf_pattern::WholeRe;
use nf_texts::limits::judged;
use nf_value::{EvalKind, Pairs, Txt, Vals, Value};
use std::alloc::Global;
use std::cmp::Ordering;

/// `a < b` of two numbers or two texts, which compare by their bytes (Nextflow reference documentation, "Syntax", "Binary expressions").
///
/// # Errors
///
/// `WrongKind` of any other two values (own). Takes no memory.
pub fn less(left: &Value, right: &Value) -> Result<Value, CallFault>
    ensures { Gives (less_of (plain_of left.now) (plain_of right.now)) result }
{
    judged(Value::Truth(compare(left, right)?.is_lt()))
}

/// `a <= b` of two numbers or two texts, which compare by their bytes (Nextflow reference documentation, "Syntax", "Binary expressions").
///
/// # Errors
///
/// `WrongKind` of any other two values (own). Takes no memory.
pub fn at_most(left: &Value, right: &Value) -> Result<Value, CallFault>
    ensures { Gives (at_most_of (plain_of left.now) (plain_of right.now)) result }
{
    judged(Value::Truth(compare(left, right)?.is_le()))
}

/// `a > b` of two numbers or two texts, which compare by their bytes (Nextflow reference documentation, "Syntax", "Binary expressions").
///
/// # Errors
///
/// `WrongKind` of any other two values (own). Takes no memory.
pub fn greater(left: &Value, right: &Value) -> Result<Value, CallFault>
    ensures { Gives (greater_of (plain_of left.now) (plain_of right.now)) result }
{
    judged(Value::Truth(compare(left, right)?.is_gt()))
}

/// `a >= b` of two numbers or two texts, which compare by their bytes (Nextflow reference documentation, "Syntax", "Binary expressions").
///
/// # Errors
///
/// `WrongKind` of any other two values (own). Takes no memory.
pub fn at_least(left: &Value, right: &Value) -> Result<Value, CallFault>
    ensures { Gives (at_least_of (plain_of left.now) (plain_of right.now)) result }
{
    judged(Value::Truth(compare(left, right)?.is_ge()))
}

/// The order of two numbers or two texts.
fn compare(left: &Value, right: &Value) -> Result<Ordering, EvalKind>
    ensures { result ≡ compared (plain_of left.now) (plain_of right.now) }
{
    match left {
        Value::Int(number) => compare_int(*number, right),
        Value::Text(text) => compare_text(text, right),
        _ => Err(EvalKind::WrongKind),
    }
}

fn compare_int(left: i64, right: &Value) -> Result<Ordering, EvalKind>
    ensures { result ≡ compared_int left (plain_of right.now) }
{
    let right = int_in(right)?;
    Ok(left.cmp(&right))
}

fn compare_text(left: &Txt, right: &Value) -> Result<Ordering, EvalKind>
    ensures { result ≡ compared_text left.now (plain_of right.now) }
{
    let right = text_in(right)?;
    Ok(left.as_str().cmp(right.as_str()))
}

/// `a == b`: whether two values are the same (Nextflow reference documentation, "Syntax", "Binary expressions"; that values of two kinds are
/// never the same is this project's own choice). It has no fault. Takes no memory.
///
/// # Errors
///
/// None.
pub fn same(left: &Value, right: &Value) -> Result<Value, CallFault>
    ensures { Gives (same_of (plain_of left.now) (plain_of right.now)) result }
{
    judged(Value::Truth(*left == *right))
}

/// `a != b`: whether two values aren't the same (Nextflow reference documentation, "Syntax", "Binary expressions"). It has no fault. Takes no memory.
///
/// # Errors
///
/// None.
pub fn differs(left: &Value, right: &Value) -> Result<Value, CallFault>
    ensures { Gives (differs_of (plain_of left.now) (plain_of right.now)) result }
{
    judged(Value::Truth(*left != *right))
}

/// `a ==~ re`: whether a whole text matches a regular expression (Nextflow reference documentation, "Syntax", "Binary expressions").
///
/// # Errors
///
/// `WrongKind` where the value is no text (own). `Mem` for want of memory, which each search needs for itself.
pub fn matches(alloc: Global, value: &Value, re: &WholeRe) -> Result<Value, CallFault>
    ensures { Gives (matches_of (plain_of value.now) re.now) result }
{
    let text = text_in(value)?;
    let found = re.matches_whole(alloc, text.as_str())?;
    judged(Value::Truth(found))
}

/// `a in b`: whether a list has the item, or a map the key (Nextflow reference documentation, "Syntax", "Binary expressions").
///
/// # Errors
///
/// `WrongKind` where the second is neither, or is a map and the first no text (own). Takes no memory.
pub fn is_in(item: &Value, place: &Value) -> Result<Value, CallFault>
    ensures { Gives (is_in_of (plain_of item.now) (plain_of place.now)) result }
{
    match place {
        Value::List(list) => judged(Value::Truth(has_item(list, item))),
        Value::Map(pairs) => is_key(item, pairs),
        _ => Err(CallFault::Kind(EvalKind::WrongKind)),
    }
}

fn has_item(list: &Vals, item: &Value) -> bool
    ensures { result ≡ in_items (plain_of item.now) list.now }
{
    has_in(list.items(), item)
}

/// Whether the item is among the items.
pub(crate) fn has_in(items: &[Value], item: &Value) -> bool
    ensures { result ≡ in_items (plain_of item.now) (map plain_of items.now) }
{
    items.contains(item)
}

fn is_key(item: &Value, pairs: &Pairs) -> Result<Value, CallFault>
    ensures { Gives (in_keys (plain_of item.now) (plain_pairs_of pairs.now)) result }
{
    let key = text_in(item)?;
    judged(Value::Truth(has_key(pairs, key.as_str())))
}

fn has_key(pairs: &Pairs, key: &str) -> bool
    ensures { result ≡ has_key_of key.now (plain_pairs_of pairs.now) }
{
    for (other, _) in pairs.items() {
        if other.as_str() == key {
            return true;
        }
    }
    false
}
