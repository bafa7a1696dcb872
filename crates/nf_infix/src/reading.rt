//! `a[b]` of lists and maps.

ghost use Rattle.std.specs.Prelude.{◌≡◌, map, MatchOption};
ghost use Rattle.nf_value.specs.Plain.{null, plain_pairs_of};
ghost use Rattle.nf_value.specs.View.{plain_of};
ghost use Rattle.nf_texts.specs.Outcome.{Gives};
ghost use Rattle.nf_infix.specs.Read.{index as index_of, list_index, map_index, item_at as item_at_of, value_at as value_at_of};

use crate::kinds::{int_in, text_in};
use nf_builtins::CallFault;
use nf_texts::limits::{copied, judged};
use nf_value::{EvalKind, Pairs, Vals, Value};

/// `a[b]`: the item of a list at a place, or the value of a key of a map; null where there is none (Nextflow reference documentation, "Syntax", "Index
/// expression"). Places are counted from 0, and -1 is the place of the last item; no other place below 0 has an item (own).
///
/// # Errors
///
/// `WrongKind` of other values (own); `TooLarge` and `TooDeep` where the item passes a limit by itself. `Mem` where there is no memory for a copy.
pub fn index(value: &Value, at: &Value) -> Result<Value, CallFault>
    ensures { Gives (index_of (plain_of value.now) (plain_of at.now)) result }
{
    match value {
        Value::List(list) => index_list(list, at),
        Value::Map(pairs) => index_map(pairs, at),
        _ => Err(CallFault::Kind(EvalKind::WrongKind)),
    }
}

fn index_list(list: &Vals, at: &Value) -> Result<Value, CallFault>
    ensures { Gives (list_index list.now (plain_of at.now)) result }
{
    match item_at(list, int_in(at)?) {
        Some(item) => copied(item),
        None => judged(Value::Null),
    }
}

fn index_map(pairs: &Pairs, at: &Value) -> Result<Value, CallFault>
    ensures { Gives (map_index (plain_pairs_of pairs.now) (plain_of at.now)) result }
{
    let key = text_in(at)?;
    match value_at(pairs, key.as_str()) {
        Some(value) => copied(value),
        None => judged(Value::Null),
    }
}

/// The item at a place, where -1 is that of the last.
fn item_at(list: &Vals, place: i64) -> Option<&Value>
    ensures { MatchOption result (item_at_of list.now place ≡ null) (λ v. item_at_of list.now place ≡ plain_of v.now) }
{
    item_in(list.items(), place)
}

fn item_in(items: &[Value], place: i64) -> Option<&Value>
    ensures { MatchOption result (item_at_of (map plain_of items.now) place ≡ null) (λ v. item_at_of (map plain_of items.now) place ≡ plain_of v.now) }
{
    if place == -1 {
        return items.last();
    }
    match usize::try_from(place) {
        Ok(i) => items.get(i),
        Err(_) => None,
    }
}

/// The value of a key.
pub(crate) fn value_at<'a>(pairs: &'a Pairs, key: &str) -> Option<&'a Value>
    ensures { MatchOption result (value_at_of key.now (plain_pairs_of pairs.now) ≡ null) (λ v. value_at_of key.now (plain_pairs_of pairs.now) ≡ plain_of v.now) }
{
    for (other, value) in pairs.items() {
        if other.as_str() == key {
            return Some(value);
        }
    }
    None
}
