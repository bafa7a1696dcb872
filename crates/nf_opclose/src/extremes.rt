//! The least and the greatest value so far.

ghost use Rattle.std.specs.Prelude.{◌≡◌, List, Some};
ghost use Rattle.std.specs.Option.{option_map};
ghost use Rattle.nf_value.specs.Plain.{Plain};
ghost use Rattle.nf_value.specs.View.{plain_of};
ghost use Rattle.nf_bag.specs.Sorted.{IsRising, inserted};
ghost use Rattle.nf_opclose.specs.Gathered.{first_of, last_of};

use nf_value::Value;
use std::cmp::Ordering;

/// The least value after one more. `least` is the first, in rising order, of those before.
pub(crate) fn lesser(least: Option<Value>, value: Value) -> Value
    ensures { (vs : List Plain) → option_map plain_of least ≡ first_of vs → Some (plain_of result) ≡ first_of (inserted (plain_of value) vs) }
{
    match least {
        None => value,
        Some(least) => match value.cmp(&least) {
            Ordering::Greater => least,
            _ => value,
        },
    }
}

/// The greatest value after one more. `greatest` is the last, in rising order, of those before.
pub(crate) fn greater(greatest: Option<Value>, value: Value) -> Value
    ensures { (vs : List Plain) → IsRising vs → option_map plain_of greatest ≡ last_of vs → Some (plain_of result) ≡ last_of (inserted (plain_of value) vs) }
{
    match greatest {
        None => value,
        Some(greatest) => match value.cmp(&greatest) {
            Ordering::Greater => value,
            _ => greatest,
        },
    }
}
