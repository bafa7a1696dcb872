//! Files in values.

ghost use Rattle.std.specs.Prelude.{◌≡◌};
ghost use Rattle.nf_value.specs.Plain.{plain_pairs_of, plains_of};
ghost use Rattle.nf_value.specs.View.{plain_of};
ghost use Rattle.nf_meaning.specs.Things as spec;

use nf_value::{Pairs, Vals, Value};

/// Whether a value is a file, or a list or map that holds one (own). Takes no memory.
#[cycle(holds_file)]
pub fn holds_file(value: &Value) -> bool
    ensures { result ≡ spec.holds_file (plain_of value.now) }
{
    match value {
        Value::File(_) => true,
        Value::List(list) => one_holds_file(list),
        Value::Map(pairs) => pair_holds_file(pairs),
        Value::Null | Value::Truth(_) | Value::Int(_) | Value::Text(_) => false,
    }
}

#[cycle(holds_file)]
fn one_holds_file(list: &Vals) -> bool
    ensures { result ≡ spec.one_holds_file (plains_of list.now) }
{
    for item in list.items() {
        if holds_file(item) {
            return true;
        }
    }
    false
}

#[cycle(holds_file)]
fn pair_holds_file(pairs: &Pairs) -> bool
    ensures { result ≡ spec.pair_holds_file (plain_pairs_of pairs.now) }
{
    for (_, item) in pairs.items() {
        if holds_file(item) {
            return true;
        }
    }
    false
}
