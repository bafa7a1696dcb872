//! The members of lists and maps, emitted to the first output.

ghost use Rattle.std.specs.Prelude.{◌≡◌, ◌∷◌, [], ◌++◌, IfOk, map};
ghost use Rattle.nf_value.specs.View.{plain_of};
ghost use Rattle.nf_value.specs.Plain.{plains_of, plain_pairs_of};
ghost use Rattle.nf_opstream.specs.Promise.{emits_of};
ghost use Rattle.nf_opstream.specs.Nested.{opened as opened_of, maps_of, pair_map, leaves, all_leaves};
ghost use Rattle.nf_opstream.specs.Rows.{first_out};

use nf_value::{Mem, Pairs, Txt, Vals, Value};
use std::alloc::Global;

/// A list's items, a map's pairs as maps, or the value itself.
pub(crate) fn opened(alloc: Global, value: Value) -> Result<Vec<(u32, Value)>, Mem>
    ensures { IfOk result (λ es. emits_of es.items ≡ first_out (opened_of (plain_of value))) }
{
    match value {
        Value::List(list) => to_first(alloc, list.into_items()),
        Value::Map(pairs) => pairs_to_first(alloc, pairs),
        other => alone_to_first(alloc, other),
    }
}

/// These values, emitted to the first output.
pub(crate) fn to_first(alloc: Global, values: Vec<Value>) -> Result<Vec<(u32, Value)>, Mem>
    ensures { IfOk result (λ es. emits_of es.items ≡ first_out (map plain_of values.items)) }
{
    let mut emits = Vec::new(alloc);
    for value in values {
        emits.push((0, value))?;
    }
    Ok(emits)
}

fn alone_to_first(alloc: Global, value: Value) -> Result<Vec<(u32, Value)>, Mem>
    ensures { IfOk result (λ es. emits_of es.items ≡ (0, plain_of value) ∷ []) }
{
    let mut emits = Vec::new(alloc);
    emits.push((0, value))?;
    Ok(emits)
}

fn pairs_to_first(alloc: Global, pairs: Pairs) -> Result<Vec<(u32, Value)>, Mem>
    ensures { IfOk result (λ es. emits_of es.items ≡ first_out (maps_of (plain_pairs_of pairs))) }
{
    let mut emits = Vec::new(alloc);
    for (key, value) in pairs.into_items() {
        let map = pair_as_map(alloc, key, value)?;
        emits.push((0, map))?;
    }
    Ok(emits)
}

/// The map of a pair, with the keys `key` and `value`.
fn pair_as_map(alloc: Global, key: Txt, value: Value) -> Result<Value, Mem>
    ensures { IfOk result (λ v. plain_of v ≡ pair_map key (plain_of value)) }
{
    let key_name = Txt::of(String::from_str(alloc, "key")?);
    let value_name = Txt::of(String::from_str(alloc, "value")?);
    let mut items = Vec::new(alloc);
    items.push((key_name, Value::Text(key)))?;
    items.push((value_name, value))?;
    Ok(Value::Map(Pairs::of(items)))
}

/// Adds what a list and the lists in it hold, down to what is no list; or the value itself.
#[cycle(leaves)]
pub(crate) fn put_leaves(values: &mut Vec<Value>, value: Value) -> Result<(), Mem>
    ensures { IfOk result (λ _. map plain_of values.new.items ≡ map plain_of values.old.items ++ leaves (plain_of value)) }
{
    match value {
        Value::List(list) => put_all_leaves(values, list),
        other => {
            values.push(other)?;
            Ok(())
        }
    }
}

#[cycle(leaves)]
fn put_all_leaves(values: &mut Vec<Value>, list: Vals) -> Result<(), Mem>
    ensures { IfOk result (λ _. map plain_of values.new.items ≡ map plain_of values.old.items ++ all_leaves (plains_of list)) }
{
    for item in list.into_items() {
        put_leaves(values, item)?;
    }
    Ok(())
}
