//! What is emitted at the close.

ghost use Rattle.std.specs.Prelude.{◌≡◌, ◌++◌, Ok, MatchResult, OnOk, map};
ghost use Rattle.std.specs.Option.{option_map};
ghost use Rattle.nf_value.specs.View.{plain_of};
ghost use Rattle.nf_opstream.specs.Promise.{emits_of, IsFault};
ghost use Rattle.nf_opclose.specs.Closing.{single};
ghost use Rattle.nf_opclose.specs.Gathered.{unlisted, parts_of, sorted_list, if_some};

use nf_bag::{OpFault, sorted};
use nf_opstream::PassState;
use nf_value::{Mem, Vals, Value};
use std::alloc::Global;

/// Emits a value to the first output.
pub(crate) fn emit(out: &mut PassState, value: Value) -> Result<Vec<(u32, Value)>, OpFault>
    ensures { let due = single (plain_of value) in MatchResult result (λ es. due ≡ Ok (emits_of es.items)) (IsFault due) }
{
    out.push(0, value, Value::Null)
}

/// Emits the value, if there is one, to the first output.
pub(crate) fn emit_some(
    alloc: Global,
    out: &mut PassState,
    value: Option<Value>,
) -> Result<Vec<(u32, Value)>, OpFault>
    ensures { let due = if_some (option_map plain_of value) in MatchResult result (λ es. due ≡ Ok (emits_of es.items)) (IsFault due) }
{
    match value {
        Some(value) => emit(out, value),
        None => Ok(Vec::new(alloc)),
    }
}

/// Emits the sorted list of these values to the first output. Time: some n log n comparisons of values.
pub(crate) fn emit_sorted(
    out: &mut PassState,
    items: Vec<Value>,
) -> Result<Vec<(u32, Value)>, OpFault>
    ensures { let due = sorted_list (map plain_of items.items) in MatchResult result (λ es. due ≡ Ok (emits_of es.items)) (IsFault due) }
{
    let list = sorted(Vals::of(items))?;
    emit(out, Value::List(list))
}

/// Adds a value; if `flat`, the items of a list in its place.
pub(crate) fn put_parts(parts: &mut Vec<Value>, flat: bool, value: Value) -> Result<(), Mem>
    ensures { OnOk result (map plain_of parts.new.items ≡ map plain_of parts.old.items ++ parts_of flat (plain_of value)) }
{
    if !flat {
        parts.push(value)?;
        return Ok(());
    }
    put_items(parts, value)
}

fn put_items(parts: &mut Vec<Value>, value: Value) -> Result<(), Mem>
    ensures { OnOk result (map plain_of parts.new.items ≡ map plain_of parts.old.items ++ unlisted (plain_of value)) }
{
    match value {
        Value::List(list) => {
            let mut items = list.into_items();
            parts.append(&mut items)?;
            Ok(())
        }
        other => {
            parts.push(other)?;
            Ok(())
        }
    }
}
