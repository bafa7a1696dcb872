//! The items without a partner, which `join` emits at the close.

ghost use Rattle.std.specs.Prelude.{◌≡◌, ◌++◌, ◌∷◌, [], map, Ok, IfOk, OnOk, MatchResult};
ghost use Rattle.std.specs.BTreeSet.{contains};
ghost use Rattle.nf_value.specs.View.{plain_of};
ghost use Rattle.nf_opstream.specs.Alone.{judged};
ghost use Rattle.nf_opstream.specs.Promise.{emits_of, IsFault};
ghost use Rattle.nf_opjoin.specs.Joined.{padded as padded_plain};
ghost use Rattle.nf_opjoin.specs.Pairing.{given};
ghost use Rattle.nf_opjoin.specs.Entered.{by_order, unmatched};

use nf_bag::OpFault;
use nf_opstream::PassState;
use nf_value::{Mem, Vals, Value};
use std::alloc::Global;
use std::collections::{BTreeMap, BTreeSet};

/// Adds the entries without a partner, padded with null.
pub(crate) fn put_unmatched(
    alloc: Global,
    lonely: &mut Vec<Value>,
    mut entries: BTreeMap<Value, Vals>,
    first: bool,
    matched: &BTreeSet<Value>,
) -> Result<(), Mem>
    ensures { OnOk result (map plain_of lonely.new.items ≡ map plain_of lonely.old.items ++ unmatched (contains by_order matched.now) first entries.entries) }
{
    while let Some(entry) = entries.pop_first() {
        put_entry(alloc, lonely, entry, first, matched)?;
    }
    Ok(())
}

fn put_entry(
    alloc: Global,
    lonely: &mut Vec<Value>,
    entry: (Value, Vals),
    first: bool,
    matched: &BTreeSet<Value>,
) -> Result<(), Mem>
    ensures { OnOk result (map plain_of lonely.new.items ≡ map plain_of lonely.old.items ++ unmatched (contains by_order matched.now) first (entry ∷ [])) }
{
    let (key, rest) = entry;
    if matched.contains(&key) {
        return Ok(());
    }
    lonely.push(padded(alloc, key, rest, first)?)?;
    Ok(())
}

/// A key and its rest, with null in the partner's place.
fn padded(alloc: Global, key: Value, rest: Vals, first: bool) -> Result<Value, Mem>
    ensures { IfOk result (λ v. plain_of v ≡ padded_plain first (plain_of key) rest) }
{
    let mut items = Vec::new(alloc);
    items.push(key)?;
    let mut more = rest.into_items();
    if first {
        items.append(&mut more)?;
        items.push(Value::Null)?;
    } else {
        items.push(Value::Null)?;
        items.append(&mut more)?;
    }
    Ok(Value::List(Vals::of(items)))
}

/// Emits these values to the first output, or fails on the first that is too deep.
pub(crate) fn give(
    alloc: Global,
    out: &mut PassState,
    values: Vals,
) -> Result<Vec<(u32, Value)>, OpFault>
    ensures { let due = given values in MatchResult result (λ es. due ≡ Ok (emits_of es.items)) (IsFault due) }
{
    let mut emits = Vec::new(alloc);
    for value in values.into_items() {
        match give_one(out, value) {
            Err(fault) => return Err(fault),
            Ok(mut more) => emits.append(&mut more)?,
        }
    }
    Ok(emits)
}

fn give_one(out: &mut PassState, value: Value) -> Result<Vec<(u32, Value)>, OpFault>
    ensures { let due = judged ((0, plain_of value) ∷ []) in MatchResult result (λ es. due ≡ Ok (emits_of es.items)) (IsFault due) }
{
    out.push(0, value, Value::Null)
}
