//! How `combine` pairs one item with those of the other input.

ghost use Rattle.std.specs.Prelude.{◌≡◌, ◌∷◌, ◌++◌, [], Some, None, cond, map, unwrap_or, Ok, IfOk, IfSome, OnOk, MatchResult};
ghost use Rattle.nf_value.specs.Plain.{Plain, list as plain_list, plains_of};
ghost use Rattle.nf_value.specs.View.{plain_of};
ghost use Rattle.nf_opstream.specs.Fault.{fault_of, not_a_tuple};
ghost use Rattle.nf_opstream.specs.Promise.{emits_of, IsFault};
ghost use Rattle.nf_opjoin.specs.Tuples.{parts_of};
ghost use Rattle.nf_opjoin.specs.Held.{is_key, held_at};
ghost use Rattle.nf_opjoin.specs.Listed.{pair_key, IsPaired, key_in_front, paired_as, all_paired};

use crate::gathered::gather;
use crate::keyed::{Keyed, split};
use crate::tuples::{emit, parts, put_copies};
use nf_bag::OpFault;
use nf_opstream::PassState;
use nf_value::{Mem, Vals, Value};
use std::alloc::Global;
use std::collections::BTreeMap;
use std::slice;

/// The key by which an item is paired, and the rest of it. Without `by` all items have the key null, so that all are paired.
pub(crate) fn paired_by(alloc: Global, by_first: bool, item: Value) -> Result<Keyed, OpFault>
    ensures { MatchResult result (λ t. IsPaired by_first (plain_of item) (plain_of t.key) t.rest) (λ f. IfSome (fault_of f) (λ g. (pair_key by_first (plain_of item) ≡ None) × (g ≡ not_a_tuple (plain_of item)))) }
{
    if by_first {
        return split(item, 0);
    }
    Ok(Keyed {
        key: Value::Null,
        rest: parts(alloc, item)?,
    })
}

/// Emits a keyed item's pairs with those of the other input that have its key, and puts it into the map of its own input.
pub(crate) fn meet(
    alloc: Global,
    out: &mut PassState,
    by_first: bool,
    first: bool,
    keyed: Keyed,
    own: &mut BTreeMap<Value, Vals>,
    others: &BTreeMap<Value, Vals>,
) -> Result<Vec<(u32, Value)>, OpFault>
    ensures emits { let due = all_paired (paired_as by_first first (plain_of keyed.key) keyed.rest) (unwrap_or (held_at (plain_of keyed.key) others.now.entries) []) in MatchResult result (λ es. due ≡ Ok (emits_of es.items)) (IsFault due) }
    ensures held { OnOk result ((k : Plain) → held_at k own.new.entries ≡ cond (is_key k keyed.key) (Some (unwrap_or (held_at k own.old.entries) [] ++ plain_list (plains_of keyed.rest) ∷ [])) (held_at k own.old.entries)) }
{
    match paired(alloc, out, by_first, first, &keyed, others) {
        Err(fault) => Err(fault),
        Ok(emits) => {
            gather(alloc, own, keyed)?;
            Ok(emits)
        }
    }
}

fn paired(
    alloc: Global,
    out: &mut PassState,
    by_first: bool,
    first: bool,
    keyed: &Keyed,
    others: &BTreeMap<Value, Vals>,
) -> Result<Vec<(u32, Value)>, OpFault>
    ensures { let due = all_paired (paired_as by_first first (plain_of keyed.now.key) keyed.now.rest) (unwrap_or (held_at (plain_of keyed.now.key) others.now.entries) []) in MatchResult result (λ es. due ≡ Ok (emits_of es.items)) (IsFault due) }
{
    match others.get(&keyed.key) {
        None => Ok(Vec::new(alloc)),
        Some(rests) => pairs_with(alloc, out, by_first, first, keyed, rests.items()),
    }
}

fn pairs_with(
    alloc: Global,
    out: &mut PassState,
    by_first: bool,
    first: bool,
    keyed: &Keyed,
    rests: &[Value],
) -> Result<Vec<(u32, Value)>, OpFault>
    ensures { let due = all_paired (λ rest. paired_as by_first first (plain_of keyed.now.key) keyed.now.rest (plain_of rest)) rests.now in MatchResult result (λ es. due ≡ Ok (emits_of es.items)) (IsFault due) }
{
    let mut emits = Vec::new(alloc);
    for rest in rests {
        let mut more = pair(alloc, out, by_first, first, keyed, rest)?;
        emits.append(&mut more)?;
    }
    Ok(emits)
}

fn pair(
    alloc: Global,
    out: &mut PassState,
    by_first: bool,
    first: bool,
    keyed: &Keyed,
    rest: &Value,
) -> Result<Vec<(u32, Value)>, OpFault>
    ensures { let due = paired_as by_first first (plain_of keyed.now.key) keyed.now.rest (plain_of rest.now) in MatchResult result (λ es. due ≡ Ok (emits_of es.items)) (IsFault due) }
{
    let mut items = front(alloc, by_first, &keyed.key)?;
    if first {
        put_copies(&mut items, keyed.rest.items())?;
        put_copies(&mut items, parts_in(rest))?;
    } else {
        put_copies(&mut items, parts_in(rest))?;
        put_copies(&mut items, keyed.rest.items())?;
    }
    emit(out, Vals::of(items))
}

/// The key, if `by_first`.
fn front(alloc: Global, by_first: bool, key: &Value) -> Result<Vec<Value>, Mem>
    ensures { IfOk result (λ v. map plain_of v.items ≡ key_in_front by_first (plain_of key.now)) }
{
    let mut items = Vec::new(alloc);
    if by_first {
        items.push(key.copy()?)?;
    }
    Ok(items)
}

/// The items of a list, or the one value.
fn parts_in(item: &Value) -> &[Value]
    ensures { map plain_of result.now ≡ parts_of (plain_of item.now) }
{
    match item {
        Value::List(list) => list.items(),
        other => slice::from_ref(other),
    }
}
