//! Tuples split into key and rest, and how `join` pairs one.

ghost use Rattle.std.specs.Prelude.{◌≡◌, ◌∷◌, ◌++◌, Some, None, cond, ◌&&◌, true, map, is_some, slice_get, remove, Ok, IfOk, OnOk, MatchResult};
ghost use Rattle.std.specs.BTreeMap.{get, insert_entry, Updates};
ghost use Rattle.std.specs.BTreeSet.{contains};
ghost use Rattle.std.specs.Ordering.{eq_by_cmp};
ghost use Rattle.nf_value.specs.Plain.{list as plain_list, plains_of};
ghost use Rattle.nf_value.specs.View.{plain_of};
ghost use Rattle.nf_value.specs.declared.value.Value.{Value};
ghost use Rattle.nf_opstream.specs.Fault.{fault_of, not_a_tuple};
ghost use Rattle.nf_opstream.specs.Promise.{emits_of, IsFault};
ghost use Rattle.nf_opjoin.specs.Tuples.{key_at};
ghost use Rattle.nf_opjoin.specs.Entered.{by_order, IsSplit, entered, unmatched};

use crate::tuples::{emit, put_copies};
use nf_bag::OpFault;
use nf_opstream::PassState;
use nf_value::{Mem, Vals, Value};
use std::alloc::Global;
use std::collections::{BTreeMap, BTreeSet};

/// A tuple without its key, and the key.
#[derive(Drop)]
pub(crate) struct Keyed {
    pub(crate) key: Value,
    pub(crate) rest: Vals,
}

/// Takes the key at a place out of a tuple that is long enough.
pub(crate) fn split(item: Value, place: usize) -> Result<Keyed, OpFault>
    ensures { MatchResult result (λ t. IsSplit place (plain_of item) (plain_of t.key) t.rest) (λ f. (key_at place (plain_of item) ≡ None) × (fault_of f ≡ Some (not_a_tuple (plain_of item)))) }
{
    match item {
        Value::List(list) => split_list(list, place),
        other => Err(OpFault::NotATuple { item: other }),
    }
}

fn split_list(list: Vals, place: usize) -> Result<Keyed, OpFault>
    ensures { MatchResult result (λ t. (slice_get list place ≡ Some (plain_of t.key)) × (t.rest ≡ remove list place)) (λ f. (slice_get list place ≡ None) × (fault_of f ≡ Some (not_a_tuple (plain_list (plains_of list))))) }
{
    let mut items = list.into_items();
    if items.len() <= place {
        return Err(OpFault::NotATuple {
            item: Value::List(Vals::of(items)),
        });
    }
    let key = items.remove(place);
    Ok(Keyed {
        key,
        rest: Vals::of(items),
    })
}

/// Puts a keyed item into the map of its own input, and emits its pair if the other input has its key.
pub(crate) fn enter(
    alloc: Global,
    out: &mut PassState,
    first: bool,
    keyed: Keyed,
    own: &mut BTreeMap<Value, Vals>,
    others: &BTreeMap<Value, Vals>,
    matched: &mut BTreeSet<Value>,
) -> Result<Vec<(u32, Value)>, OpFault>
    ensures emits { let due = entered first (plain_of keyed.key) keyed.rest (get by_order own.old keyed.key) (get by_order others.now keyed.key) in MatchResult result (λ es. due ≡ Ok (emits_of es.items)) (IsFault due) }
    ensures fresh { OnOk result (get by_order own.old keyed.key ≡ None) }
    ensures entries { OnOk result (own.new.entries ≡ insert_entry by_order own.old.entries keyed.key keyed.rest) }
    ensures updates { OnOk result (Updates by_order own.old own.new keyed.key (Some keyed.rest)) }
    ensures matched { OnOk result ((q : Value) → contains by_order matched.new q ≡ cond (is_some (get by_order others.now keyed.key) && eq_by_cmp by_order keyed.key q) true (contains by_order matched.old q)) }
{
    if own.contains_key(&keyed.key) {
        return Err(OpFault::DuplicateKey { key: keyed.key });
    }
    match others.get(&keyed.key) {
        None => {
            own.insert(keyed.key, keyed.rest)?;
            Ok(Vec::new(alloc))
        }
        Some(other) => {
            let key = keyed.key.copy()?;
            matched.insert(key)?;
            let tuple = met_list(alloc, first, &keyed, other)?;
            own.insert(keyed.key, keyed.rest)?;
            emit(out, tuple)
        }
    }
}

fn met_list(alloc: Global, first: bool, keyed: &Keyed, other: &Vals) -> Result<Vals, Mem>
    ensures { IfOk result (λ vs. vs ≡ plain_of keyed.now.key ∷ cond first (keyed.now.rest ++ other.now) (other.now ++ keyed.now.rest)) }
{
    let mut items = Vec::new(alloc);
    items.push(keyed.key.copy()?)?;
    if first {
        put_copies(&mut items, keyed.rest.items())?;
        put_copies(&mut items, other.items())?;
    } else {
        put_copies(&mut items, other.items())?;
        put_copies(&mut items, keyed.rest.items())?;
    }
    Ok(Vals::of(items))
}
