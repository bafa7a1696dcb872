//! Tuples gathered by keys, and the groups that `groupTuple` makes of them.

ghost use Rattle.std.specs.Prelude.{◌≡◌, ◌∷◌, ◌++◌, [], ℕ, Some, unwrap_or, cond, map, IfOk, OnOk};
ghost use Rattle.std.specs.BTreeMap.{IsOrdered};
ghost use Rattle.nf_value.specs.Plain.{Plain, list as plain_list, plains_of};
ghost use Rattle.nf_value.specs.View.{plain_of};
ghost use Rattle.nf_bag.specs.Sorted.{sorted_of};
ghost use Rattle.nf_opjoin.specs.Entered.{by_order};
ghost use Rattle.nf_opjoin.specs.Grouped.{group_of};
ghost use Rattle.nf_opjoin.specs.Held.{is_key, held_at, groups_of};

use crate::columns::{columns_of, lists};
use crate::keyed::Keyed;
use nf_bag::sorted;
use nf_value::{Mem, Vals, Value};
use std::alloc::Global;
use std::collections::BTreeMap;

/// Adds the rest of a tuple to those with the same key.
pub(crate) fn gather(
    alloc: Global,
    groups: &mut BTreeMap<Value, Vals>,
    keyed: Keyed,
) -> Result<(), Mem>
    ensures held { OnOk result ((k : Plain) → held_at k groups.new.entries ≡ cond (is_key k keyed.key) (Some (unwrap_or (held_at k groups.old.entries) [] ++ plain_list (plains_of keyed.rest) ∷ [])) (held_at k groups.old.entries)) }
    ensures ordered { OnOk result (IsOrdered by_order groups.new) }
{
    let Keyed { key, rest } = keyed;
    let rests = groups.remove(&key).unwrap_or(Vals::of(Vec::new(alloc)));
    let mut items = rests.into_items();
    items.push(Value::List(rest))?;
    groups.insert(key, Vals::of(items))?;
    Ok(())
}

/// Adds the groups, in the order of their keys.
pub(crate) fn put_groups(
    alloc: Global,
    lists: &mut Vec<Value>,
    mut groups: BTreeMap<Value, Vals>,
    place: usize,
    sort: bool,
) -> Result<(), Mem>
    ensures { OnOk result (map plain_of lists.new.items ≡ map plain_of lists.old.items ++ groups_of place sort groups.entries) }
{
    while let Some(entry) = groups.pop_first() {
        lists.push(one_group(alloc, entry, place, sort)?)?;
    }
    Ok(())
}

/// The group of a key: a tuple of the key and the columns of its rests.
fn one_group(alloc: Global, entry: (Value, Vals), place: usize, sort: bool) -> Result<Value, Mem>
    ensures { IfOk result (λ v. plain_of v ≡ group_of place sort (plain_of entry.0) (sorted_of entry.1)) }
{
    let (key, rests) = entry;
    let rests = sorted(rests)?;
    let mut items = lists(alloc, columns_of(alloc, rests)?, sort)?;
    items.insert(place.min(items.len()), key)?;
    Ok(Value::List(Vals::of(items)))
}
