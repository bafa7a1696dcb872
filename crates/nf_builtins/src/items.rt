//! Counts, copies and searches the items of lists.

ghost use Rattle.std.specs.Prelude.{◌≡◌, ◌<◌, ◌^◌, IfOk, IfSome, map, length, take, drop, reverse, MatchOption, []};
ghost use Rattle.std.specs.List.{position_from, list_any};
ghost use Rattle.nf_value.specs.View.{plain_of};
ghost use Rattle.nf_builtins.specs.Lists.{greatest, least, is_same, firsts_of, greater_of as greater_one, smaller_of as smaller_one};

use nf_value::{Mem, Vals, Value};
use std::alloc::Global;

/// The number of items.
pub(crate) fn count(list: &Vals) -> usize
    ensures count { result ≡ length list.now }
    ensures small { result < 2 ^ 63 }
{
    count_in(list.items())
}

fn count_in(items: &[Value]) -> usize
    ensures count { result ≡ length (map plain_of items.now) }
    ensures small { result < 2 ^ 63 }
{
    items.len()
}

/// Whether the item is in the list.
pub(crate) fn has(list: &Vals, item: &Value) -> bool
    ensures { result ≡ list_any (λ w. is_same w (plain_of item.now)) list.now }
{
    has_in(list.items(), item)
}

/// The first place of the item.
pub(crate) fn place_of(list: &Vals, item: &Value) -> Option<usize>
    ensures place { result ≡ position_from (λ w. is_same w (plain_of item.now)) 0 list.now }
    ensures small { IfSome result (λ k. k < 2 ^ 63) }
{
    place_in(list.items(), item)
}

/// The first `count` items.
pub(crate) fn front(alloc: Global, list: &Vals, count: usize) -> Result<Vals, Mem>
    ensures { IfOk result (λ v. v ≡ take count list.now) }
{
    let items = list.items();
    let count = count.min(items.len());
    Ok(Vals::of(copies(alloc, &items[..count])?))
}

/// All items but the first `count`.
pub(crate) fn rest(alloc: Global, list: &Vals, count: usize) -> Result<Vals, Mem>
    ensures { IfOk result (λ v. v ≡ drop count list.now) }
{
    let items = list.items();
    let count = count.min(items.len());
    Ok(Vals::of(copies(alloc, &items[count..])?))
}

/// The items from the last to the first.
pub(crate) fn reversed(alloc: Global, list: &Vals) -> Result<Vals, Mem>
    ensures { IfOk result (λ v. v ≡ reverse list.now) }
{
    let mut items = copies(alloc, list.items())?;
    items.reverse();
    Ok(Vals::of(items))
}

/// Each value once, where it stands first.
pub(crate) fn firsts(alloc: Global, list: &Vals) -> Result<Vals, Mem>
    ensures { IfOk result (λ v. v ≡ firsts_of list.now) }
{
    Ok(Vals::of(firsts_in(alloc, list.items())?))
}

/// The greatest item.
pub(crate) fn greatest_of(list: &Vals) -> Option<&Value>
    ensures { MatchOption result (list.now ≡ []) (λ v. greatest list.now ≡ plain_of v.now) }
{
    greatest_in(list.items())
}

/// The smallest item.
pub(crate) fn least_of(list: &Vals) -> Option<&Value>
    ensures { MatchOption result (list.now ≡ []) (λ v. least list.now ≡ plain_of v.now) }
{
    least_in(list.items())
}

/// Whether the item is in the list.
fn has_in(items: &[Value], item: &Value) -> bool
    ensures { result ≡ list_any (λ w. is_same w (plain_of item.now)) (map plain_of items.now) }
{
    items.contains(item)
}

/// The first place of the item.
fn place_in(items: &[Value], item: &Value) -> Option<usize>
    ensures place { result ≡ position_from (λ w. is_same w (plain_of item.now)) 0 (map plain_of items.now) }
    ensures small { IfSome result (λ k. k < 2 ^ 63) }
{
    for (i, other) in items.iter().enumerate() {
        if *other == *item {
            return Some(i);
        }
    }
    None
}

/// Other values, equal to these.
fn copies(alloc: Global, items: &[Value]) -> Result<Vec<Value>, Mem>
    ensures { IfOk result (λ v. map plain_of v.items ≡ map plain_of items.now) }
{
    let mut copies = Vec::new(alloc);
    for item in items {
        copies.push(item.copy()?)?;
    }
    Ok(copies)
}

/// Each value once, where it stands first. Takes time by the square of their number where they are distinct.
fn firsts_in(alloc: Global, items: &[Value]) -> Result<Vec<Value>, Mem>
    ensures { IfOk result (λ v. map plain_of v.items ≡ firsts_of (map plain_of items.now)) }
{
    let mut kept = Vec::new(alloc);
    for item in items {
        if !has_in(&kept, item) {
            kept.push(item.copy()?)?;
        }
    }
    Ok(kept)
}

/// The greatest item.
fn greatest_in(items: &[Value]) -> Option<&Value>
    ensures { MatchOption result (map plain_of items.now ≡ []) (λ v. greatest (map plain_of items.now) ≡ plain_of v.now) }
{
    let (first, others) = items.split_first()?;
    let mut most = first;
    for item in others {
        most = greater(most, item);
    }
    Some(most)
}

/// The smallest item.
fn least_in(items: &[Value]) -> Option<&Value>
    ensures { MatchOption result (map plain_of items.now ≡ []) (λ v. least (map plain_of items.now) ≡ plain_of v.now) }
{
    let (first, others) = items.split_first()?;
    let mut most = first;
    for item in others {
        most = smaller(most, item);
    }
    Some(most)
}

fn greater<'a>(most: &'a Value, item: &'a Value) -> &'a Value
    ensures { plain_of result.now ≡ greater_one (plain_of most.now) (plain_of item.now) }
{
    if *item > *most { item } else { most }
}

fn smaller<'a>(most: &'a Value, item: &'a Value) -> &'a Value
    ensures { plain_of result.now ≡ smaller_one (plain_of most.now) (plain_of item.now) }
{
    if *most > *item { item } else { most }
}
