//! Puts pairs into maps, whose pairs stand in the order of their keys.

ghost use Rattle.std.specs.Prelude.{◌≡◌, ◌∷◌, ◌++◌, ◌+◌, ◌≤◌, ◌<◌, ℕ, List, IfOk, OnOk, MatchResult, is_some, bytes_eq, map, take, drop, length};
ghost use Rattle.std.specs.List.{list_any};
ghost use Rattle.nf_value.specs.Plain.{Plain};
ghost use Rattle.nf_value.specs.View.{plain_of, pair_of};
ghost use Rattle.nf_pairs.specs.Pairs.{put as put_of, put_all, value_at, first_of};

use nf_value::{Mem, Pairs, Txt, Value};
use std::cmp::Ordering;

/// Whether a map has a value for a key. Takes time by the map's length.
pub fn has_key(pairs: &Pairs, key: &str) -> bool
    ensures { result ≡ is_some (value_at key.now pairs.now) }
{
    has_among(pairs.items(), key)
}

fn has_among(pairs: &[(Txt, Value)], key: &str) -> bool
    ensures { result ≡ list_any (λ p. bytes_eq key.now p.0) pairs.now }
{
    pairs.iter().any(|(other, _)| key == other.as_str())
}

/// A map with this value for a key, in place of the one that it has. Takes time by the map's length.
///
/// # Errors
///
/// `Mem` if there is no memory for it.
pub fn with_pair(pairs: Pairs, key: Txt, value: Value) -> Result<Pairs, Mem>
    ensures { IfOk result (λ ps. ps ≡ put_of (key, plain_of value) pairs) }
{
    let mut items = pairs.into_items();
    put(&mut items, key, value)?;
    Ok(Pairs::of(items))
}

/// A map with the pairs of two: where both have a value for a key, the second's wins. Takes time by the product of their lengths.
///
/// # Errors
///
/// `Mem` if there is no memory for it.
pub fn merged(first: Pairs, second: Pairs) -> Result<Pairs, Mem>
    ensures pairs { IfOk result (λ ps. ps ≡ put_all second first) }
    ensures wins { IfOk result (λ ps. (key : List ℕ) → value_at key ps ≡ first_of (value_at key second) (value_at key first)) }
{
    put_each(first, second.into_items())
}

/// A map with more pairs put into it, one after another.
fn put_each(first: Pairs, more: Vec<(Txt, Value)>) -> Result<Pairs, Mem>
    ensures { IfOk result (λ ps. ps ≡ put_all (map pair_of more.items) first) }
{
    let mut pairs = first.into_items();
    for (key, value) in more {
        put(&mut pairs, key, value)?;
    }
    Ok(Pairs::of(pairs))
}

/// Puts a pair among others in the order of keys, in place of one with its key.
fn put(pairs: &mut Vec<(Txt, Value)>, key: Txt, value: Value) -> Result<(), Mem>
    ensures { OnOk result (map pair_of pairs.new.items ≡ put_of (key, plain_of value) (map pair_of pairs.old.items)) }
{
    match place_of(pairs, key.as_str()) {
        Ok(place) => pairs[place] = (key, value),
        Err(place) => pairs.insert(place, (key, value))?,
    }
    Ok(())
}

/// The place where a key stands; as an `Err` the place where it would stand.
fn place_of(pairs: &[(Txt, Value)], key: &str) -> Result<usize, usize>
    ensures within { MatchResult result (λ i. i < length pairs.now) (λ i. i ≤ length pairs.now) }
    ensures place { (v : Plain) → MatchResult result (λ i. put_of (key.now, v) (map pair_of pairs.now) ≡ take i (map pair_of pairs.now) ++ (key.now, v) ∷ drop (i + 1) (map pair_of pairs.now)) (λ i. put_of (key.now, v) (map pair_of pairs.now) ≡ take i (map pair_of pairs.now) ++ (key.now, v) ∷ drop i (map pair_of pairs.now)) }
{
    for (i, (other, _)) in pairs.iter().enumerate() {
        match key.cmp(other.as_str()) {
            Ordering::Less => return Err(i),
            Ordering::Equal => return Ok(i),
            Ordering::Greater => {}
        }
    }
    Err(pairs.len())
}
