//! Puts pairs into maps, whose pairs stand in the order of their keys.

ghost use Rattle.std.specs.Prelude.{◌≡◌, ◌∷◌, ◌++◌, ◌+◌, ◌≤◌, ◌<◌, IfOk, OnOk, MatchResult, map, take, drop, length};
ghost use Rattle.nf_value.specs.Plain.{Plain};
ghost use Rattle.nf_value.specs.View.{plain_of, pair_of};
ghost use Rattle.nf_infix.specs.Pairs.{put as put_of, put_all};

use nf_value::{Mem, Pairs, Txt, Value};
use std::cmp::Ordering;

/// A map with the pairs of another, which win. Takes time by the product of their lengths.
pub(crate) fn merged(first: Pairs, second: Pairs) -> Result<Pairs, Mem>
    ensures { IfOk result (λ ps. ps ≡ put_all second first) }
{
    put_each(first, second.into_items())
}

/// A map with more pairs put into it, one after another.
pub(crate) fn put_each(first: Pairs, more: Vec<(Txt, Value)>) -> Result<Pairs, Mem>
    ensures { IfOk result (λ ps. ps ≡ put_all (map pair_of more.items) first) }
{
    let mut pairs = first.into_items();
    for (key, value) in more {
        put(&mut pairs, key, value)?;
    }
    Ok(Pairs::of(pairs))
}

/// Puts a pair among others in the order of keys, in place of one with its key.
fn put(pairs: &mut Vec<(Txt, Value)>, key: Txt, value: Value) -> Result<(), Mem>
    ensures { OnOk result (map pair_of pairs.new.items ≡ put_of (key, plain_of value) (map pair_of pairs.old.items)) }
{
    match place_of(pairs, key.as_str()) {
        Ok(place) => pairs[place] = (key, value),
        Err(place) => pairs.insert(place, (key, value))?,
    }
    Ok(())
}

/// The place where a key stands; as an `Err` the place where it would stand.
fn place_of(pairs: &[(Txt, Value)], key: &str) -> Result<usize, usize>
    ensures within { MatchResult result (λ i. i < length pairs.now) (λ i. i ≤ length pairs.now) }
    ensures place { (v : Plain) → MatchResult result (λ i. put_of (key.now, v) (map pair_of pairs.now) ≡ take i (map pair_of pairs.now) ++ (key.now, v) ∷ drop (i + 1) (map pair_of pairs.now)) (λ i. put_of (key.now, v) (map pair_of pairs.now) ≡ take i (map pair_of pairs.now) ++ (key.now, v) ∷ drop i (map pair_of pairs.now)) }
{
    for (i, (other, _)) in pairs.iter().enumerate() {
        match key.cmp(other.as_str()) {
            Ordering::Less => return Err(i),
            Ordering::Equal => return Ok(i),
            Ordering::Greater => {}
        }
    }
    Err(pairs.len())
}
