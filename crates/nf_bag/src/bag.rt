//! Counts of values, and equality of bags.

ghost use Rattle.std.specs.Prelude.{◌≡◌, ◌↔◌, IsTrue};
ghost use Rattle.nf_value.specs.View.{plain_of};
ghost use Rattle.nf_bag.specs.Bag.{count, IsSameBag};

use nf_value::{Vals, Value};

/// How often a value occurs in a list (own).
pub fn count_of(list: &Vals, value: &Value) -> u64
    ensures { result ≡ count (plain_of value.now) list.now }
{
    list.items().iter().filter(|item| *item == value).count() as u64
}

/// Whether two lists hold the same values equally often (own). Takes no memory, and the square of their length in time.
pub fn same_bag(a: &Vals, b: &Vals) -> bool
    ensures { IsTrue result ↔ IsSameBag a.now b.now }
{
    if a.len() != b.len() {
        return false;
    }
    for value in a.items() {
        if count_of(a, value) != count_of(b, value) {
            return false;
        }
    }
    true
}
