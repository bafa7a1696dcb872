//! The order of values, by which `<` and `==` compare them: null, then `false` and `true`, numbers, texts, files, lists and maps. Values
//! of one kind compare by what they hold (`value_cmp` in `specs/Order.antt`).

ghost use Rattle.std.specs.Prelude.{◌≡◌, map};
ghost use Rattle.std.specs.Ordering.{on, as_partial_cmp, eq_by_cmp, nat_cmp, ordering_then};
ghost use Rattle.std.specs.Cmp.{eq_by_cmp_equiv, partial_equiv_from_equiv, partial_order_from_agreeing_total};
ghost use Rattle.std.specs.Cmp.Lexicographic.{slice_cmp};
ghost use Rattle.std.proofs.lemmas.Cmp.{on_total};
ghost use Rattle.std.proofs.Common.{refl};
ghost use Rattle.nf_value.specs.Plain.{plains_of, plain_pairs_of};
ghost use Rattle.nf_value.specs.PairOrder.{pair_cmp};
ghost use Rattle.nf_value.specs.View.{plain_of, pair_of};
ghost use Rattle.nf_value.specs.Order.{value_cmp, items_cmp, pairs_cmp, value_cmp_total, rank};

use crate::file::FileRef;
use crate::list::Vals;
use crate::map::Pairs;
use crate::text::Txt;
use crate::value::Value;
use std::cmp::Ordering;

impl PartialEq for Value {
    ghost eq = { eq_by_cmp (on plain_of value_cmp) };

    ghost laws = { partial_equiv_from_equiv (eq_by_cmp_equiv (on_total plain_of value_cmp_total)) };

    fn eq(&self, other: &Value) -> bool {
        match compare(self, other) {
            Ordering::Equal => true,
            _ => false,
        }
    }
}

impl Eq for Value {
    ghost laws = { eq_by_cmp_equiv (on_total plain_of value_cmp_total) };
}

impl PartialOrd for Value {
    ghost partial_cmp = { as_partial_cmp (on plain_of value_cmp) };

    ghost laws = { partial_order_from_agreeing_total (on plain_of value_cmp) (on_total plain_of value_cmp_total) (λ x y. refl) (λ x y. refl) };

    fn partial_cmp(&self, other: &Value) -> Option<Ordering> {
        Some(compare(self, other))
    }
}

impl Ord for Value {
    ghost cmp = { on plain_of value_cmp };

    ghost total = { on_total plain_of value_cmp_total };

    ghost matches_partial_cmp = { λ x y. refl };

    ghost matches_eq = { λ x y. refl };

    fn cmp(&self, other: &Value) -> Ordering {
        compare(self, other)
    }
}

/// The number of the value's kind, in the order of kinds.
fn kind(value: &Value) -> u8
    ensures { result ≡ rank (plain_of value.now) }
{
    match value {
        Value::Null => 0,
        Value::Truth(_) => 1,
        Value::Int(_) => 2,
        Value::Text(_) => 3,
        Value::File(_) => 4,
        Value::List(_) => 5,
        Value::Map(_) => 6,
    }
}

fn compare_bytes(a: &str, b: &str) -> Ordering
    ensures { result ≡ slice_cmp nat_cmp a.now b.now }
{
    a.cmp(b)
}

/// By name, then by digest, then by length.
fn compare_files(a: &FileRef, b: &FileRef) -> Ordering
    ensures { result ≡ ordering_then (slice_cmp nat_cmp a.now.name b.now.name) (ordering_then (slice_cmp nat_cmp a.now.digest.0 b.now.digest.0) (nat_cmp a.now.len b.now.len)) }
{
    compare_bytes(a.name.as_str(), b.name.as_str())
        .then(a.digest.0.as_slice().cmp(b.digest.0.as_slice()))
        .then(a.len.cmp(&b.len))
}

#[cycle(order)]
fn compare(a: &Value, b: &Value) -> Ordering
    ensures { result ≡ value_cmp (plain_of a.now) (plain_of b.now) }
{
    match (a, b) {
        (Value::Truth(x), Value::Truth(y)) => x.cmp(y),
        (Value::Int(x), Value::Int(y)) => x.cmp(y),
        (Value::Text(x), Value::Text(y)) => compare_bytes(x.as_str(), y.as_str()),
        (Value::File(x), Value::File(y)) => compare_files(x.file(), y.file()),
        (Value::List(x), Value::List(y)) => compare_all(x, y),
        (Value::Map(x), Value::Map(y)) => compare_pairs(x, y),
        _ => kind(a).cmp(&kind(b)),
    }
}

/// Item by item; of two lists where one begins the other, the shorter is less.
#[cycle(order)]
fn compare_all(a: &Vals, b: &Vals) -> Ordering
    ensures { result ≡ items_cmp (plains_of a.now) (plains_of b.now) }
{
    let count = a.items.len().min(b.items.len());
    for i in 0..count {
        match compare(&a.items[i], &b.items[i]) {
            Ordering::Equal => {}
            other => return other,
        }
    }
    a.items.len().cmp(&b.items.len())
}

/// By key, then by value.
#[cycle(order)]
fn compare_pair(a: &(Txt, Value), b: &(Txt, Value)) -> Ordering
    ensures { result ≡ pair_cmp a.now b.now }
{
    compare_bytes(a.0.as_str(), b.0.as_str()).then(compare(&a.1, &b.1))
}

/// Pair by pair; of two maps where one begins the other, the shorter is less.
#[cycle(order)]
fn compare_pairs(a: &Pairs, b: &Pairs) -> Ordering
    ensures { result ≡ pairs_cmp (plain_pairs_of a.now) (plain_pairs_of b.now) }
{
    let count = a.items.len().min(b.items.len());
    for i in 0..count {
        match compare_pair(&a.items[i], &b.items[i]) {
            Ordering::Equal => {}
            other => return other,
        }
    }
    a.items.len().cmp(&b.items.len())
}
