//! Maps from texts to values.

ghost use Rattle.std.specs.Prelude.{◌≡◌, IfOk, map, true, length};
ghost use Rattle.std.specs.Ordering.{nat_cmp, is_lt};
ghost use Rattle.std.specs.Cmp.Lexicographic.{slice_cmp};
ghost use Rattle.nf_value.specs.View.{pair_of, rising};

use crate::mem::Mem;
use crate::text::Txt;
use crate::value::Value;
use std::marker::Model;

/// A map from texts to values. Each key stands once, and the keys are in rising order of their bytes (own). Contracts see the list of
/// its pairs, each by `pair_of`.
#[cycle(value)]
pub struct Pairs {
    pub(crate) items: Vec<(Txt, Value)>,
}

impl Drop for Pairs {
    #[cycle(discard)]
    fn drop(self) {
        let Pairs { items: _ } = self;
    }
}

impl Model for Pairs {
    ghost use Rattle.std.specs.Prelude.{List, ℕ, map, ◌≡◌, true};
    ghost use Rattle.nf_value.specs.Plain.{Plain};
    ghost use Rattle.nf_value.specs.Coding.{plain_coding};
    ghost use Rattle.std.specs.Coded.{coded_list, coded×, coded_ℕ};

    ghost Value = { List (List ℕ × Plain) };

    ghost coded = { coded_list (coded× (coded_list coded_ℕ) plain_coding) };

    ghost use Rattle.nf_value.specs.View.{pair_of, size_of_pairs, rising};

    ghost view = { λ a. map pair_of a.items.items };

    ghost invariant = { λ a. rising (map pair_of a.items.items) ≡ true };

    ghost size = { size_of_pairs };

    ghost use Rattle.nf_value.specs.Falls.{pairs_fall};

    ghost size_decreases = { λ a h. pairs_fall a };
}

impl Pairs {
    /// The map of a vector of pairs whose keys rise. Takes no memory.
    pub fn of(items: Vec<(Txt, Value)>) -> Pairs
        requires { rising (map pair_of items.items) ≡ true }
        ensures { result ≡ map pair_of items.items }
    {
        Pairs { items }
    }

    /// The number of pairs.
    pub fn len(&self) -> usize
        ensures { result ≡ length self.now }
    {
        self.items.len()
    }

    /// The pairs in the order of their keys. Takes no memory.
    pub fn items(&self) -> &[(Txt, Value)]
        ensures items { map pair_of result.now ≡ self.now }
        ensures rising { rising self.now ≡ true }
    {
        self.items.as_slice()
    }

    /// The vector of the pairs. Takes no memory.
    pub fn into_items(self) -> Vec<(Txt, Value)>
        ensures items { map pair_of result.items ≡ self }
        ensures rising { rising self ≡ true }
    {
        let Pairs { items } = self;
        items
    }

    /// Another map of the same pairs.
    ///
    /// # Errors
    ///
    /// `Mem` where there is no memory for it.
    #[cycle(copy)]
    pub fn copy(&self) -> Result<Pairs, Mem>
        ensures { IfOk result (λ v. v ≡ self.now) }
    {
        let mut copies = Vec::with_capacity(*self.items.allocator(), self.items.len())?;
        for (key, item) in &self.items {
            let key = key.copy()?;
            copies.push((key, item.copy()?))?;
        }
        Ok(Pairs { items: copies })
    }
}

/// Whether each key is below the next, compared by bytes. `Pairs::of` requires it.
pub fn is_rising(items: &[(Txt, Value)]) -> bool
    ensures { result ≡ rising (map pair_of items.now) }
{
    for i in 1..items.len() {
        if !is_below(&items[i - 1].0, &items[i].0) {
            return false;
        }
    }
    true
}

fn is_below(a: &Txt, b: &Txt) -> bool
    ensures { result ≡ is_lt (slice_cmp nat_cmp a.now b.now) }
{
    a.as_str() < b.as_str()
}
