//! `Counts`: how often a process took which inputs.

ghost use Rattle.std.specs.Prelude.{◌≡◌, ◌+◌, ◌<◌, ◌^◌, [], ◌∷◌, List, count_by, IfOk, OnOk};
ghost use Rattle.nf_value.specs.Plain.{Plain};
ghost use Rattle.nf_graph.specs.Meaning.{same_inputs};

use nf_value::{Mem, Vals, Value};
use std::alloc::Global;
use std::collections::BTreeMap;

/// How often a process took which inputs (own). It keeps each distinct list of inputs once, in an ordered map.
#[derive(Drop)]
pub(crate) struct Counts {
    counts: BTreeMap<Value, u32>,
    total: u32,
}

impl Counts {
    ghost use Rattle.nf_spot.specs.Counts.{IsCounts, total_of};

    /// The counts before the first take. Takes no memory.
    pub(crate) fn new(alloc: Global) -> Counts
        ensures { IsCounts [] result }
    {
        Counts {
            counts: BTreeMap::new(alloc),
            total: 0,
        }
    }

    /// How often anything was taken.
    pub(crate) fn total(&self) -> u32
        ensures { result ≡ total_of self.now }
    {
        self.total
    }

    /// Counts one take more, and gives how many takes of equal inputs came before it. Time: some log n comparisons for n distinct inputs.
    ///
    /// # Errors
    ///
    /// `Mem` if there is no memory for it. The counts then take no further call.
    pub(crate) fn add(&mut self, inputs: &Vals) -> Result<u32, Mem>
        requires { total_of self.old + 1 < 2 ^ 32 }
        ensures total { OnOk result (total_of self.new ≡ total_of self.old + 1) }
        ensures number { (taken : List (List Plain)) → IsCounts taken self.old
            → IfOk result (λ n. n ≡ count_by (same_inputs inputs.now) taken) }
        ensures after { (taken : List (List Plain)) → IsCounts taken self.old
            → IfOk result (λ _. IsCounts (inputs.now ∷ taken) self.new) }
    {
        let key = Value::List(inputs.copy()?);
        let before = self.counts.get(&key).copied().unwrap_or(0);
        self.counts.insert(key, before.saturating_add(1))?;
        self.total += 1;
        Ok(before)
    }
}
