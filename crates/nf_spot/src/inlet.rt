//! `Inlet`: a port of a node in a run.

ghost use Rattle.std.specs.Prelude.{◌≡◌, ◌+◌, ◌<◌, ◌^◌, [], ◌∷◌, ◌++◌, length, remove, slice_index_or, OnOk};
ghost use Rattle.nf_value.specs.Plain.{null};
ghost use Rattle.nf_value.specs.View.{plain_of};

use nf_value::{Mem, Value};
use std::alloc::Global;
use std::collections::VecDeque;
use std::marker::Model;

/// A port of a node in a run (own): how many items of its producer passed to it, and those that wait there. Contracts see the two as a
/// pair.
#[derive(Drop)]
pub(crate) struct Inlet {
    passed: usize,
    waiting: VecDeque<Value>,
}

impl Model for Inlet {
    ghost use Rattle.std.specs.Prelude.{ℕ, List, map};
    ghost use Rattle.std.specs.Coded.{coded×, coded_ℕ, coded_list};
    ghost use Rattle.nf_value.specs.Plain.{Plain};
    ghost use Rattle.nf_value.specs.Coding.{plain_coding};
    ghost use Rattle.nf_value.specs.View.{plain_of};

    ghost Value = { ℕ × List Plain };

    ghost coded = { coded× coded_ℕ (coded_list plain_coding) };

    ghost view = { λ p. (p.passed, map plain_of p.waiting.items) };
}

impl Inlet {
    /// The port before the first item. Takes no memory.
    pub(crate) fn new(alloc: Global) -> Inlet
        ensures { result ≡ (0, []) }
    {
        Inlet {
            passed: 0,
            waiting: VecDeque::new(alloc),
        }
    }

    /// How many items passed.
    pub(crate) fn passed(&self) -> usize
        ensures { result ≡ self.now.0 }
    {
        self.passed
    }

    /// How many items wait.
    pub(crate) fn waits(&self) -> usize
        ensures { result ≡ length self.now.1 }
    {
        self.waiting.len()
    }

    /// The item that waits longest.
    pub(crate) fn first(&self) -> &Value
        requires { 0 < length self.now.1 }
        ensures { plain_of result.now ≡ slice_index_or self.now.1 0 null }
    {
        &self.waiting[0]
    }

    /// One item more passes, and waits behind the others.
    ///
    /// # Errors
    ///
    /// `Mem` if there is no memory for it.
    pub(crate) fn receive(&mut self, item: Value) -> Result<(), Mem>
        requires { self.old.0 + 1 < 2 ^ 64 }
        ensures { OnOk result (self.new ≡ (self.old.0 + 1, self.old.1 ++ plain_of item ∷ [])) }
    {
        self.waiting.push_back(item)?;
        self.passed += 1;
        Ok(())
    }

    /// The item at a place among those that wait leaves the port. At place 0 it takes no walk.
    pub(crate) fn remove(&mut self, place: usize) -> Value
        requires { place < length self.old.1 }
        ensures item { plain_of result ≡ slice_index_or self.old.1 place null }
        ensures left { self.new ≡ (self.old.0, remove self.old.1 place) }
    {
        self.waiting.remove(place).unwrap()
    }
}
