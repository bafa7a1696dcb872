//! Names in memory, with their values.

ghost use Rattle.std.specs.Prelude.{◌≡◌, ◌∷◌, ◌-◌, ◌++◌, [], ℕ, List, MatchOption, OnOk, drop, length, map, reverse};
ghost use Rattle.nf_value.specs.Plain.{Plain};
ghost use Rattle.nf_value.specs.View.{plain_of, pair_of};
ghost use Rattle.nf_placed.specs.Scope.{value_in, rebound_in};
ghost use Rattle.nf_eval.specs.Latest.{HasNone, IsLatest};

use nf_value::{Mem, Txt, Value};
use std::alloc::Global;

/// Names with their values (own). Contracts see `names_of`: the names with their values, the latest first.
pub struct Scope {
    names: Vec<(Txt, Value)>,
}

impl Drop for Scope {
    fn drop(self) {
        let Scope { names: _ } = self;
    }
}

impl Scope {
    ghost use Rattle.nf_eval.specs.Latest.{names_of};

    /// No names. Takes no memory.
    pub fn new(alloc: Global) -> Scope
        ensures { names_of result ≡ [] }
    {
        Scope {
            names: Vec::new(alloc),
        }
    }

    /// These names, of which the last is the latest. Takes no memory.
    pub fn of(names: Vec<(Txt, Value)>) -> Scope
        ensures { names_of result ≡ reverse (map pair_of names.items) }
    {
        Scope { names }
    }

    /// The number of names. Takes no memory.
    pub fn len(&self) -> usize
        ensures { result ≡ length (names_of self.now) }
    {
        self.names.len()
    }

    /// The value of a name; of several of that name, of the latest. Its contract is about any list in which more names come after these. Takes no memory,
    /// and time that grows with the number of names.
    pub fn value(&self, name: &str) -> Option<&Value>
        ensures { MatchOption result ((after : List (List ℕ × Plain)) → value_in name.now (names_of self.now ++ after) ≡ value_in name.now after) (λ v. (after : List (List ℕ × Plain)) → value_in name.now (names_of self.now ++ after) ≡ plain_of v.now) }
    {
        let place = place_of(&self.names, name)?;
        Some(&self.names[place].1)
    }

    /// Adds a name.
    ///
    /// # Errors
    ///
    /// `Mem` where there is no memory for it.
    pub fn define(&mut self, name: Txt, value: Value) -> Result<(), Mem>
        ensures { OnOk result (names_of self.new ≡ (name, plain_of value) ∷ names_of self.old) }
    {
        self.names.push((name, value))?;
        Ok(())
    }

    /// Adds names in their order.
    ///
    /// # Errors
    ///
    /// `Mem` where there is no memory for them.
    pub fn define_all(&mut self, names: Vec<(Txt, Value)>) -> Result<(), Mem>
        ensures { OnOk result (names_of self.new ≡ reverse (map pair_of names.items) ++ names_of self.old) }
    {
        for name in names {
            self.names.push(name)?;
        }
        Ok(())
    }

    /// Gives a name another value; of several of that name, the latest. Adds no name. Takes no memory.
    pub fn rebind(&mut self, name: &str, value: Value)
        ensures { names_of self.new ≡ rebound_in name.now (plain_of value) (names_of self.old) }
    {
        if let Some(place) = place_of(&self.names, name) {
            self.names[place].1 = value;
        }
    }

    /// Takes away all names but the `count` that were added first. Takes no memory.
    pub fn leave(&mut self, count: usize)
        ensures { names_of self.new ≡ drop (length (names_of self.old) - count) (names_of self.old) }
    {
        self.names.truncate(count);
    }
}

/// The place of the latest of the names that are `name`.
fn place_of(names: &[(Txt, Value)], name: &str) -> Option<usize>
    ensures { MatchOption result (HasNone name.now names.now) (IsLatest name.now names.now) }
{
    let mut end = names.len();
    while end > 0 {
        end -= 1;
        if names[end].0.as_str() == name {
            return Some(end);
        }
    }
    None
}
