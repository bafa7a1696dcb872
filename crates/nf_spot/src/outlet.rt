//! `Outlet`: an output of a node in a run.

ghost use Rattle.std.specs.Prelude.{◌≡◌, ◌<◌, [], ◌∷◌, ◌++◌, map, length, slice_index_or, OnOk};
ghost use Rattle.nf_value.specs.Plain.{null};
ghost use Rattle.nf_value.specs.View.{plain_of};

use nf_value::{Mem, Value};
use std::marker::Model;

/// An output of a node in a run (own). Contracts see the list of what was emitted to it.
#[derive(Drop)]
pub(crate) struct Outlet {
    items: Vec<Value>,
}

impl Model for Outlet {
    ghost use Rattle.std.specs.Prelude.{List, map};
    ghost use Rattle.std.specs.Coded.{coded_list};
    ghost use Rattle.nf_value.specs.Plain.{Plain};
    ghost use Rattle.nf_value.specs.Coding.{plain_coding};
    ghost use Rattle.nf_value.specs.View.{plain_of};

    ghost Value = { List Plain };

    ghost coded = { coded_list plain_coding };

    ghost view = { λ o. map plain_of o.items.items };
}

impl Outlet {
    /// The output to which these items were emitted. Takes no memory.
    pub(crate) fn of(items: Vec<Value>) -> Outlet
        ensures { result ≡ map plain_of items.items }
    {
        Outlet { items }
    }

    /// How many items were emitted.
    pub(crate) fn len(&self) -> usize
        ensures { result ≡ length self.now }
    {
        self.items.len()
    }

    /// The item that was emitted at a place, from 0.
    pub(crate) fn item(&self, place: usize) -> &Value
        requires { place < length self.now }
        ensures { plain_of result.now ≡ slice_index_or self.now place null }
    {
        &self.items[place]
    }

    /// One item more is emitted.
    ///
    /// # Errors
    ///
    /// `Mem` if there is no memory for it.
    pub(crate) fn push(&mut self, item: Value) -> Result<(), Mem>
        ensures { OnOk result (self.new ≡ self.old ++ plain_of item ∷ []) }
    {
        self.items.push(item)?;
        Ok(())
    }
}
