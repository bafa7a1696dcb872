//! `KeptInputs`: the inputs of takes, by their numbers.

ghost use Rattle.std.specs.Prelude.{◌≡◌, [], ◌∷◌, ◌++◌, OnOk, OnErr};
ghost use Rattle.std.specs.Option.{option_copied};
ghost use Rattle.nf_flight.specs.Inputs.{inputs_at};

use nf_value::{Mem, Vals};
use std::alloc::Global;
use std::marker::Model;

/// The inputs of the takes of processes, by the numbers of the takes, also once a take came back (own). Contracts see a list: for each
/// number from 1 the inputs, or nothing for a take of an operator.
pub struct KeptInputs {
    inputs: Vec<Option<Vals>>,
}

impl Drop for KeptInputs {
    fn drop(self) {
        let KeptInputs { inputs: _ } = self;
    }
}

impl Model for KeptInputs {
    ghost use Rattle.std.specs.Prelude.{List};
    ghost use Rattle.std.specs.declared.option.Option.{Option};
    ghost use Rattle.std.specs.Coded.{coded_list, coded_option};
    ghost use Rattle.nf_value.specs.Plain.{Plain};
    ghost use Rattle.nf_value.specs.Coding.{plain_coding};

    ghost Value = { List (Option (List Plain)) };

    ghost coded = { coded_list (coded_option (coded_list plain_coding)) };

    ghost view = { λ k. k.inputs.items };
}

impl KeptInputs {
    /// Those of no take. Takes no memory.
    pub fn new(alloc: Global) -> KeptInputs
        ensures { result ≡ [] }
    {
        KeptInputs {
            inputs: Vec::new(alloc),
        }
    }

    /// Adds those of the next take, or nothing for a take of an operator.
    ///
    /// # Errors
    ///
    /// `Mem` if there is no memory for it. Nothing is changed then.
    pub fn add(&mut self, inputs: Option<Vals>) -> Result<(), Mem>
        ensures ok { OnOk result (self.new ≡ self.old ++ inputs ∷ []) }
        ensures err { OnErr result (self.new ≡ self.old) }
    {
        self.inputs.push(inputs)?;
        Ok(())
    }

    /// Those of the take of this number, if it is one of a process. Takes no memory and no walk.
    pub fn of(&self, number: u32) -> Option<&Vals>
        ensures { option_copied result ≡ inputs_at self.now number }
    {
        if number == 0 {
            return None;
        }
        match self.inputs.as_slice().get((number - 1) as usize) {
            Some(Some(inputs)) => Some(inputs),
            _ => None,
        }
    }
}
