//! Gathers the values of a list one by one, and keeps none once the list is too heavy.

ghost use Rattle.std.specs.Prelude.{[], ◌∷◌, ◌++◌, List, OnOk};
ghost use Rattle.nf_value.specs.Plain.{Plain};
ghost use Rattle.nf_value.specs.View.{plain_of};
ghost use Rattle.nf_texts.specs.Outcome.{Gives};
ghost use Rattle.nf_infix.specs.Literal.{new_list as new_list_of};

use crate::literals::new_list;
use nf_builtins::CallFault;
use nf_texts::limits::{LONGEST, MOST_WEIGHT};
use nf_value::{EvalKind, Mem, Value, weight};
use std::alloc::Global;

/// The values of a list that were gathered so far (Nextflow reference documentation, "Syntax", "List"). Once they weigh more together than a value may,
/// none is kept and only their weight is counted, so no list takes memory without bound.
#[derive(Drop)]
pub struct Gathered {
    values: Vec<Value>,
    weight: u64,
}

impl Gathered {
    ghost use Rattle.nf_infix.specs.Gathering.{IsGathered};

    /// No values. Takes no memory.
    pub fn new(alloc: Global) -> Gathered
        ensures { IsGathered [] result }
    {
        Gathered {
            values: Vec::new(alloc),
            weight: 0,
        }
    }

    /// Adds a value.
    ///
    /// # Errors
    ///
    /// `Mem` where there is no memory for it.
    pub fn push(&mut self, value: Value) -> Result<(), Mem>
        ensures { (vs : List Plain) → IsGathered vs self.old → OnOk result (IsGathered (vs ++ plain_of value ∷ []) self.new) }
    {
        self.weight = self.weight.saturating_add(weight(&value)).min(LONGEST);
        if self.weight <= MOST_WEIGHT {
            self.values.push(value)?;
        } else {
            self.values.clear();
        }
        Ok(())
    }

    /// The list of all the values that were added. Takes no memory.
    ///
    /// # Errors
    ///
    /// `TooLarge` where it would weigh more than 16,777,216, and else `TooDeep` where it would be deeper than 64 (own).
    pub fn end(self) -> Result<Value, CallFault>
        ensures { (vs : List Plain) → IsGathered vs self → Gives (new_list_of vs) result }
    {
        if self.weight > MOST_WEIGHT {
            return Err(CallFault::Kind(EvalKind::TooLarge));
        }
        new_list(self.values)
    }
}
