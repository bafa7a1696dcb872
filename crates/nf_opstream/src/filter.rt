//! `filter`: emits the items that pass its test.

ghost use Rattle.std.specs.Prelude.{List, IsOk, MatchResult};
ghost use Rattle.nf_value.specs.View.{plain_of};
ghost use Rattle.nf_opstream.specs.Push.{Push, push_of};
ghost use Rattle.nf_opstream.specs.Operator.{AreFine};
ghost use Rattle.nf_opstream.specs.Promise.{emits_of, HasEmitted, HasEnded, PushRefused, CloseRefused};
ghost use Rattle.nf_opstream.specs.Rows.{filter_row};

use crate::emits::one;
use nf_bag::{OpFault, OpOpts};
use nf_value::{Mem, Value, truth};
use std::alloc::Global;

/// The state of `filter`: emits the items whose answer is true (Nextflow reference, "Operators: filter").
#[derive(Drop)]
pub struct FilterState {
    alloc: Global,
}

impl FilterState {
    /// The state before the first item. It reads no option.
    ///
    /// # Errors
    ///
    /// None. It takes no memory.
    pub fn begin(alloc: Global, _opts: &OpOpts) -> Result<FilterState, Mem>
        ensures { IsOk result }
    {
        Ok(FilterState { alloc })
    }

    /// Takes an item with the closure's answer on it. Gives what is emitted for it: values, each with the number of its output.
    ///
    /// # Errors
    ///
    /// `TooDeep` if a value to be emitted is deeper than 64, `Mem` if there is no memory. After an error the state takes no further
    /// call.
    pub fn push(
        &mut self,
        port: u32,
        item: Value,
        answer: Value,
    ) -> Result<Vec<(u32, Value)>, OpFault>
        ensures { let x = push_of port (plain_of item) (plain_of answer) in (p : List Push) → AreFine filter_row p → MatchResult result (λ es. HasEmitted filter_row p x (emits_of es.items)) (PushRefused filter_row p x) }
    {
        if !truth(&answer) {
            return Ok(Vec::new(self.alloc));
        }
        one(self.alloc, 0, item)
    }

    /// Ends the input. Emits nothing. The state takes no further call.
    ///
    /// # Errors
    ///
    /// None. It takes no memory.
    pub fn close(&mut self) -> Result<Vec<(u32, Value)>, OpFault>
        ensures ends { (p : List Push) → AreFine filter_row p → MatchResult result (λ es. HasEnded filter_row p (emits_of es.items)) (CloseRefused filter_row p) }
        ensures ended { IsOk result }
    {
        Ok(Vec::new(self.alloc))
    }
}
