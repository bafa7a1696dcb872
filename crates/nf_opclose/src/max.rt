//! `max`: emits its greatest item.

ghost use Rattle.std.specs.Prelude.{List, [], ◌∷◌, IfOk, IsOk, MatchResult};
ghost use Rattle.nf_value.specs.View.{plain_of};
ghost use Rattle.nf_opstream.specs.Push.{Push, push_of};
ghost use Rattle.nf_opstream.specs.Promise.{emits_of, HasEmitted, HasEnded, PushRefused, CloseRefused};
ghost use Rattle.nf_opclose.specs.Rows.{max_row};

use crate::emits::emit_some;
use crate::extremes::greater;
use crate::laws;
use nf_bag::laws::sorting;
use nf_bag::{OpFault, OpOpts};
use nf_opstream::PassState;
use nf_opstream::laws::promises;
use nf_value::{Mem, Value};
use std::alloc::Global;
use std::mem::replace;

/// The state of `max`: when the input ends, emits the greatest item in the order of values, or nothing if there was none (Nextflow
/// reference, "Operators: max"; the order of values of all kinds is own).
#[derive(Drop)]
pub struct MaxState {
    alloc: Global,
    out: PassState,
    greatest: Option<Value>,
}

impl MaxState {
    ghost use Rattle.nf_opclose.specs.Kept.{IsMaxAfter};

    /// The state before the first item. It reads no option.
    ///
    /// # Errors
    ///
    /// None. It takes no memory.
    pub fn begin(alloc: Global, opts: &OpOpts) -> Result<MaxState, Mem>
        ensures after { IfOk result (λ s. IsMaxAfter [] s) }
        ensures begun { IsOk result }
    {
        let out = PassState::begin(alloc, opts)?;
        Ok(MaxState {
            alloc,
            out,
            greatest: None,
        })
    }

    /// Takes an item. Emits nothing.
    ///
    /// # Errors
    ///
    /// None. It takes no memory.
    pub fn push(
        &mut self,
        port: u32,
        item: Value,
        answer: Value,
    ) -> Result<Vec<(u32, Value)>, OpFault>
        ensures emits { let x = push_of port (plain_of item) (plain_of answer) in (p : List Push) → IsMaxAfter p self.old → MatchResult result (λ es. HasEmitted max_row p x (emits_of es.items)) (PushRefused max_row p x) }
        ensures after { let x = push_of port (plain_of item) (plain_of answer) in (p : List Push) → IsMaxAfter p self.old → IfOk result (λ _. IsMaxAfter (x ∷ p) self.new) }
        ensures pushed { IsOk result }
    {
        laws::max();
        promises();
        sorting();
        let greatest = replace(&mut self.greatest, None);
        self.greatest = Some(greater(greatest, item));
        Ok(Vec::new(self.alloc))
    }

    /// Ends the input, and emits the greatest item. The state takes no further call.
    ///
    /// # Errors
    ///
    /// `TooDeep` if that item is deeper than 64, `Mem` if there is no memory.
    pub fn close(&mut self) -> Result<Vec<(u32, Value)>, OpFault>
        ensures { (p : List Push) → IsMaxAfter p self.old → MatchResult result (λ es. HasEnded max_row p (emits_of es.items)) (CloseRefused max_row p) }
    {
        laws::max();
        promises();
        let greatest = replace(&mut self.greatest, None);
        emit_some(self.alloc, &mut self.out, greatest)
    }
}
