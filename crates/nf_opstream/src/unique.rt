//! `unique`: emits each distinct item once.

ghost use Rattle.std.specs.Prelude.{List, [], ◌∷◌, IfOk, IsOk, MatchResult};
ghost use Rattle.nf_value.specs.View.{plain_of};
ghost use Rattle.nf_opstream.specs.Push.{Push, push_of};
ghost use Rattle.nf_opstream.specs.Promise.{emits_of, HasEmitted, HasEnded, PushRefused, CloseRefused};
ghost use Rattle.nf_opstream.specs.Rows.{unique_row};

use crate::emits::is_too_deep;
use crate::laws;
use nf_bag::{OpFault, OpOpts};
use nf_value::{Mem, Value};
use std::alloc::Global;
use std::collections::BTreeSet;

/// The state of `unique`: emits the first of equal items (Nextflow reference, "Operators: unique"). It keeps a copy of each
/// distinct item. Time: some n log n comparisons of values for n pushes.
#[derive(Drop)]
pub struct UniqueState {
    alloc: Global,
    seen: BTreeSet<Value>,
}

impl UniqueState {
    ghost use Rattle.nf_opstream.specs.Seen.{IsUniqueAfter};

    /// The state before the first item. It reads no option.
    ///
    /// # Errors
    ///
    /// None. It takes no memory.
    pub fn begin(alloc: Global, _opts: &OpOpts) -> Result<UniqueState, Mem>
        ensures after { IfOk result (λ s. IsUniqueAfter [] s) }
        ensures begun { IsOk result }
    {
        Ok(UniqueState {
            alloc,
            seen: BTreeSet::new(alloc),
        })
    }

    /// Takes an item, and emits it to the first output unless an equal one came before.
    ///
    /// # Errors
    ///
    /// `TooDeep` if the item is deeper than 64, `Mem` if there is no memory. After an error the state takes no further call.
    pub fn push(
        &mut self,
        port: u32,
        item: Value,
        answer: Value,
    ) -> Result<Vec<(u32, Value)>, OpFault>
        ensures emits { let x = push_of port (plain_of item) (plain_of answer) in (p : List Push) → IsUniqueAfter p self.old → MatchResult result (λ es. HasEmitted unique_row p x (emits_of es.items)) (PushRefused unique_row p x) }
        ensures after { let x = push_of port (plain_of item) (plain_of answer) in (p : List Push) → IsUniqueAfter p self.old → IfOk result (λ _. IsUniqueAfter (x ∷ p) self.new) }
    {
        laws::each_once();
        if is_too_deep(&item) {
            return Err(OpFault::TooDeep { item });
        }
        let copy = item.copy()?;
        if !self.seen.insert(copy)? {
            return Ok(Vec::new(self.alloc));
        }
        let mut emits = Vec::new(self.alloc);
        emits.push((0, item))?;
        Ok(emits)
    }

    /// Ends the input. Emits nothing. The state takes no further call.
    ///
    /// # Errors
    ///
    /// None. It takes no memory.
    pub fn close(&mut self) -> Result<Vec<(u32, Value)>, OpFault>
        ensures ends { (p : List Push) → IsUniqueAfter p self.old → MatchResult result (λ es. HasEnded unique_row p (emits_of es.items)) (CloseRefused unique_row p) }
        ensures ended { IsOk result }
    {
        laws::each_once();
        Ok(Vec::new(self.alloc))
    }
}
