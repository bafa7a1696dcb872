//! `toList` and `toSortedList`: emit the list of all items.

ghost use Rattle.std.specs.Prelude.{List, [], ◌∷◌, IfOk, IsOk, MatchResult};
ghost use Rattle.nf_value.specs.View.{plain_of};
ghost use Rattle.nf_opstream.specs.Push.{Push, push_of};
ghost use Rattle.nf_opstream.specs.Promise.{emits_of, HasEmitted, HasEnded, PushRefused, CloseRefused};
ghost use Rattle.nf_opclose.specs.Rows.{to_list_row};

use crate::emits::emit_sorted;
use crate::laws;
use nf_bag::laws::sorting;
use nf_bag::{OpFault, OpOpts};
use nf_opstream::PassState;
use nf_opstream::laws::promises;
use nf_value::{Mem, Value};
use std::alloc::Global;
use std::mem::replace;

/// The state of `toList` and `toSortedList`: when the input ends, emits one list of all items in the order of values, which may be
/// empty (Nextflow reference, "Operators: toList" and "Operators: toSortedList"; that `toList` sorts is own).
#[derive(Drop)]
pub struct ToListState {
    alloc: Global,
    out: PassState,
    items: Vec<Value>,
}

impl ToListState {
    ghost use Rattle.nf_opclose.specs.Kept.{IsToListAfter};

    /// The state before the first item. It reads no option.
    ///
    /// # Errors
    ///
    /// None. It takes no memory.
    pub fn begin(alloc: Global, opts: &OpOpts) -> Result<ToListState, Mem>
        ensures after { IfOk result (λ s. IsToListAfter [] s) }
        ensures begun { IsOk result }
    {
        let out = PassState::begin(alloc, opts)?;
        Ok(ToListState {
            alloc,
            out,
            items: Vec::new(alloc),
        })
    }

    /// Takes an item. Emits nothing.
    ///
    /// # Errors
    ///
    /// `Mem` if there is no memory. After an error the state takes no further call.
    pub fn push(
        &mut self,
        port: u32,
        item: Value,
        answer: Value,
    ) -> Result<Vec<(u32, Value)>, OpFault>
        ensures emits { let x = push_of port (plain_of item) (plain_of answer) in (p : List Push) → IsToListAfter p self.old → MatchResult result (λ es. HasEmitted to_list_row p x (emits_of es.items)) (PushRefused to_list_row p x) }
        ensures after { let x = push_of port (plain_of item) (plain_of answer) in (p : List Push) → IsToListAfter p self.old → IfOk result (λ _. IsToListAfter (x ∷ p) self.new) }
    {
        laws::to_list();
        promises();
        self.items.push(item)?;
        Ok(Vec::new(self.alloc))
    }

    /// Ends the input, and emits the list. Time: some n log n comparisons of values for n items. The state takes no further call.
    ///
    /// # Errors
    ///
    /// `TooDeep` if the list is deeper than 64, `Mem` if there is no memory.
    pub fn close(&mut self) -> Result<Vec<(u32, Value)>, OpFault>
        ensures { (p : List Push) → IsToListAfter p self.old → MatchResult result (λ es. HasEnded to_list_row p (emits_of es.items)) (CloseRefused to_list_row p) }
    {
        laws::to_list();
        promises();
        sorting();
        let items = replace(&mut self.items, Vec::new(self.alloc));
        emit_sorted(&mut self.out, items)
    }
}
