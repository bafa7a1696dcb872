//! `transpose`: emits one tuple for each place of an item's columns.

ghost use Rattle.std.specs.Prelude.{List, IsOk, MatchResult};
ghost use Rattle.nf_value.specs.View.{plain_of};
ghost use Rattle.nf_opstream.specs.Push.{Push, push_of};
ghost use Rattle.nf_opstream.specs.Operator.{AreFine};
ghost use Rattle.nf_opstream.specs.Promise.{emits_of, HasEmitted, HasEnded, PushRefused, CloseRefused};
ghost use Rattle.nf_opstream.specs.Rows.{transpose_row};

use crate::columns::transposed;
use nf_bag::{OpFault, OpOpts};
use nf_value::{Mem, Value};
use std::alloc::Global;

/// The state of `transpose`: for each place of an item's shortest column that is a list, emits the tuple of what all columns have
/// there; a column that is no list has its value at each place. A tuple without a list is emitted as it is (Nextflow reference,
/// "Operators: transpose"; that the shortest column decides is own). Example: `[[1, 2], "a"]` gives `[1, "a"]` and `[2, "a"]`.
#[derive(Drop)]
pub struct TransposeState {
    alloc: Global,
}

impl TransposeState {
    /// The state before the first item. It reads no option.
    ///
    /// # Errors
    ///
    /// None. It takes no memory.
    pub fn begin(alloc: Global, _opts: &OpOpts) -> Result<TransposeState, Mem>
        ensures { IsOk result }
    {
        Ok(TransposeState { alloc })
    }

    /// Takes an item with the closure's answer on it. Gives what is emitted for it: values, each with the number of its output.
    ///
    /// # Errors
    ///
    /// `NotATuple` if the item is no list, `TooDeep` if a value to be emitted is deeper than 64, `Mem` if there is no memory. After
    /// an error the state takes no further call.
    pub fn push(
        &mut self,
        port: u32,
        item: Value,
        answer: Value,
    ) -> Result<Vec<(u32, Value)>, OpFault>
        ensures { let x = push_of port (plain_of item) (plain_of answer) in (p : List Push) → AreFine transpose_row p → MatchResult result (λ es. HasEmitted transpose_row p x (emits_of es.items)) (PushRefused transpose_row p x) }
    {
        match item {
            Value::List(list) => transposed(self.alloc, list),
            other => Err(OpFault::NotATuple { item: other }),
        }
    }

    /// Ends the input. Emits nothing. The state takes no further call.
    ///
    /// # Errors
    ///
    /// None. It takes no memory.
    pub fn close(&mut self) -> Result<Vec<(u32, Value)>, OpFault>
        ensures ends { (p : List Push) → AreFine transpose_row p → MatchResult result (λ es. HasEnded transpose_row p (emits_of es.items)) (CloseRefused transpose_row p) }
        ensures ended { IsOk result }
    {
        Ok(Vec::new(self.alloc))
    }
}
