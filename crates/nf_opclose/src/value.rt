//! `first` and `last` of a value channel: emit its item.

ghost use Rattle.std.specs.Prelude.{List, IsOk, MatchResult};
ghost use Rattle.nf_value.specs.View.{plain_of};
ghost use Rattle.nf_opstream.specs.Push.{Push, push_of};
ghost use Rattle.nf_opstream.specs.Operator.{AreFine};
ghost use Rattle.nf_opstream.specs.Promise.{emits_of, HasEmitted, HasEnded, PushRefused, CloseRefused};
ghost use Rattle.nf_opclose.specs.Rows.{value_row};

use nf_bag::{OpFault, OpOpts};
use nf_opstream::PassState;
use nf_value::{Mem, Value};
use std::alloc::Global;

/// The state of `first` and `last` of a value channel: emits its item, of which there is at most one (Nextflow reference, "Operators:
/// first" and "Operators: last").
#[derive(Drop)]
pub struct ValueState {
    items: PassState,
}

impl ValueState {
    /// The state before the item. It reads no option.
    ///
    /// # Errors
    ///
    /// None. It takes no memory.
    pub fn begin(alloc: Global, opts: &OpOpts) -> Result<ValueState, Mem>
        ensures { IsOk result }
    {
        let items = PassState::begin(alloc, opts)?;
        Ok(ValueState { items })
    }

    /// Takes an item, and emits it to the first output.
    ///
    /// # Errors
    ///
    /// `TooDeep` if the item is deeper than 64, `Mem` if there is no memory. After an error the state takes no further call.
    pub fn push(
        &mut self,
        port: u32,
        item: Value,
        answer: Value,
    ) -> Result<Vec<(u32, Value)>, OpFault>
        ensures { let x = push_of port (plain_of item) (plain_of answer) in (p : List Push) → AreFine value_row p → MatchResult result (λ es. HasEmitted value_row p x (emits_of es.items)) (PushRefused value_row p x) }
    {
        self.items.push(port, item, answer)
    }

    /// Ends the input. Emits nothing. The state takes no further call.
    ///
    /// # Errors
    ///
    /// None. It takes no memory.
    pub fn close(&mut self) -> Result<Vec<(u32, Value)>, OpFault>
        ensures ends { (p : List Push) → AreFine value_row p → MatchResult result (λ es. HasEnded value_row p (emits_of es.items)) (CloseRefused value_row p) }
        ensures ended { IsOk result }
    {
        self.items.close()
    }
}
