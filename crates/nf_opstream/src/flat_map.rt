//! `flatMap`: emits the members of its items' images.

ghost use Rattle.std.specs.Prelude.{List, IsOk, MatchResult};
ghost use Rattle.nf_value.specs.View.{plain_of};
ghost use Rattle.nf_opstream.specs.Push.{Push, push_of};
ghost use Rattle.nf_opstream.specs.Operator.{AreFine};
ghost use Rattle.nf_opstream.specs.Promise.{emits_of, HasEmitted, HasEnded, PushRefused, CloseRefused};
ghost use Rattle.nf_opstream.specs.Rows.{flat_map_row};

use crate::emits::judge;
use crate::nested::opened;
use nf_bag::{OpFault, OpOpts};
use nf_value::{Mem, Value};
use std::alloc::Global;

/// The state of `flatMap`: emits the items of an answer that is a list, the pairs of a map as maps of `key` and `value` (own), and
/// any other answer itself (Nextflow reference, "Operators: flatMap").
#[derive(Drop)]
pub struct FlatMapState {
    alloc: Global,
}

impl FlatMapState {
    /// The state before the first item. It reads no option.
    ///
    /// # Errors
    ///
    /// None. It takes no memory.
    pub fn begin(alloc: Global, _opts: &OpOpts) -> Result<FlatMapState, Mem>
        ensures { IsOk result }
    {
        Ok(FlatMapState { alloc })
    }

    /// Takes an item with the closure's answer on it. Gives what is emitted for it: values, each with the number of its output.
    ///
    /// # Errors
    ///
    /// `TooDeep` if a value to be emitted is deeper than 64, `Mem` if there is no memory. After an error the state takes no further
    /// call.
    pub fn push(
        &mut self,
        port: u32,
        item: Value,
        answer: Value,
    ) -> Result<Vec<(u32, Value)>, OpFault>
        ensures { let x = push_of port (plain_of item) (plain_of answer) in (p : List Push) → AreFine flat_map_row p → MatchResult result (λ es. HasEmitted flat_map_row p x (emits_of es.items)) (PushRefused flat_map_row p x) }
    {
        let emits = opened(self.alloc, answer)?;
        judge(emits)
    }

    /// Ends the input. Emits nothing. The state takes no further call.
    ///
    /// # Errors
    ///
    /// None. It takes no memory.
    pub fn close(&mut self) -> Result<Vec<(u32, Value)>, OpFault>
        ensures ends { (p : List Push) → AreFine flat_map_row p → MatchResult result (λ es. HasEnded flat_map_row p (emits_of es.items)) (CloseRefused flat_map_row p) }
        ensures ended { IsOk result }
    {
        Ok(Vec::new(self.alloc))
    }
}
