//! `min`: emits its least item.

ghost use Rattle.std.specs.Prelude.{List, [], ◌∷◌, IfOk, IsOk, MatchResult};
ghost use Rattle.nf_value.specs.View.{plain_of};
ghost use Rattle.nf_opstream.specs.Push.{Push, push_of};
ghost use Rattle.nf_opstream.specs.Promise.{emits_of, HasEmitted, HasEnded, PushRefused, CloseRefused};
ghost use Rattle.nf_opclose.specs.Rows.{min_row};

use crate::emits::emit_some;
use crate::extremes::lesser;
use crate::laws;
use nf_bag::{OpFault, OpOpts};
use nf_opstream::PassState;
use nf_opstream::laws::promises;
use nf_value::{Mem, Value};
use std::alloc::Global;
use std::mem::replace;

/// The state of `min`: when the input ends, emits the least item in the order of values, or nothing if there was none (Nextflow
/// reference, "Operators: min"; the order of values of all kinds is own).
#[derive(Drop)]
pub struct MinState {
    alloc: Global,
    out: PassState,
    least: Option<Value>,
}

impl MinState {
    ghost use Rattle.nf_opclose.specs.Kept.{IsMinAfter};

    /// The state before the first item. It reads no option.
    ///
    /// # Errors
    ///
    /// None. It takes no memory.
    pub fn begin(alloc: Global, opts: &OpOpts) -> Result<MinState, Mem>
        ensures after { IfOk result (λ s. IsMinAfter [] s) }
        ensures begun { IsOk result }
    {
        let out = PassState::begin(alloc, opts)?;
        Ok(MinState {
            alloc,
            out,
            least: None,
        })
    }

    /// Takes an item. Emits nothing.
    ///
    /// # Errors
    ///
    /// None. It takes no memory.
    pub fn push(
        &mut self,
        port: u32,
        item: Value,
        answer: Value,
    ) -> Result<Vec<(u32, Value)>, OpFault>
        ensures emits { let x = push_of port (plain_of item) (plain_of answer) in (p : List Push) → IsMinAfter p self.old → MatchResult result (λ es. HasEmitted min_row p x (emits_of es.items)) (PushRefused min_row p x) }
        ensures after { let x = push_of port (plain_of item) (plain_of answer) in (p : List Push) → IsMinAfter p self.old → IfOk result (λ _. IsMinAfter (x ∷ p) self.new) }
        ensures pushed { IsOk result }
    {
        laws::min();
        promises();
        let least = replace(&mut self.least, None);
        self.least = Some(lesser(least, item));
        Ok(Vec::new(self.alloc))
    }

    /// Ends the input, and emits the least item. The state takes no further call.
    ///
    /// # Errors
    ///
    /// `TooDeep` if that item is deeper than 64, `Mem` if there is no memory.
    pub fn close(&mut self) -> Result<Vec<(u32, Value)>, OpFault>
        ensures { (p : List Push) → IsMinAfter p self.old → MatchResult result (λ es. HasEnded min_row p (emits_of es.items)) (CloseRefused min_row p) }
    {
        laws::min();
        promises();
        let least = replace(&mut self.least, None);
        emit_some(self.alloc, &mut self.out, least)
    }
}
