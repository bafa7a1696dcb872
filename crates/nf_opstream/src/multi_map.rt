//! `multiMap`: emits one image of each item to each output.

ghost use Rattle.std.specs.Prelude.{◌≡◌, ◌∷◌, [], ℕ, List, IfOk, IsOk, MatchResult, take};
ghost use Rattle.std.specs.List.{enumerate_from};
ghost use Rattle.nf_value.specs.View.{plain_of};
ghost use Rattle.nf_opstream.specs.Push.{Push, push_of};
ghost use Rattle.nf_opstream.specs.Promise.{emits_of, HasEmitted, HasEnded, PushRefused, CloseRefused};
ghost use Rattle.nf_opstream.specs.Rows.{multi_map_row};

use crate::emits::judge;
use nf_bag::{OpFault, OpOpts};
use nf_value::{Mem, Vals, Value};
use std::alloc::Global;

/// The state of `multiMap`: each item of an answer goes to the output of its place. Items past the last output are dropped, and
/// outputs past the last item get nothing (Nextflow reference, "Operators: multiMap").
#[derive(Drop)]
pub struct MultiMapState {
    alloc: Global,
    outs: u32,
}

impl MultiMapState {
    ghost use Rattle.nf_opstream.specs.Kept.{IsMultiMapAfter};

    /// The state before the first item. `outs` of the options is the count of outputs.
    ///
    /// # Errors
    ///
    /// None. It takes no memory.
    pub fn begin(alloc: Global, opts: &OpOpts) -> Result<MultiMapState, Mem>
        ensures after { IfOk result (λ s. IsMultiMapAfter opts.now.outs [] s) }
        ensures begun { IsOk result }
    {
        Ok(MultiMapState {
            alloc,
            outs: opts.outs,
        })
    }

    /// Takes an item with the closure's answer on it. Gives what is emitted for it: values, each with the number of its output.
    ///
    /// # Errors
    ///
    /// `TooDeep` if a value to be emitted is deeper than 64, `Mem` if there is no memory. After an error the state takes no further
    /// call.
    pub fn push(
        &mut self,
        port: u32,
        item: Value,
        answer: Value,
    ) -> Result<Vec<(u32, Value)>, OpFault>
        ensures emits { let x = push_of port (plain_of item) (plain_of answer) in (outs : ℕ) → (p : List Push) → IsMultiMapAfter outs p self.old → MatchResult result (λ es. HasEmitted (multi_map_row outs) p x (emits_of es.items)) (PushRefused (multi_map_row outs) p x) }
        ensures after { let x = push_of port (plain_of item) (plain_of answer) in (outs : ℕ) → (p : List Push) → IsMultiMapAfter outs p self.old → IfOk result (λ _. IsMultiMapAfter outs (x ∷ p) self.new) }
    {
        let Value::List(list) = answer else {
            return Ok(Vec::new(self.alloc));
        };
        let emits = by_place(self.alloc, self.outs, list)?;
        judge(emits)
    }

    /// Ends the input. Emits nothing. The state takes no further call.
    ///
    /// # Errors
    ///
    /// None. It takes no memory.
    pub fn close(&mut self) -> Result<Vec<(u32, Value)>, OpFault>
        ensures ends { (outs : ℕ) → (p : List Push) → IsMultiMapAfter outs p self.old → MatchResult result (λ es. HasEnded (multi_map_row outs) p (emits_of es.items)) (CloseRefused (multi_map_row outs) p) }
        ensures ended { IsOk result }
    {
        Ok(Vec::new(self.alloc))
    }
}

/// The items of a list, each with its place, up to the last output.
fn by_place(alloc: Global, outs: u32, list: Vals) -> Result<Vec<(u32, Value)>, Mem>
    ensures { IfOk result (λ es. emits_of es.items ≡ enumerate_from 0 (take outs list)) }
{
    let mut emits = Vec::new(alloc);
    let mut out: u32 = 0;
    for value in list.into_items() {
        if out == outs {
            return Ok(emits);
        }
        emits.push((out, value))?;
        out += 1;
    }
    Ok(emits)
}
