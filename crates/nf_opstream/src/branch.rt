//! `branch`: sends each item to the output of its first true label.

ghost use Rattle.std.specs.Prelude.{◌≡◌, ◌∷◌, [], ℕ, List, IfOk, IsOk, MatchResult, MatchOption};
ghost use Rattle.nf_value.specs.Plain.{Plain};
ghost use Rattle.nf_value.specs.View.{plain_of};
ghost use Rattle.nf_opstream.specs.Push.{Push, push_of};
ghost use Rattle.nf_opstream.specs.Promise.{emits_of, HasEmitted, HasEnded, PushRefused, CloseRefused};
ghost use Rattle.nf_opstream.specs.Rows.{branch_row, branched};

use crate::emits::one;
use nf_bag::{OpFault, OpOpts};
use nf_value::{Mem, Value};
use std::alloc::Global;

/// The state of `branch`: each item goes to the output whose number is its answer, and is dropped if no output has it (Nextflow
/// reference, "Operators: branch").
#[derive(Drop)]
pub struct BranchState {
    alloc: Global,
    outs: u32,
}

impl BranchState {
    ghost use Rattle.nf_opstream.specs.Kept.{IsBranchAfter};

    /// The state before the first item. `outs` of the options is the count of outputs.
    ///
    /// # Errors
    ///
    /// None. It takes no memory.
    pub fn begin(alloc: Global, opts: &OpOpts) -> Result<BranchState, Mem>
        ensures after { IfOk result (λ s. IsBranchAfter opts.now.outs [] s) }
        ensures begun { IsOk result }
    {
        Ok(BranchState {
            alloc,
            outs: opts.outs,
        })
    }

    /// Takes an item with the closure's answer on it. Gives what is emitted for it: values, each with the number of its output.
    ///
    /// # Errors
    ///
    /// `TooDeep` if a value to be emitted is deeper than 64, `Mem` if there is no memory. After an error the state takes no further
    /// call.
    pub fn push(
        &mut self,
        port: u32,
        item: Value,
        answer: Value,
    ) -> Result<Vec<(u32, Value)>, OpFault>
        ensures emits { let x = push_of port (plain_of item) (plain_of answer) in (outs : ℕ) → (p : List Push) → IsBranchAfter outs p self.old → MatchResult result (λ es. HasEmitted (branch_row outs) p x (emits_of es.items)) (PushRefused (branch_row outs) p x) }
        ensures after { let x = push_of port (plain_of item) (plain_of answer) in (outs : ℕ) → (p : List Push) → IsBranchAfter outs p self.old → IfOk result (λ _. IsBranchAfter outs (x ∷ p) self.new) }
    {
        match output_of(&answer, self.outs) {
            Some(out) => one(self.alloc, out, item),
            None => Ok(Vec::new(self.alloc)),
        }
    }

    /// Ends the input. Emits nothing. The state takes no further call.
    ///
    /// # Errors
    ///
    /// None. It takes no memory.
    pub fn close(&mut self) -> Result<Vec<(u32, Value)>, OpFault>
        ensures ends { (outs : ℕ) → (p : List Push) → IsBranchAfter outs p self.old → MatchResult result (λ es. HasEnded (branch_row outs) p (emits_of es.items)) (CloseRefused (branch_row outs) p) }
        ensures ended { IsOk result }
    {
        Ok(Vec::new(self.alloc))
    }
}

/// The output that an answer names, if there is one.
fn output_of(answer: &Value, outs: u32) -> Option<u32>
    ensures { (v : Plain) → MatchOption result (branched outs (plain_of answer.now) v ≡ []) (λ out. branched outs (plain_of answer.now) v ≡ (out, v) ∷ []) }
{
    match answer {
        Value::Int(number) if 0 <= *number && *number < outs as i64 => Some(*number as u32),
        _ => None,
    }
}
