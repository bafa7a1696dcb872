//! `collect`: emits one list of its images.

ghost use Rattle.std.specs.Prelude.{◌≡◌, List, [], ◌∷◌, Bool, IfOk, IsOk, MatchResult};
ghost use Rattle.nf_value.specs.View.{plain_of};
ghost use Rattle.nf_opstream.specs.Push.{Push, push_of};
ghost use Rattle.nf_opstream.specs.Promise.{emits_of, HasEmitted, HasEnded, PushRefused, CloseRefused};
ghost use Rattle.nf_opclose.specs.Rows.{collect_row};

use crate::emits::{emit_sorted, put_parts};
use crate::laws;
use nf_bag::laws::sorting;
use nf_bag::{OpFault, OpOpts};
use nf_opstream::PassState;
use nf_opstream::laws::promises;
use nf_value::{Mem, Value};
use std::alloc::Global;
use std::mem::replace;

/// The state of `collect`: when the input ends, emits one list of the answers in the order of values, or nothing if there was no
/// item (Nextflow reference, "Operators: collect"; that it always sorts is own). With `flat` of the options, the items of an answer
/// that is a list stand in its place.
#[derive(Drop)]
pub struct CollectState {
    alloc: Global,
    out: PassState,
    flat: bool,
    none: bool,
    parts: Vec<Value>,
}

impl CollectState {
    ghost use Rattle.nf_opclose.specs.Kept.{IsCollectAfter};

    /// The state before the first item. It reads `flat` of the options.
    ///
    /// # Errors
    ///
    /// None. It takes no memory.
    pub fn begin(alloc: Global, opts: &OpOpts) -> Result<CollectState, Mem>
        ensures after { IfOk result (λ s. IsCollectAfter opts.now.flat [] s) }
        ensures begun { IsOk result }
    {
        let out = PassState::begin(alloc, opts)?;
        Ok(CollectState {
            alloc,
            out,
            flat: opts.flat,
            none: true,
            parts: Vec::new(alloc),
        })
    }

    /// Takes an item with the closure's answer on it. Emits nothing.
    ///
    /// # Errors
    ///
    /// `Mem` if there is no memory. After an error the state takes no further call.
    pub fn push(
        &mut self,
        port: u32,
        item: Value,
        answer: Value,
    ) -> Result<Vec<(u32, Value)>, OpFault>
        ensures emits { let x = push_of port (plain_of item) (plain_of answer) in (flat : Bool) → (p : List Push) → IsCollectAfter flat p self.old → MatchResult result (λ es. HasEmitted (collect_row flat) p x (emits_of es.items)) (PushRefused (collect_row flat) p x) }
        ensures after { let x = push_of port (plain_of item) (plain_of answer) in (flat : Bool) → (p : List Push) → IsCollectAfter flat p self.old → IfOk result (λ _. IsCollectAfter flat (x ∷ p) self.new) }
    {
        laws::collect();
        promises();
        self.none = false;
        put_parts(&mut self.parts, self.flat, answer)?;
        Ok(Vec::new(self.alloc))
    }

    /// Ends the input, and emits the list. Time: some n log n comparisons of values for n items. The option stays, and whether
    /// there was an item. The state takes no further call.
    ///
    /// # Errors
    ///
    /// `TooDeep` if the list is deeper than 64, `Mem` if there is no memory.
    pub fn close(&mut self) -> Result<Vec<(u32, Value)>, OpFault>
        ensures ends { (flat : Bool) → (p : List Push) → IsCollectAfter flat p self.old → MatchResult result (λ es. HasEnded (collect_row flat) p (emits_of es.items)) (CloseRefused (collect_row flat) p) }
        ensures flat { self.new.flat ≡ self.old.flat }
        ensures none { self.new.none ≡ self.old.none }
    {
        laws::collect();
        promises();
        sorting();
        if self.none {
            return Ok(Vec::new(self.alloc));
        }
        let parts = replace(&mut self.parts, Vec::new(self.alloc));
        emit_sorted(&mut self.out, parts)
    }
}
