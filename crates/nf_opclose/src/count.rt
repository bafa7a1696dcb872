//! `count`: emits how many items there were.

ghost use Rattle.std.specs.Prelude.{◌≡◌, List, [], ◌∷◌, ◌≤◌, ◌^◌, IfOk, IsOk, MatchResult, IsTrue, ◌↔◌};
ghost use Rattle.nf_value.specs.View.{plain_of};
ghost use Rattle.nf_opstream.specs.Push.{Push, push_of};
ghost use Rattle.nf_opstream.specs.Promise.{emits_of, HasEmitted, HasEnded, PushRefused, CloseRefused};
ghost use Rattle.nf_opclose.specs.Rows.{count_row};

use crate::emits::emit;
use crate::laws;
use crate::numbers::MOST_ITEMS;
use nf_bag::{OpFault, OpOpts};
use nf_opstream::PassState;
use nf_opstream::laws::promises;
use nf_value::{Mem, Value};
use std::alloc::Global;

/// The state of `count`: when the input ends, emits the number of items (Nextflow reference, "Operators: count").
#[derive(Drop)]
pub struct CountState {
    alloc: Global,
    out: PassState,
    count: u64,
    ghost few: { count ≤ 2 ^ 32 },
}

impl CountState {
    ghost use Rattle.nf_opclose.specs.Kept.{IsCountAfter};
    ghost use Rattle.nf_opclose.specs.Room.{HasCountRoom};

    /// The state before the first item. It reads no option.
    ///
    /// # Errors
    ///
    /// None. It takes no memory.
    pub fn begin(alloc: Global, opts: &OpOpts) -> Result<CountState, Mem>
        ensures after { IfOk result (λ s. IsCountAfter [] s) }
        ensures begun { IsOk result }
    {
        let out = PassState::begin(alloc, opts)?;
        Ok(CountState {
            alloc,
            out,
            count: 0,
        })
    }

    /// Whether one more item may be pushed: fewer than 2^32 were.
    pub fn has_room(&self) -> bool
        ensures { IsTrue result ↔ HasCountRoom self.now }
    {
        self.count < MOST_ITEMS
    }

    /// Takes an item. Emits nothing. At most 2^32 - 1 items may have come before.
    ///
    /// # Errors
    ///
    /// None. It takes no memory.
    pub fn push(
        &mut self,
        port: u32,
        item: Value,
        answer: Value,
    ) -> Result<Vec<(u32, Value)>, OpFault>
        requires { HasCountRoom self.old }
        ensures emits { let x = push_of port (plain_of item) (plain_of answer) in (p : List Push) → IsCountAfter p self.old → MatchResult result (λ es. HasEmitted count_row p x (emits_of es.items)) (PushRefused count_row p x) }
        ensures after { let x = push_of port (plain_of item) (plain_of answer) in (p : List Push) → IsCountAfter p self.old → IfOk result (λ _. IsCountAfter (x ∷ p) self.new) }
        ensures taken { IsOk result }
    {
        laws::count();
        promises();
        self.count += 1;
        Ok(Vec::new(self.alloc))
    }

    /// Ends the input, and emits the number of items. The number stays. The state takes no further call.
    ///
    /// # Errors
    ///
    /// `Mem` if there is no memory.
    pub fn close(&mut self) -> Result<Vec<(u32, Value)>, OpFault>
        ensures ends { (p : List Push) → IsCountAfter p self.old → MatchResult result (λ es. HasEnded count_row p (emits_of es.items)) (CloseRefused count_row p) }
        ensures kept { self.new.count ≡ self.old.count }
    {
        laws::count();
        promises();
        emit(&mut self.out, Value::Int(self.count as i64))
    }
}
