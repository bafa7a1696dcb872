//! `sum`: emits the total of its items.

ghost use Rattle.std.specs.Prelude.{◌≡◌, List, [], ◌∷◌, IfOk, IfErr, IsOk, MatchResult, IsTrue, ◌↔◌};
ghost use Rattle.nf_value.specs.View.{plain_of};
ghost use Rattle.nf_bag.specs.declared.fault.OpFault.TheVariants as fault;
ghost use Rattle.nf_opstream.specs.Push.{Push, push_of};
ghost use Rattle.nf_opstream.specs.Promise.{emits_of, HasEmitted, HasEnded, PushRefused, CloseRefused};
ghost use Rattle.nf_opclose.specs.Rows.{sum_row};

use crate::laws;
use crate::numbers::{MOST_ITEMS, Numbers};
use nf_bag::{OpFault, OpOpts};
use nf_opstream::PassState;
use nf_opstream::laws::promises;
use nf_value::{Mem, Value};
use std::alloc::Global;

/// The state of `sum`: when the input ends, emits the total of all items, 0 of none (Nextflow reference, "Operators: sum"; the total of
/// none is own). The total is kept in 128 bits and checked at the end, so the order of the items doesn't matter.
#[derive(Drop)]
pub struct SumState {
    alloc: Global,
    out: PassState,
    numbers: Numbers,
}

impl SumState {
    ghost use Rattle.nf_opclose.specs.Kept.{IsSumAfter};
    ghost use Rattle.nf_opclose.specs.Room.{HasSumRoom};

    /// The state before the first item. It reads no option.
    ///
    /// # Errors
    ///
    /// None. It takes no memory.
    pub fn begin(alloc: Global, opts: &OpOpts) -> Result<SumState, Mem>
        ensures after { IfOk result (λ s. IsSumAfter [] s) }
        ensures begun { IsOk result }
    {
        let out = PassState::begin(alloc, opts)?;
        Ok(SumState {
            alloc,
            out,
            numbers: Numbers::none(),
        })
    }

    /// Whether one more item may be pushed: fewer than 2^32 were.
    pub fn has_room(&self) -> bool
        ensures { IsTrue result ↔ HasSumRoom self.now }
    {
        self.numbers.count < MOST_ITEMS
    }

    /// Takes an item. Emits nothing. At most 2^32 - 1 items may have come before.
    ///
    /// # Errors
    ///
    /// `NotANumber` if the item is no number. After an error the state takes no further call.
    pub fn push(
        &mut self,
        port: u32,
        item: Value,
        answer: Value,
    ) -> Result<Vec<(u32, Value)>, OpFault>
        requires { HasSumRoom self.old }
        ensures emits { let x = push_of port (plain_of item) (plain_of answer) in (p : List Push) → IsSumAfter p self.old → MatchResult result (λ es. HasEmitted sum_row p x (emits_of es.items)) (PushRefused sum_row p x) }
        ensures after { let x = push_of port (plain_of item) (plain_of answer) in (p : List Push) → IsSumAfter p self.old → IfOk result (λ _. IsSumAfter (x ∷ p) self.new) }
        ensures refused { IfErr result (λ f. f ≡ fault.NotANumber item) }
    {
        laws::sum();
        promises();
        match item {
            Value::Int(number) => {
                self.numbers.add(number);
                Ok(Vec::new(self.alloc))
            }
            other => Err(OpFault::NotANumber { item: other }),
        }
    }

    /// Ends the input, and emits the total. The total stays. The state takes no further call.
    ///
    /// # Errors
    ///
    /// `Overflow` if the total doesn't fit 64 signed bits, `Mem` if there is no memory.
    pub fn close(&mut self) -> Result<Vec<(u32, Value)>, OpFault>
        ensures ends { (p : List Push) → IsSumAfter p self.old → MatchResult result (λ es. HasEnded sum_row p (emits_of es.items)) (CloseRefused sum_row p) }
        ensures kept { self.new.numbers ≡ self.old.numbers }
    {
        laws::sum();
        promises();
        self.numbers.emit_total(&mut self.out)
    }
}
