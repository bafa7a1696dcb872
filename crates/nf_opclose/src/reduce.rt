//! `reduce`: emits what its closure makes of all items.

ghost use Rattle.std.specs.Prelude.{◌≡◌, List, [], ◌∷◌, Option, IfOk, IfErr, MatchResult, IsTrue, ◌↔◌};
ghost use Rattle.std.specs.Option.{option_map};
ghost use Rattle.nf_value.specs.Plain.{Plain};
ghost use Rattle.nf_value.specs.View.{plain_of};
ghost use Rattle.nf_bag.specs.declared.options.Total.{Total};
ghost use Rattle.nf_bag.specs.declared.fault.OpFault.TheVariants as fault;
ghost use Rattle.nf_opstream.specs.Push.{Push, push_of};
ghost use Rattle.nf_opstream.specs.Promise.{emits_of, HasEmitted, HasEnded, PushRefused, CloseRefused};
ghost use Rattle.nf_opclose.specs.Reduce.{stray_of, with_start};
ghost use Rattle.nf_opclose.specs.Rows.{reduce_row};
ghost use Rattle.nf_opclose.specs.Running.{kind_of, IsRunning, HasRoom};

use crate::laws;
use crate::running::Running;
use nf_bag::{OpFault, OpOpts};
use nf_opstream::PassState;
use nf_opstream::laws::promises;
use nf_value::{Mem, Value};
use std::alloc::Global;
use std::mem::replace;

/// The state of `reduce`: when the input ends, emits what the closure makes of the items and the initial value, or nothing if there is
/// neither (Nextflow reference, "Operators: reduce"; the kinds of closure are own). A total is kept in 128 bits and checked at the end,
/// so the order of the items doesn't matter.
#[derive(Drop)]
pub struct ReduceState {
    alloc: Global,
    out: PassState,
    stray: Option<Value>,
    running: Running,
}

impl ReduceState {
    ghost use Rattle.nf_opclose.specs.Kept.{IsReduceAfter};
    ghost use Rattle.nf_opclose.specs.Room.{HasReduceRoom};

    /// The state before the first item. It reads `total` and `start` of the options.
    ///
    /// # Errors
    ///
    /// `Mem` if there is no memory for the initial value.
    pub fn begin(alloc: Global, opts: &OpOpts) -> Result<ReduceState, Mem>
        ensures { IfOk result (λ s. IsReduceAfter opts.now.total (option_map plain_of opts.now.start) [] s) }
    {
        let out = PassState::begin(alloc, opts)?;
        let running = Running::of(opts.total);
        let stray = stray(&running, &opts.start)?;
        let running = started(running, &opts.start)?;
        Ok(ReduceState {
            alloc,
            out,
            stray,
            running,
        })
    }

    /// Whether one more item may be pushed. It may after fewer than 2^32.
    pub fn has_room(&self) -> bool
        ensures { IsTrue result ↔ HasReduceRoom self.now }
    {
        self.running.has_room()
    }

    /// Takes an item. Emits nothing. At most 2^32 - 1 items may have come before.
    ///
    /// # Errors
    ///
    /// `NotANumber` if the closure adds or compares numbers and the item is none. After an error the state takes no further call.
    pub fn push(
        &mut self,
        port: u32,
        item: Value,
        answer: Value,
    ) -> Result<Vec<(u32, Value)>, OpFault>
        requires { HasReduceRoom self.old }
        ensures emits { let x = push_of port (plain_of item) (plain_of answer) in (kind : Total) → (start : Option Plain) → (p : List Push) → IsReduceAfter kind start p self.old → MatchResult result (λ es. HasEmitted (reduce_row kind start) p x (emits_of es.items)) (PushRefused (reduce_row kind start) p x) }
        ensures after { let x = push_of port (plain_of item) (plain_of answer) in (kind : Total) → (start : Option Plain) → (p : List Push) → IsReduceAfter kind start p self.old → IfOk result (λ _. IsReduceAfter kind start (x ∷ p) self.new) }
        ensures refused { IfErr result (λ f. f ≡ fault.NotANumber item) }
    {
        laws::reduce();
        promises();
        if self.running.refuses(&item) {
            return Err(OpFault::NotANumber { item });
        }
        let running = replace(&mut self.running, Running::All(None));
        self.running = running.with(item);
        Ok(Vec::new(self.alloc))
    }

    /// Ends the input, and emits what the closure makes of all values. The state takes no further call.
    ///
    /// # Errors
    ///
    /// `NotANumber` if the closure adds or compares numbers and the initial value is none, `Overflow` if a total doesn't fit 64 signed
    /// bits, `Mem` if there is no memory.
    pub fn close(&mut self) -> Result<Vec<(u32, Value)>, OpFault>
        ensures { (kind : Total) → (start : Option Plain) → (p : List Push) → IsReduceAfter kind start p self.old → MatchResult result (λ es. HasEnded (reduce_row kind start) p (emits_of es.items)) (CloseRefused (reduce_row kind start) p) }
    {
        laws::reduce();
        promises();
        let stray = replace(&mut self.stray, None);
        let running = replace(&mut self.running, Running::All(None));
        match stray {
            Some(item) => Err(OpFault::NotANumber { item }),
            None => running.emit(self.alloc, &mut self.out),
        }
    }
}

/// The initial value, if the closure doesn't take it.
fn stray(running: &Running, start: &Option<Value>) -> Result<Option<Value>, Mem>
    ensures { IfOk result (λ v. option_map plain_of v ≡ stray_of (kind_of running.now) (option_map plain_of start.now)) }
{
    match start {
        Some(value) if running.refuses(value) => Ok(Some(value.copy()?)),
        _ => Ok(None),
    }
}

/// The values before the first item.
fn started(running: Running, start: &Option<Value>) -> Result<Running, Mem>
    requires { HasRoom running }
    ensures kind { IfOk result (λ r. kind_of r ≡ kind_of running) }
    ensures running { IsRunning [] running → IfOk result (λ r. IsRunning (with_start (option_map plain_of start.now) []) r) }
{
    match start {
        Some(value) => Ok(running.with(value.copy()?)),
        None => Ok(running),
    }
}
