//! `ifEmpty`: emits its items, or a value if there was none.

ghost use Rattle.std.specs.Prelude.{◌≡◌, List, [], ◌∷◌, Some, IfOk, MatchResult};
ghost use Rattle.nf_value.specs.Plain.{Plain};
ghost use Rattle.nf_value.specs.View.{plain_of};
ghost use Rattle.nf_value.specs.declared.value.Value.{Value};
ghost use Rattle.nf_opstream.specs.Push.{Push, push_of};
ghost use Rattle.nf_opstream.specs.Promise.{emits_of, HasEmitted, HasEnded, PushRefused, CloseRefused};
ghost use Rattle.nf_bag.specs.Options.{Allows};
ghost use Rattle.nf_bag.specs.declared.rows.Row.TheVariants as row;
ghost use Rattle.nf_opclose.specs.Rows.{if_empty_row};

use crate::emits::emit;
use crate::laws;
use nf_bag::{OpFault, OpOpts};
use nf_opstream::PassState;
use nf_opstream::laws::promises;
use nf_value::{Mem, Value};
use std::alloc::Global;
use std::mem::replace;

/// The state of `ifEmpty`: emits the items as they come; if there was none, the value of the options when the input ends (Nextflow
/// reference, "Operators: ifEmpty").
#[derive(Drop)]
pub struct IfEmptyState {
    alloc: Global,
    items: PassState,
    value: Value,
    none: bool,
}

impl IfEmptyState {
    ghost use Rattle.nf_opclose.specs.Kept.{IsIfEmptyAfter};

    /// The state before the first item. It reads `start` of the options, which must be there.
    ///
    /// # Errors
    ///
    /// `Mem` if there is no memory for the value.
    pub fn begin(alloc: Global, opts: &OpOpts) -> Result<IfEmptyState, Mem>
        requires { Allows row.IfEmpty opts.now }
        ensures { IfOk result (λ s. (v : Value) → opts.now.start ≡ Some v → IsIfEmptyAfter (plain_of v) [] s) }
    {
        let items = PassState::begin(alloc, opts)?;
        let value = match &opts.start {
            Some(value) => value.copy()?,
            None => unreachable!(),
        };
        Ok(IfEmptyState {
            alloc,
            items,
            value,
            none: true,
        })
    }

    /// Takes an item, and emits it to the first output.
    ///
    /// # Errors
    ///
    /// `TooDeep` if the item is deeper than 64, `Mem` if there is no memory. After an error the state takes no further call.
    pub fn push(
        &mut self,
        port: u32,
        item: Value,
        answer: Value,
    ) -> Result<Vec<(u32, Value)>, OpFault>
        ensures emits { let x = push_of port (plain_of item) (plain_of answer) in (v : Plain) → (p : List Push) → IsIfEmptyAfter v p self.old → MatchResult result (λ es. HasEmitted (if_empty_row v) p x (emits_of es.items)) (PushRefused (if_empty_row v) p x) }
        ensures after { let x = push_of port (plain_of item) (plain_of answer) in (v : Plain) → (p : List Push) → IsIfEmptyAfter v p self.old → IfOk result (λ _. IsIfEmptyAfter v (x ∷ p) self.new) }
    {
        laws::if_empty();
        promises();
        self.none = false;
        emit(&mut self.items, item)
    }

    /// Ends the input, and emits the value if there was no item. Whether there was one stays. The state takes no further call.
    ///
    /// # Errors
    ///
    /// `TooDeep` if that value is deeper than 64, `Mem` if there is no memory.
    pub fn close(&mut self) -> Result<Vec<(u32, Value)>, OpFault>
        ensures ends { (v : Plain) → (p : List Push) → IsIfEmptyAfter v p self.old → MatchResult result (λ es. HasEnded (if_empty_row v) p (emits_of es.items)) (CloseRefused (if_empty_row v) p) }
        ensures none { self.new.none ≡ self.old.none }
    {
        laws::if_empty();
        promises();
        if !self.none {
            return Ok(Vec::new(self.alloc));
        }
        let value = replace(&mut self.value, Value::Null);
        emit(&mut self.items, value)
    }
}
