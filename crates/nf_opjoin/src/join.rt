//! `join`: emits the pairs of items with equal keys.

ghost use Rattle.std.specs.Prelude.{◌≡◌, ℕ, List, [], ◌∷◌, Bool, unwrap_or, IfOk, IsOk, MatchResult};
ghost use Rattle.nf_value.specs.View.{plain_of};
ghost use Rattle.nf_opstream.specs.Push.{Push, push_of};
ghost use Rattle.nf_opstream.specs.Promise.{emits_of, HasEmitted, HasEnded, PushRefused, CloseRefused};
ghost use Rattle.nf_opjoin.specs.Joined.{join_row};

use crate::keyed::{enter, split};
use crate::laws;
use crate::leftovers::{give, put_unmatched};
use nf_bag::laws::sorting;
use nf_bag::{OpFault, OpOpts, sorted};
use nf_opstream::PassState;
use nf_opstream::laws::promises;
use nf_value::{Mem, Vals, Value};
use std::alloc::Global;
use std::collections::{BTreeMap, BTreeSet};
use std::mem::replace;

/// The state of `join`: for each key in both inputs, emits one list of the key, the rest of the first input's item and the rest of the
/// second's (Nextflow reference, "Operators: join"). With `remainder` of the options, the close also emits each item without a partner,
/// with null in the partner's place. A key that comes twice in one input is always a fault (own). Example: `[1, "a"]` and `[1, "b"]`
/// give `[1, "a", "b"]`. Time: some n log n comparisons of keys for n pushes.
#[derive(Drop)]
pub struct JoinState {
    alloc: Global,
    out: PassState,
    by: u32,
    remainder: bool,
    left: BTreeMap<Value, Vals>,
    right: BTreeMap<Value, Vals>,
    matched: BTreeSet<Value>,
}

impl JoinState {
    ghost use Rattle.nf_opjoin.specs.After.{IsJoinAfter};

    /// The state before the first item. It reads `by`, the key's place (0 if absent), and `remainder` of the options.
    ///
    /// # Errors
    ///
    /// None. It takes no memory.
    pub fn begin(alloc: Global, opts: &OpOpts) -> Result<JoinState, Mem>
        ensures after { IfOk result (λ s. IsJoinAfter (unwrap_or opts.now.by 0) opts.now.remainder [] s) }
        ensures begun { IsOk result }
    {
        let out = PassState::begin(alloc, opts)?;
        Ok(JoinState {
            alloc,
            out,
            by: opts.by.unwrap_or(0),
            remainder: opts.remainder,
            left: BTreeMap::new(alloc),
            right: BTreeMap::new(alloc),
            matched: BTreeSet::new(alloc),
        })
    }

    /// Takes an item of the first input (port 0) or of the second (any other port), and emits its pair if the other input has its key.
    ///
    /// # Errors
    ///
    /// `NotATuple` if the item is no list with an item at the key's place, `DuplicateKey` if its input had that key before,
    /// `TooDeep` if the pair is deeper than 64, `Mem` if there is no memory. After an error the state takes no further call.
    pub fn push(
        &mut self,
        port: u32,
        item: Value,
        answer: Value,
    ) -> Result<Vec<(u32, Value)>, OpFault>
        ensures emits { let x = push_of port (plain_of item) (plain_of answer) in (n : ℕ) → (wanted : Bool) → (p : List Push) → IsJoinAfter n wanted p self.old → MatchResult result (λ es. HasEmitted (join_row n wanted) p x (emits_of es.items)) (PushRefused (join_row n wanted) p x) }
        ensures after { let x = push_of port (plain_of item) (plain_of answer) in (n : ℕ) → (wanted : Bool) → (p : List Push) → IsJoinAfter n wanted p self.old → IfOk result (λ _. IsJoinAfter n wanted (x ∷ p) self.new) }
    {
        laws::joined();
        promises();
        match split(item, self.by as usize) {
            Err(fault) => Err(fault),
            Ok(keyed) => {
                if port == 0 {
                    enter(
                        self.alloc,
                        &mut self.out,
                        true,
                        keyed,
                        &mut self.left,
                        &self.right,
                        &mut self.matched,
                    )
                } else {
                    enter(
                        self.alloc,
                        &mut self.out,
                        false,
                        keyed,
                        &mut self.right,
                        &self.left,
                        &mut self.matched,
                    )
                }
            }
        }
    }

    /// Ends the input, and emits the items without a partner if `remainder` is set. The options stay. The state takes no further
    /// call.
    ///
    /// # Errors
    ///
    /// `TooDeep` if a list to be emitted is deeper than 64, `Mem` if there is no memory.
    pub fn close(&mut self) -> Result<Vec<(u32, Value)>, OpFault>
        ensures ends { (n : ℕ) → (wanted : Bool) → (p : List Push) → IsJoinAfter n wanted p self.old → MatchResult result (λ es. HasEnded (join_row n wanted) p (emits_of es.items)) (CloseRefused (join_row n wanted) p) }
        ensures by { self.new.by ≡ self.old.by }
        ensures remainder { self.new.remainder ≡ self.old.remainder }
    {
        laws::joined();
        promises();
        sorting();
        if !self.remainder {
            return Ok(Vec::new(self.alloc));
        }
        let left = replace(&mut self.left, BTreeMap::new(self.alloc));
        let right = replace(&mut self.right, BTreeMap::new(self.alloc));
        let mut lonely = Vec::new(self.alloc);
        put_unmatched(self.alloc, &mut lonely, left, true, &self.matched)?;
        put_unmatched(self.alloc, &mut lonely, right, false, &self.matched)?;
        let values = sorted(Vals::of(lonely))?;
        give(self.alloc, &mut self.out, values)
    }
}
