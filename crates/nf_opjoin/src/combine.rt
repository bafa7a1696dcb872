//! `combine`: emits all pairs of an item of one input and an item of the other.

ghost use Rattle.std.specs.Prelude.{◌≡◌, List, [], ◌∷◌, Bool, is_some, IfOk, IsOk, MatchResult};
ghost use Rattle.nf_value.specs.View.{plain_of};
ghost use Rattle.nf_opstream.specs.Push.{Push, push_of};
ghost use Rattle.nf_opstream.specs.Promise.{emits_of, HasEmitted, HasEnded, PushRefused, CloseRefused};
ghost use Rattle.nf_opjoin.specs.Combined.{combine_row};
ghost use Rattle.nf_bag.specs.Options.{Allows};
ghost use Rattle.nf_bag.specs.declared.rows.Row.TheVariants as row;

use crate::laws;
use crate::meeting::{meet, paired_by};
use nf_bag::{OpFault, OpOpts};
use nf_opstream::PassState;
use nf_opstream::laws::promises;
use nf_value::{Mem, Vals, Value};
use std::alloc::Global;
use std::collections::BTreeMap;

/// The state of `combine`: emits each item of the first input with each item of the second as one list (Nextflow reference,
/// "Operators: combine"). An item that is no list counts as a list of itself. With `by: 0`, only items with the same first item, the
/// key, are paired, as the key, the rest of the first and the rest of the second: `[1, "a"]` and `[1, "b"]` give
/// `[1, "a", "b"]`. It keeps all items by their keys. Time: some n log n comparisons of keys for n pushes, and the pairs.
#[derive(Drop)]
pub struct CombineState {
    alloc: Global,
    out: PassState,
    by_first: bool,
    left: BTreeMap<Value, Vals>,
    right: BTreeMap<Value, Vals>,
}

impl CombineState {
    ghost use Rattle.nf_opjoin.specs.Kept.{IsCombineAfter};

    /// The state before the first item. It reads whether `by` of the options is there; `by` may only be 0.
    ///
    /// # Errors
    ///
    /// None. It takes no memory.
    pub fn begin(alloc: Global, opts: &OpOpts) -> Result<CombineState, Mem>
        requires { Allows row.Combine opts.now }
        ensures after { IfOk result (λ s. IsCombineAfter (is_some opts.now.by) [] s) }
        ensures begun { IsOk result }
    {
        let out = PassState::begin(alloc, opts)?;
        Ok(CombineState {
            alloc,
            out,
            by_first: opts.by.is_some(),
            left: BTreeMap::new(alloc),
            right: BTreeMap::new(alloc),
        })
    }

    /// Takes an item of the first input (port 0) or of the second (any other port), and emits its pairs with the other input's items so far.
    ///
    /// # Errors
    ///
    /// `NotATuple` if `by: 0` is set and the item is no list with a first item, `TooDeep` if a pair is deeper than 64, `Mem` if
    /// there is no memory. After an error the state takes no further call.
    pub fn push(
        &mut self,
        port: u32,
        item: Value,
        answer: Value,
    ) -> Result<Vec<(u32, Value)>, OpFault>
        ensures emits { let x = push_of port (plain_of item) (plain_of answer) in (by_first : Bool) → (p : List Push) → IsCombineAfter by_first p self.old → MatchResult result (λ es. HasEmitted (combine_row by_first) p x (emits_of es.items)) (PushRefused (combine_row by_first) p x) }
        ensures after { let x = push_of port (plain_of item) (plain_of answer) in (by_first : Bool) → (p : List Push) → IsCombineAfter by_first p self.old → IfOk result (λ _. IsCombineAfter by_first (x ∷ p) self.new) }
    {
        laws::combined();
        promises();
        match paired_by(self.alloc, self.by_first, item) {
            Err(fault) => Err(fault),
            Ok(keyed) => {
                if port == 0 {
                    meet(
                        self.alloc,
                        &mut self.out,
                        self.by_first,
                        true,
                        keyed,
                        &mut self.left,
                        &self.right,
                    )
                } else {
                    meet(
                        self.alloc,
                        &mut self.out,
                        self.by_first,
                        false,
                        keyed,
                        &mut self.right,
                        &self.left,
                    )
                }
            }
        }
    }

    /// Ends the input. Emits nothing. The options stay. The state takes no further call.
    ///
    /// # Errors
    ///
    /// None. It takes no memory.
    pub fn close(&mut self) -> Result<Vec<(u32, Value)>, OpFault>
        ensures ends { (by_first : Bool) → (p : List Push) → IsCombineAfter by_first p self.old → MatchResult result (λ es. HasEnded (combine_row by_first) p (emits_of es.items)) (CloseRefused (combine_row by_first) p) }
        ensures ended { IsOk result }
        ensures by { self.new.by_first ≡ self.old.by_first }
    {
        laws::combined();
        promises();
        Ok(Vec::new(self.alloc))
    }
}
