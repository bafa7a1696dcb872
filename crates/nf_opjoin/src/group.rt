//! `groupTuple`: emits one tuple for each key.

ghost use Rattle.std.specs.Prelude.{◌≡◌, ℕ, List, [], ◌∷◌, Bool, unwrap_or, IfOk, IsOk, MatchResult};
ghost use Rattle.nf_value.specs.View.{plain_of};
ghost use Rattle.nf_opstream.specs.Push.{Push, push_of};
ghost use Rattle.nf_opstream.specs.Promise.{emits_of, HasEmitted, HasEnded, PushRefused, CloseRefused};
ghost use Rattle.nf_opjoin.specs.Grouped.{group_row};

use crate::gathered::{gather, put_groups};
use crate::keyed::split;
use crate::laws;
use crate::leftovers::give;
use nf_bag::laws::{distinct_values, one_rising_list, sorting};
use nf_bag::{OpFault, OpOpts};
use nf_opstream::PassState;
use nf_opstream::laws::promises;
use nf_value::{Mem, Vals, Value};
use std::alloc::Global;
use std::collections::BTreeMap;
use std::mem::replace;

/// The state of `groupTuple`: when the input ends, emits one tuple for each key. It has the key at the key's place, and in each other
/// column the list of what the tuples with this key have there (Nextflow reference, "Operators: groupTuple"). The tuples of a key are
/// taken in the order of values, and one that is too short for a column is left out there (own). With `sort` of the options each list
/// is sorted. Example: `[1, "b"]` and `[1, "a"]` give `[1, ["a", "b"]]`. Time: some n log n comparisons of keys for n pushes.
#[derive(Drop)]
pub struct GroupState {
    alloc: Global,
    out: PassState,
    by: u32,
    sort: bool,
    groups: BTreeMap<Value, Vals>,
}

impl GroupState {
    ghost use Rattle.nf_opjoin.specs.Kept.{IsGroupAfter};

    /// The state before the first item. It reads `by`, the key's place (0 if absent), and `sort` of the options.
    ///
    /// # Errors
    ///
    /// None. It takes no memory.
    pub fn begin(alloc: Global, opts: &OpOpts) -> Result<GroupState, Mem>
        ensures after { IfOk result (λ s. IsGroupAfter (unwrap_or opts.now.by 0) opts.now.sort [] s) }
        ensures begun { IsOk result }
    {
        let out = PassState::begin(alloc, opts)?;
        Ok(GroupState {
            alloc,
            out,
            by: opts.by.unwrap_or(0),
            sort: opts.sort,
            groups: BTreeMap::new(alloc),
        })
    }

    /// Takes an item. Emits nothing.
    ///
    /// # Errors
    ///
    /// `NotATuple` if the item is no list with an item at the key's place, `Mem` if there is no memory. After an error the state
    /// takes no further call.
    pub fn push(
        &mut self,
        port: u32,
        item: Value,
        answer: Value,
    ) -> Result<Vec<(u32, Value)>, OpFault>
        ensures emits { let x = push_of port (plain_of item) (plain_of answer) in (n : ℕ) → (sort : Bool) → (p : List Push) → IsGroupAfter n sort p self.old → MatchResult result (λ es. HasEmitted (group_row n sort) p x (emits_of es.items)) (PushRefused (group_row n sort) p x) }
        ensures after { let x = push_of port (plain_of item) (plain_of answer) in (n : ℕ) → (sort : Bool) → (p : List Push) → IsGroupAfter n sort p self.old → IfOk result (λ _. IsGroupAfter n sort (x ∷ p) self.new) }
    {
        laws::grouped();
        promises();
        match split(item, self.by as usize) {
            Err(fault) => Err(fault),
            Ok(keyed) => {
                gather(self.alloc, &mut self.groups, keyed)?;
                Ok(Vec::new(self.alloc))
            }
        }
    }

    /// Ends the input, and emits the groups in the order of their keys. Time: some n log n comparisons of values for n items. The
    /// options stay. The state takes no further call.
    ///
    /// # Errors
    ///
    /// `TooDeep` if a group is deeper than 64, `Mem` if there is no memory.
    pub fn close(&mut self) -> Result<Vec<(u32, Value)>, OpFault>
        ensures ends { (n : ℕ) → (sort : Bool) → (p : List Push) → IsGroupAfter n sort p self.old → MatchResult result (λ es. HasEnded (group_row n sort) p (emits_of es.items)) (CloseRefused (group_row n sort) p) }
        ensures by { self.new.by ≡ self.old.by }
        ensures sort { self.new.sort ≡ self.old.sort }
    {
        laws::grouped();
        promises();
        sorting();
        distinct_values();
        one_rising_list();
        let groups = replace(&mut self.groups, BTreeMap::new(self.alloc));
        let mut lists = Vec::new(self.alloc);
        put_groups(self.alloc, &mut lists, groups, self.by as usize, self.sort)?;
        give(self.alloc, &mut self.out, Vals::of(lists))
    }
}
