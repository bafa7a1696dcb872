//! The values of list and map literals.

ghost use Rattle.std.specs.Prelude.{◌≡◌, [], IfOk, map};
ghost use Rattle.nf_value.specs.View.{plain_of, pair_of};
ghost use Rattle.nf_texts.specs.Outcome.{Gives};
ghost use Rattle.nf_infix.specs.Literal.{new_list as new_list_of, new_map as new_map_of};
ghost use Rattle.nf_infix.specs.Pairs.{put_all};

use crate::pairs::put_each;
use nf_builtins::CallFault;
use nf_texts::limits::judged;
use nf_value::{Mem, Pairs, Txt, Vals, Value};
use std::alloc::Global;

/// `[a, b]`: the list of these items (Nextflow reference documentation, "Syntax", "List").
///
/// # Errors
///
/// `TooLarge` where it would weigh more than 16,777,216, and else `TooDeep` where it would be deeper than 64 (own). Takes no memory.
pub fn new_list(items: Vec<Value>) -> Result<Value, CallFault>
    ensures { Gives (new_list_of (map plain_of items.items)) result }
{
    judged(Value::List(Vals::of(items)))
}

/// `[k: a, l: b]`: the map of these pairs, where of equal keys the last counts (Nextflow reference documentation, "Syntax", "Map"). Takes time by
/// the square of their number.
///
/// # Errors
///
/// `TooLarge` where it would weigh more than 16,777,216, and else `TooDeep` where it would be deeper than 64 (own). `Mem` where there is no memory
/// for it.
pub fn new_map(alloc: Global, pairs: Vec<(Txt, Value)>) -> Result<Value, CallFault>
    ensures { Gives (new_map_of (map pair_of pairs.items)) result }
{
    judged(Value::Map(first_map(alloc, pairs)?))
}

fn first_map(alloc: Global, pairs: Vec<(Txt, Value)>) -> Result<Pairs, Mem>
    ensures { IfOk result (λ ps. ps ≡ put_all (map pair_of pairs.items) []) }
{
    let none = Pairs::of(Vec::new(alloc));
    put_each(none, pairs)
}
