//! What operators emit: values with the numbers of their outputs, none deeper than 64.

ghost use Rattle.std.specs.Prelude.{◌≡◌, ◌∷◌, [], Ok, MatchResult};
ghost use Rattle.nf_value.specs.View.{plain_of};
ghost use Rattle.nf_opstream.specs.Promise.{emits_of, IsFault};
ghost use Rattle.nf_opstream.specs.Alone.{is_too_deep as is_deep, judged};

use nf_bag::OpFault;
use nf_value::{Value, depth};
use std::alloc::Global;

/// How deep an emitted value may be.
const DEEPEST: u64 = 64;

pub(crate) fn is_too_deep(value: &Value) -> bool
    ensures { result ≡ is_deep (plain_of value.now) }
{
    depth(value) > DEEPEST
}

/// Emits a value to an output.
pub(crate) fn one(alloc: Global, out: u32, value: Value) -> Result<Vec<(u32, Value)>, OpFault>
    ensures { let due = judged ((out, plain_of value) ∷ []) in MatchResult result (λ es. due ≡ Ok (emits_of es.items)) (IsFault due) }
{
    if is_too_deep(&value) {
        return Err(OpFault::TooDeep { item: value });
    }
    let mut emits = Vec::new(alloc);
    emits.push((out, value))?;
    Ok(emits)
}

/// The emitted values, or a fault with the first one that is too deep.
pub(crate) fn judge(mut emits: Vec<(u32, Value)>) -> Result<Vec<(u32, Value)>, OpFault>
    ensures { let due = judged (emits_of emits.items) in MatchResult result (λ es. due ≡ Ok (emits_of es.items)) (IsFault due) }
{
    for i in 0..emits.len() {
        if is_too_deep(&emits[i].1) {
            let (_, item) = emits.swap_remove(i);
            return Err(OpFault::TooDeep { item });
        }
    }
    Ok(emits)
}
