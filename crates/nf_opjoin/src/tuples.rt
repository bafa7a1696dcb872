//! Tuples and their parts.

ghost use Rattle.std.specs.Prelude.{◌≡◌, ◌++◌, map, Ok, IfOk, OnOk, MatchResult};
ghost use Rattle.nf_value.specs.View.{plain_of};
ghost use Rattle.nf_opstream.specs.Promise.{emits_of, IsFault};
ghost use Rattle.nf_opjoin.specs.Tuples.{parts_of};
ghost use Rattle.nf_opjoin.specs.Combined.{tuple};

use nf_bag::OpFault;
use nf_opstream::PassState;
use nf_value::{Mem, Vals, Value};
use std::alloc::Global;

/// The items of a list, or the one value.
pub(crate) fn parts(alloc: Global, item: Value) -> Result<Vals, Mem>
    ensures { IfOk result (λ vs. vs ≡ parts_of (plain_of item)) }
{
    match item {
        Value::List(list) => Ok(list),
        other => {
            let mut items = Vec::new(alloc);
            items.push(other)?;
            Ok(Vals::of(items))
        }
    }
}

pub(crate) fn put_copies(items: &mut Vec<Value>, more: &[Value]) -> Result<(), Mem>
    ensures { OnOk result (map plain_of items.new.items ≡ map plain_of items.old.items ++ map plain_of more.now) }
{
    for item in more {
        items.push(item.copy()?)?;
    }
    Ok(())
}

pub(crate) fn emit(out: &mut PassState, items: Vals) -> Result<Vec<(u32, Value)>, OpFault>
    ensures { let due = tuple items in MatchResult result (λ es. due ≡ Ok (emits_of es.items)) (IsFault due) }
{
    out.push(0, Value::List(items), Value::Null)
}
