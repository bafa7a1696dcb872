//! Lists of values that may be files.

ghost use Rattle.std.specs.Prelude.{◌≡◌, IfOk, map};
ghost use Rattle.nf_value.specs.Plain.{file as file_plain};
ghost use Rattle.nf_value.specs.View.{plain_of};
ghost use Rattle.nf_meaning.specs.Things as spec;
ghost use Rattle.nf_meaning.specs.Walk as walk;
ghost use Rattle.nf_meaning.specs.Workflow as workflow;
ghost use Rattle.nf_around.specs.Gives.{IsKnown, Reads};

use crate::values::fault_before_run;
use nf_meaning::LowerFault;
use nf_placed::list_value;
use nf_value::{Digest, FileRef, Mem, Place, Vals, Value};
use std::alloc::Global;

/// A length of 20 digits, which is the most that a file's length has.
const LONGEST: u64 = 10_000_000_000_000_000_000;

/// A list of values, which may be files, or hold some (own). Whatever files are found, it is judged in the same way: as
/// if the length of each file had 20 digits. `place` is that of its bracket.
///
/// # Errors
///
/// `ParamFault` with `TooLarge` or `TooDeep` at its place where the list passes a limit. `Mem` for want of memory.
pub fn list_made(alloc: Global, place: Place, items: Vec<Value>) -> Result<Value, LowerFault>
    ensures { (a : walk.Around) (s : walk.State)
        → Reads IsKnown (workflow.list_made place (map plain_of items.items)) a s result }
{
    let list = Vals::of(items);
    let wide = all_widened(alloc, &list)?;
    match list_value(place, wide) {
        Ok(_) => Ok(Value::List(list)),
        Err(refusal) => Err(fault_before_run(refusal)),
    }
}

/// Values as if each file had a digest of zeros, and a length of 20 digits.
#[cycle(widened)]
fn all_widened(alloc: Global, list: &Vals) -> Result<Vec<Value>, Mem>
    ensures { IfOk result (λ wide. map plain_of wide.items ≡ map spec.widened list.now) }
{
    let mut wide = Vec::new(alloc);
    for item in list.items() {
        wide.push(widened(alloc, item)?)?;
    }
    Ok(wide)
}

#[cycle(widened)]
fn widened(alloc: Global, value: &Value) -> Result<Value, Mem>
    ensures { IfOk result (λ wide. plain_of wide ≡ spec.widened (plain_of value.now)) }
{
    match value {
        Value::File(file) => widened_file(alloc, file.file()),
        Value::List(list) => Ok(Value::List(Vals::of(all_widened(alloc, list)?))),
        Value::Null | Value::Truth(_) | Value::Int(_) | Value::Text(_) | Value::Map(_) =>
            value.copy(),
    }
}

fn widened_file(alloc: Global, file: &FileRef) -> Result<Value, Mem>
    ensures { IfOk result (λ wide. plain_of wide ≡ spec.widened (file_plain file.now.name file.now.digest.0 file.now.len)) }
{
    let name = file.name.copy()?;
    Value::of_file(
        alloc,
        FileRef {
            name,
            digest: Digest([0; 32]),
            len: LONGEST,
        },
    )
}
