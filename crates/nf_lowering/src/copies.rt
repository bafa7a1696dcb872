//! Copies of what names stand for.

ghost use Rattle.std.specs.Prelude.{◌≡◌, map, IfOk};
ghost use Rattle.nf_scopes.specs.Things.{output_of, thing_of};

use nf_scopes::{CallOutput, Thing};
use nf_value::{Mem, Txt};
use std::alloc::Global;

/// A copy of what a name stands for: the same value, channel or outputs of a call.
///
/// # Errors
///
/// `Mem` for want of memory.
pub fn copy_thing(alloc: Global, thing: &Thing) -> Result<Thing, Mem>
    ensures { IfOk result (λ copy. thing_of copy ≡ thing_of thing.now) }
{
    match thing {
        Thing::Known(value) => Ok(Thing::Known(value.copy()?)),
        Thing::Channel(port) => Ok(Thing::Channel(*port)),
        Thing::Outputs(outputs) => Ok(Thing::Outputs(copy_outputs(alloc, outputs.as_slice())?)),
    }
}

/// A copy of the outputs of a call.
pub(crate) fn copy_outputs(alloc: Global, outputs: &[CallOutput]) -> Result<Vec<CallOutput>, Mem>
    ensures { IfOk result (λ copies. map output_of copies.items ≡ map output_of outputs.now) }
{
    let mut copies = Vec::new(alloc);
    for output in outputs {
        copies.push(copy_output(output)?)?;
    }
    Ok(copies)
}

/// A copy of an output of a call.
fn copy_output(output: &CallOutput) -> Result<CallOutput, Mem>
    ensures { IfOk result (λ copy. output_of copy ≡ output_of output.now) }
{
    let label = copy_label(&output.label)?;
    let port = output.port;
    Ok(CallOutput { label, port })
}

/// A copy of the name of an output.
pub(crate) fn copy_label(label: &Option<Txt>) -> Result<Option<Txt>, Mem>
    ensures { IfOk result (λ copy. copy ≡ label.now) }
{
    match label {
        Some(name) => Ok(Some(name.copy()?)),
        None => Ok(None),
    }
}
