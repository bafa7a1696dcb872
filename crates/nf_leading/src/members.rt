//! Outputs of calls, by their names and places.

ghost use Rattle.std.specs.Prelude.{◌≡◌, map, option_map, slice_get, IfOk};
ghost use Rattle.nf_value.specs.View.{plain_of};
ghost use Rattle.nf_meaning.specs.Things.{has_label as is_labelled};
ghost use Rattle.nf_scopes.specs.Things.{output_of, thing_of};
ghost use Rattle.nf_leading.specs.Wanted.{IsMember, IsOutputAt, IsPortOf, outputs_in, port_at, port_named};

use nf_graph::Port;
use nf_meaning::LowerFault;
use nf_scopes::{CallOutput, Thing};
use nf_value::{Place, Txt, Value};

/// The output of a call that has a name, as in `P.out.name` (Nextflow reference documentation, "Processes", "Outputs"). The name stands at `place`, and the
/// expression before it begins at `begin`. Takes no memory.
///
/// # Errors
///
/// `UnknownName` at the name if no output has it. `BadOption` there if the thing is a channel, and where the expression begins if it is a value.
pub fn member_of(begin: Place, place: Place, name: &Txt, thing: &Thing) -> Result<Thing, LowerFault>
    ensures walk { IsMember begin place name.now thing.now result }
    ensures port { IfOk result (λ t. IsPortOf (outputs_in (thing_of thing.now)) (thing_of t)) }
{
    match thing {
        Thing::Outputs(outputs) => match output_named(outputs, name) {
            Some(port) => Ok(Thing::Channel(port)),
            None => Err(LowerFault::UnknownName { place }),
        },
        Thing::Channel(_) => Err(LowerFault::BadOption { place }),
        Thing::Known(_) => Err(LowerFault::BadOption { place: begin }),
    }
}

fn output_named(outputs: &[CallOutput], name: &Txt) -> Option<Port>
    ensures { result ≡ port_named name.now (map output_of outputs.now) }
{
    for output in outputs {
        if has_label(output, name) {
            return Some(output.port);
        }
    }
    None
}

fn has_label(output: &CallOutput, name: &Txt) -> bool
    ensures { result ≡ is_labelled name.now output.now.label }
{
    match &output.label {
        Some(label) => label.as_str() == name.as_str(),
        None => false,
    }
}

/// The output at a place among all, as in `P.out[0]`. The bracket stands at `place`, and its expression begins at `index`. Takes no memory.
///
/// # Errors
///
/// `BadOption` where the index begins if it is no number, and `UnknownName` at the bracket if no output has that place.
pub fn output_at(
    place: Place,
    index: Place,
    at: &Value,
    outputs: &[CallOutput],
) -> Result<Thing, LowerFault>
    ensures walk { IsOutputAt place index (plain_of at.now) outputs.now result }
    ensures port { IfOk result (λ t. IsPortOf (map output_of outputs.now) (thing_of t)) }
{
    match at {
        Value::Int(number) => match port_of(*number, outputs) {
            Some(port) => Ok(Thing::Channel(port)),
            None => Err(LowerFault::UnknownName { place }),
        },
        _ => Err(LowerFault::BadOption { place: index }),
    }
}

fn port_of(number: i64, outputs: &[CallOutput]) -> Option<Port>
    ensures { result ≡ port_at number (map output_of outputs.now) }
{
    match usize::try_from(number) {
        Ok(at) => port_in(at, outputs),
        Err(_) => None,
    }
}

fn port_in(at: usize, outputs: &[CallOutput]) -> Option<Port>
    ensures { result ≡ option_map (λ o. o.port) (slice_get (map output_of outputs.now) at) }
{
    match outputs.get(at) {
        Some(output) => Some(output.port),
        None => None,
    }
}
