//! What calls of sources and processes give, and which rules they break.

ghost use Rattle.std.specs.Prelude.{◌≡◌, IfOk};
ghost use Rattle.nf_kinds.specs.Walk.{Comes};
ghost use Rattle.nf_opkinds.specs.Calls as spec;

use crate::results::{all_of_kind, shape_of};
use nf_kinds::{
    BodyScope, Broken, Given, Kinds, OrderRule, Shape, any_queue, any_unknown, note_if,
};
use nf_value::{Mem, Place, Txt};
use std::alloc::Global;

/// What `channel.name(..)` gives.
pub fn source_call(name: &str, args: &[Given]) -> Kinds
    ensures { result ≡ spec.source_call name.now args.now }
{
    if any_unknown(args) {
        return Kinds::unknown();
    }
    source_kinds(name)
}

fn source_kinds(name: &str) -> Kinds
    ensures { result ≡ spec.source_kind name.now }
{
    if name == "value" {
        return Kinds::channel(false);
    }
    if is_queue_source(name) {
        return Kinds::channel(true);
    }
    Kinds::unknown()
}

/// Whether `channel.name(..)` is a source that gives a queue.
pub fn is_queue_source(name: &str) -> bool
    ensures { result ≡ spec.is_queue_source name.now }
{
    name == "of"
        || name == "fromList"
        || name == "empty"
        || name == "fromPath"
        || name == "fromFilePairs"
}

fn has_two_queues(args: &[Given]) -> bool
    ensures { result ≡ spec.has_two_queues args.now }
{
    for (place, given) in args.iter().enumerate() {
        if given.shape.kinds().queue {
            return any_queue(&args[place + 1..]);
        }
    }
    false
}

/// A call of a process whose outputs have these names.
pub fn process_call(
    alloc: Global,
    place: Place,
    name: &Txt,
    names: Vec<Option<Txt>>,
    args: &[Given],
    scope: &mut BodyScope,
    broken: &mut Vec<Broken>,
) -> Result<Shape, Mem>
    ensures { IfOk result (λ v. Comes (spec.process_call place name.now names.items args.now scope.old)
        broken.old.items v scope.new broken.new.items) }
{
    let is_broken = !any_unknown(args) && has_two_queues(args);
    let shape = process_shape(alloc, names, args)?;
    note_if(is_broken, OrderRule::ProcessQueues, place, broken)?;
    scope.add_call(name, shape.copy(alloc)?)?;
    Ok(shape)
}

/// The outputs of a process: queues where an input may be one.
fn process_shape(alloc: Global, names: Vec<Option<Txt>>, args: &[Given]) -> Result<Shape, Mem>
    ensures { IfOk result (λ v. v ≡ spec.process_shape names.items args.now) }
{
    if any_unknown(args) {
        return Ok(Shape::alone(Kinds::unknown()));
    }
    let outputs = all_of_kind(alloc, Kinds::channel(any_queue(args)), names)?;
    shape_of(alloc, &outputs)
}
