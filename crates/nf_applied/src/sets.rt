//! `set`: a name for a channel, or for all that a call gives.

ghost use Rattle.std.specs.Prelude.{◌≡◌, IfOk, length, map};
ghost use Rattle.nf_meaning.specs.Operators as meaning;
ghost use Rattle.nf_scopes.specs.Things.{output_of, thing_of};
ghost use Rattle.nf_plan.specs.Plans.{HasRoom};
ghost use Rattle.nf_follows.specs.Things.{OutputsRead, PortReads, ThingReads};
ghost use Rattle.nf_walked.specs.Around.{CanWalk, Knows};
ghost use Rattle.nf_walked.specs.Forms.{a_thing};
ghost use Rattle.nf_walked.specs.Parts.{of_thing};
ghost use Rattle.nf_walked.specs.Steps.{Walked};
ghost use Rattle.nf_applied.specs.Applied.{of_named, of_named_outputs, of_set, of_sets, with_port};
ghost use Rattle.nf_applied.specs.Rooms.{HasRoomFor, Used};

use nf_builtins::Natives;
use nf_graph::Port;
use nf_lowering::{Lowering, copy_thing};
use nf_meaning::LowerFault;
use nf_scopes::{CallOutput, Thing};
use nf_taken::{Taken, set_call};
use nf_value::{Mem, Place, Txt};
use nf_walked::Walker;

/// `set` of the channel that the port reads, with what it took (Nextflow reference documentation, "Operators", "set").
/// The call is counted. The name of `set` stands at `place`.
///
/// # Errors
///
/// `Mem` for want of memory.
pub fn name_channel<N: Natives>(
    walker: &Walker<'_, N>,
    state: &mut Lowering,
    place: Place,
    port: Port,
    taken: &Taken,
) -> Result<Thing, LowerFault>
    requires before { CanWalk N.titles N.answer N.keeps walker.now state.old }
    requires reads { PortReads state.old.plan port }
    requires room { HasRoom state.old.plan 1 }
    ensures { Used (Knows N.titles N.answer walker.now) 1 1 (of_named place port taken.now) state.old state.new result }
{
    let set = set_channel(walker, state, place, port)?;
    bind(walker, state, &taken.word, Thing::Channel(set))
}

/// `set` of all that a call gives, each output by itself, with what it took (Nextflow reference documentation,
/// "Operators", "set"). The calls are counted. The name of `set` stands at `place`.
///
/// # Errors
///
/// `Mem` for want of memory.
pub fn name_outputs<N: Natives>(
    walker: &Walker<'_, N>,
    state: &mut Lowering,
    place: Place,
    outputs: &[CallOutput],
    taken: &Taken,
) -> Result<Thing, LowerFault>
    requires before { CanWalk N.titles N.answer N.keeps walker.now state.old }
    requires reads { OutputsRead state.old.plan (map output_of outputs.now) }
    requires room { HasRoomFor (length outputs.now) (length outputs.now) state.old.plan }
    ensures { Used (Knows N.titles N.answer walker.now) (length outputs.now) (length outputs.now)
        (of_named_outputs place outputs.now taken.now) state.old state.new result }
{
    let set = set_outputs(walker, state, place, outputs)?;
    bind(walker, state, &taken.word, Thing::Outputs(set))
}

/// The `set` of the channel that the port reads; the call is counted.
fn set_channel<N: Natives>(
    walker: &Walker<'_, N>,
    state: &mut Lowering,
    place: Place,
    port: Port,
) -> Result<Port, LowerFault>
    requires before { CanWalk N.titles N.answer N.keeps walker.now state.old }
    requires reads { PortReads state.old.plan port }
    requires room { HasRoom state.old.plan 1 }
    ensures { Used (Knows N.titles N.answer walker.now) 1 1 (of_set place port) state.old state.new result }
{
    let call = set_call(walker.alloc, place, port)?;
    let set = walker.operator(state, call, Vec::new(walker.alloc))?;
    match set {
        Thing::Channel(port) => Ok(port),
        // An operator without labels gives a channel.
        Thing::Known(_) => Err(LowerFault::Mem),
        Thing::Outputs(_) => Err(LowerFault::Mem),
    }
}

/// A `set` for each output, all of which are counted.
fn set_outputs<N: Natives>(
    walker: &Walker<'_, N>,
    state: &mut Lowering,
    place: Place,
    outputs: &[CallOutput],
) -> Result<Vec<CallOutput>, LowerFault>
    requires before { CanWalk N.titles N.answer N.keeps walker.now state.old }
    requires reads { OutputsRead state.old.plan (map output_of outputs.now) }
    requires room { HasRoomFor (length outputs.now) (length outputs.now) state.old.plan }
    ensures { Used (Knows N.titles N.answer walker.now) (length outputs.now) (length outputs.now)
        (of_sets place outputs.now) state.old state.new result }
{
    let mut set = Vec::new(walker.alloc);
    for output in outputs {
        let port = set_channel(walker, state, place, output.port)?;
        set.push(named_as(output, port)?)?;
    }
    Ok(set)
}

/// Another port of the name of this output.
fn named_as(output: &CallOutput, port: Port) -> Result<CallOutput, Mem>
    ensures { IfOk result (λ x. output_of x ≡ with_port port (output_of output.now)) }
{
    let label = label_of(output)?;
    Ok(CallOutput { label, port })
}

/// A copy of the name of an output.
fn label_of(output: &CallOutput) -> Result<Option<Txt>, Mem>
    ensures { IfOk result (λ label. label ≡ output.now.label) }
{
    match &output.label {
        Some(name) => Ok(Some(name.copy()?)),
        None => Ok(None),
    }
}

/// The name stands for the thing from now on.
fn bind<N: Natives>(
    walker: &Walker<'_, N>,
    state: &mut Lowering,
    name: &Txt,
    thing: Thing,
) -> Result<Thing, LowerFault>
    requires before { CanWalk N.titles N.answer N.keeps walker.now state.old }
    requires reads { ThingReads state.old.plan (thing_of thing) }
    ensures { Walked (Knows N.titles N.answer walker.now) (of_thing thing a_thing (meaning.named_so name.now))
        state.old state.new result }
{
    let given = copy_thing(walker.alloc, &thing)?;
    walker.put_name(state, name, given)?;
    Ok(thing)
}
