//! What stands at the head of a pipe.

ghost use Rattle.std.specs.Prelude.{◌≡◌};
ghost use Rattle.nf_callees.specs.Callee.{called_of};
ghost use Rattle.nf_meaning.specs.Workflow as workflow;
ghost use Rattle.nf_scopes.specs.Things.{thing_of};
ghost use Rattle.nf_follows.specs.Things.{ThingReads};
ghost use Rattle.nf_walked.specs.Around.{CanWalk, Knows};
ghost use Rattle.nf_walked.specs.Forms.{a_thing};
ghost use Rattle.nf_walked.specs.Parts.{is_call, is_called_alone, of_thing};
ghost use Rattle.nf_walked.specs.Steps.{Here, Walked};

use nf_builtins::Natives;
use nf_callees::Callee;
use nf_lowering::Lowering;
use nf_meaning::LowerFault;
use nf_scopes::Thing;
use nf_value::Place;
use nf_walked::Walker;

/// Whether a name that stands alone at the head of a pipe is called there: that of a process or a workflow, where nothing
/// in the body binds it (Nextflow reference documentation, "Workflows", "Special operators"). Takes no memory.
pub fn is_called_alone<N: Natives>(walker: &Walker<'_, N>, state: &Lowering, name: &str) -> bool
    ensures { Here (Knows N.titles N.answer walker.now) state.now (λ p. result ≡ is_called_alone p name.now) }
{
    match state.names().thing(name) {
        Some(_) => false,
        None => is_call(walker.callee(name)),
    }
}

/// A process or a workflow.
fn is_call(callee: Callee<'_>) -> bool
    ensures { result ≡ is_call (called_of callee.entry) }
{
    match callee {
        Callee::Process(_) => true,
        Callee::Workflow(_) => true,
        Callee::Operator(_) | Callee::File | Callee::Function | Callee::Unknown => false,
    }
}

/// What flows into a pipe (Nextflow reference documentation, "Workflows", "Special operators"): a channel, or all that a
/// call gives; a value becomes a value channel. `place` is where its expression begins.
///
/// # Errors
///
/// `TooManyNodes` at the place if a value is the source too many. `Mem` for want of memory.
pub fn flowing<N: Natives>(
    walker: &Walker<'_, N>,
    state: &mut Lowering,
    place: Place,
    thing: Thing,
) -> Result<Thing, LowerFault>
    requires before { CanWalk N.titles N.answer N.keeps walker.now state.old }
    requires reads { ThingReads state.old.plan (thing_of thing) }
    ensures { Walked (Knows N.titles N.answer walker.now) (of_thing thing a_thing (workflow.flowing place))
        state.old state.new result }
{
    match thing {
        Thing::Known(value) => {
            let port = walker.channel(state, place, Thing::Known(value))?;
            Ok(Thing::Channel(port))
        }
        Thing::Channel(port) => Ok(Thing::Channel(port)),
        Thing::Outputs(outputs) => Ok(Thing::Outputs(outputs)),
    }
}
