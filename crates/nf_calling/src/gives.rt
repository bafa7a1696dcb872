//! What a call gave.

ghost use Rattle.std.specs.Prelude.{map};
ghost use Rattle.nf_meaning.specs.Calls as meaning;
ghost use Rattle.nf_scopes.specs.Things.{output_of};
ghost use Rattle.nf_follows.specs.Things.{OutputsRead};
ghost use Rattle.nf_lowering.specs.State.{IsLowering};
ghost use Rattle.nf_walked.specs.Around.{Knows};
ghost use Rattle.nf_walked.specs.Forms.{a_thing, outputs as made};
ghost use Rattle.nf_walked.specs.Steps.{Walked, from};

use nf_builtins::Natives;
use nf_lowering::Lowering;
use nf_meaning::LowerFault;
use nf_scopes::{CallOutput, Thing};
use nf_walked::Walker;

/// What the call of this name gave, which is known by the name in the rest of the body (Nextflow reference
/// documentation, "Workflows", "Accessing outputs").
///
/// # Errors
///
/// `Mem` for want of memory.
pub fn called_here<N: Natives>(
    walker: &Walker<'_, N>,
    state: &mut Lowering,
    name: &str,
    outputs: Vec<CallOutput>,
) -> Result<Thing, LowerFault>
    requires before { IsLowering state.old }
    requires reads { OutputsRead state.old.plan (map output_of outputs.items) }
    ensures { Walked (Knows N.titles N.answer walker.now) (from made outputs a_thing (meaning.called_here name.now))
        state.old state.new result }
{
    state.called_here(walker.alloc, name, outputs)
}
