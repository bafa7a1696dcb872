//! A call begins.

ghost use Rattle.std.specs.Prelude.{◌≡◌, ℕ, true, false, [], OnOk};
ghost use Rattle.nf_builtins.specs.Natives.{is_among};
ghost use Rattle.nf_meaning.specs.CallPaths.{is_plain_name};
ghost use Rattle.nf_meaning.specs.Walk.{begins_call};
ghost use Rattle.nf_plan.specs.Plans.{HasRoom};
ghost use Rattle.nf_lowering.specs.State.{IsLowering, calls_in};
ghost use Rattle.nf_walked.specs.Around.{Knows};
ghost use Rattle.nf_walked.specs.Forms.{nothing};
ghost use Rattle.nf_walked.specs.Steps.{Walked, due};
ghost use Rattle.nf_calling.specs.Calls.{begins_path, begins_process};
ghost use Rattle.nf_calling.specs.Goes.{BeganAfter, HasBegun};

use nf_builtins::Natives;
use nf_follows::laws::rooms_last;
use nf_lowering::Lowering;
use nf_meaning::LowerFault;
use nf_meaning::laws::paths_stay_apart;
use nf_value::Place;
use nf_walked::Walker;

/// The call of a process begins, whose name stands at the place and which wasn't called in the body before. It is
/// counted with the channels that it is to read.
///
/// # Errors
///
/// `TooManyNodes` at the place if there are then more than 65,536 sources and calls, or these read more than 65,536
/// channels. `Mem` for want of memory.
pub fn begin_process<N: Natives>(
    walker: &Walker<'_, N>,
    state: &mut Lowering,
    place: Place,
    name: &str,
    ports: usize,
) -> Result<(), LowerFault>
    requires before { IsLowering state.old }
    requires plain { is_plain_name name.now ≡ true }
    requires new { is_among name.now (calls_in state.old).called ≡ false }
    ensures walk { Walked (Knows N.titles N.answer walker.now) (due nothing (begins_process place name.now ports))
        state.old state.new result }
    ensures begun { OnOk result (HasBegun name.now state.new) }
    ensures room { OnOk result (HasRoom state.new.plan ports) }
    ensures after { OnOk result (BeganAfter name.now ports state.old state.new) }
{
    paths_stay_apart();
    rooms_last();
    begin_call(walker, state, name)?;
    walker.count(state, place, ports)
}

/// The call of a workflow begins, which wasn't called in the body before.
///
/// # Errors
///
/// `Mem` for want of memory.
pub fn begin_workflow<N: Natives>(
    walker: &Walker<'_, N>,
    state: &mut Lowering,
    name: &str,
) -> Result<(), LowerFault>
    requires before { IsLowering state.old }
    requires plain { is_plain_name name.now ≡ true }
    requires new { is_among name.now (calls_in state.old).called ≡ false }
    ensures walk { Walked (Knows N.titles N.answer walker.now) (due nothing (begins_call name.now [])) state.old
        state.new result }
    ensures begun { OnOk result (HasBegun name.now state.new) }
{
    begin_call(walker, state, name)
}

/// The call of a process or of a workflow begins.
fn begin_call<N: Natives>(
    walker: &Walker<'_, N>,
    state: &mut Lowering,
    name: &str,
) -> Result<(), LowerFault>
    requires before { IsLowering state.old }
    requires plain { is_plain_name name.now ≡ true }
    requires new { is_among name.now (calls_in state.old).called ≡ false }
    ensures process { Walked (Knows N.titles N.answer walker.now) (due nothing (begins_path name.now)) state.old
        state.new result }
    ensures workflow { Walked (Knows N.titles N.answer walker.now) (due nothing (begins_call name.now [])) state.old
        state.new result }
    ensures begun { OnOk result (HasBegun name.now state.new) }
    ensures plan { state.new.plan ≡ state.old.plan }
{
    paths_stay_apart();
    state.begin_call(walker.alloc, name)
}
