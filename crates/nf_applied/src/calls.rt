//! Calls of operators that took their arguments.

ghost use Rattle.std.specs.Prelude.{◌≡◌, ◌+◌, length, true};
ghost use Rattle.nf_operator.specs.Row.{takes_ports};
ghost use Rattle.nf_plan.specs.Plans.{HasRoom};
ghost use Rattle.nf_follows.specs.Things.{PortReads};
ghost use Rattle.nf_walked.specs.Around.{CanWalk, Knows};
ghost use Rattle.nf_applied.specs.Applied.{of_applied};
ghost use Rattle.nf_applied.specs.Rooms.{Used};
ghost use Rattle.nf_applied.specs.Taking.{TakenFits};

use nf_bag::Row;
use nf_builtins::Natives;
use nf_graph::Port;
use nf_lowering::Lowering;
use nf_meaning::LowerFault;
use nf_scopes::Thing;
use nf_taken::Taken;
use nf_value::Place;
use nf_walked::Walker;

/// What an operator gives on the channel that the port reads, with what it took of its arguments (Nextflow reference
/// documentation, "Operators"). The call is counted. The operator's name stands at `place`.
///
/// # Errors
///
/// `Mem` for want of memory.
pub fn apply_taken<N: Natives>(
    walker: &Walker<'_, N>,
    state: &mut Lowering,
    place: Place,
    operator: Row,
    port: Port,
    taken: Taken,
) -> Result<Thing, LowerFault>
    requires before { CanWalk N.titles N.answer N.keeps walker.now state.old }
    requires reads { PortReads state.old.plan port }
    requires fits { TakenFits operator state.old.plan taken }
    requires count { takes_ports operator (1 + length taken.ports.items) ≡ true }
    requires room { HasRoom state.old.plan (1 + length taken.ports.items) }
    ensures { Used (Knows N.titles N.answer walker.now) 1 (1 + length taken.ports.items)
        (of_applied place operator port taken) state.old state.new result }
{
    let (call, labels) = taken.into_call(walker.alloc, place, operator, port)?;
    walker.operator(state, call, labels)
}
