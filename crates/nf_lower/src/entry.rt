//! The plan of a script's entry.

ghost use Rattle.std.specs.Prelude.{Some, map};
ghost use Rattle.nf_ast.specs.Tops.{view_top, view_workflow_body};
ghost use Rattle.nf_ast.specs.View.{trees};
ghost use Rattle.nf_meaning.specs.Script.{entry_in, entry_walk};
ghost use Rattle.nf_lowering.specs.State.{IsLowering};
ghost use Rattle.nf_lowering.specs.declared.state.Lowering.{Lowering};
ghost use Rattle.nf_walked.specs.Around.{CanWalk, Knows};
ghost use Rattle.nf_walked.specs.Forms.{outputs};
ghost use Rattle.nf_walked.specs.Steps.{Walked, due};
ghost use Rattle.nf_lower.specs.Entry.{Plans};

use crate::workflows::workflow;
use nf_ast::{Top, WorkflowBody};
use nf_builtins::Natives;
use nf_lowering::Lowering;
use nf_meaning::LowerFault;
use nf_plan::Plan;
use nf_plan::laws::plans_mean;
use nf_scopes::CallOutput;
use nf_tops::{check_entry, entry_of};
use nf_value::Place;
use nf_walked::Walker;

/// The plan of the workflow without a name.
pub(crate) fn plan_of<N: Natives>(walker: &Walker<'_, N>, tops: &[Top]) -> Result<Plan, LowerFault>
    requires { (z : Lowering) → IsLowering z → CanWalk N.titles N.answer N.keeps walker.now z }
    ensures { Plans (Knows N.titles N.answer walker.now) (entry_walk (entry_in (trees (map view_top tops.now)))) result }
{
    plans_mean();
    let mut state = Lowering::new(walker.alloc);
    entry(walker, &mut state, tops)?;
    Ok(state.into_plan())
}

/// What the workflow without a name emits, which nothing takes.
fn entry<N: Natives>(
    walker: &Walker<'_, N>,
    state: &mut Lowering,
    tops: &[Top],
) -> Result<Vec<CallOutput>, LowerFault>
    requires { CanWalk N.titles N.answer N.keeps walker.now state.old }
    ensures { Walked (Knows N.titles N.answer walker.now)
        (due outputs (entry_walk (entry_in (trees (map view_top tops.now))))) state.old state.new result }
{
    match entry_of(tops) {
        Some(body) => entered(walker, state, body),
        None => Err(LowerFault::NoEntry {
            place: Place { line: 1, col: 1 },
        }),
    }
}

/// Nothing calls it, so it takes no channel.
fn entered<N: Natives>(
    walker: &Walker<'_, N>,
    state: &mut Lowering,
    body: &WorkflowBody,
) -> Result<Vec<CallOutput>, LowerFault>
    requires { CanWalk N.titles N.answer N.keeps walker.now state.old }
    ensures { Walked (Knows N.titles N.answer walker.now)
        (due outputs (entry_walk (Some (view_workflow_body body.now)))) state.old state.new result }
{
    check_entry(body)?;
    workflow(walker, state, body)
}
