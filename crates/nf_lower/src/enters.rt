//! The body of a workflow that is called.

ghost use Rattle.std.specs.Prelude.{◌≡◌, Some};
ghost use Rattle.nf_ast.specs.Tops.{view_workflow};
ghost use Rattle.nf_callees.specs.Found.{defined_in};
ghost use Rattle.nf_calling.specs.Goes.{GoesInto, HasBegun, WalkedAs};
ghost use Rattle.nf_meaning.specs.Calls.{entered};
ghost use Rattle.nf_meaning.specs.Given.{tree_named};
ghost use Rattle.nf_plan.specs.Plans.{ReadPlan};
ghost use Rattle.nf_walked.specs.Around.{CanWalk, Knows};
ghost use Rattle.nf_walked.specs.Forms.{outputs, ports as read};
ghost use Rattle.nf_walked.specs.Steps.{from};

use crate::workflows::workflow;
use nf_ast::Workflow;
use nf_builtins::Natives;
use nf_follows::laws::plans_extend;
use nf_graph::Port;
use nf_lowering::Lowering;
use nf_meaning::LowerFault;
use nf_meaning::laws::paths_stay_apart;
use nf_scopes::CallOutput;
use nf_takes::{bound, names_taken};
use nf_value::Place;
use nf_walked::Walker;

/// What a workflow emits that is called here with these channels, as many as it takes. `place` is that of its name
/// where it is called.
#[cycle(lower)]
pub(crate) fn enter<N: Natives>(
    walker: &Walker<'_, N>,
    state: &mut Lowering,
    place: Place,
    name: &str,
    called: &Workflow,
    ports: Vec<Port>,
) -> Result<Vec<CallOutput>, LowerFault>
    requires before { CanWalk N.titles N.answer N.keeps walker.now state.old }
    requires begun { HasBegun name.now state.old }
    requires reads { ReadPlan state.old.plan ports.items }
    requires defined { tree_named name.now (defined_in walker.now.definitions.now).workflows
        ≡ Some (view_workflow called.now) }
    ensures { WalkedAs (GoesInto name.now) (Knows N.titles N.answer walker.now)
        (from read ports outputs (entered place name.now (view_workflow called.now))) state.old state.new result }
{
    paths_stay_apart();
    plans_extend();
    if walker.left == 0 {
        return Err(LowerFault::CallCycle { place });
    }
    let inner = Walker {
        alloc: walker.alloc,
        definitions: walker.definitions,
        around: walker.around,
        found: walker.found,
        left: walker.left - 1,
    };
    let names = bound(walker.alloc, names_taken(&called.body), &ports)?;
    let outer = state.enter_workflow(walker.alloc, name, names)?;
    let outputs = workflow(&inner, state, &called.body)?;
    state.leave_workflow(outer);
    Ok(outputs)
}
