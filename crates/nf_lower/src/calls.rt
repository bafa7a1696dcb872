//! Calls by name: of processes, workflows, operators and `file`.

ghost use Rattle.std.specs.Prelude.{◌≡◌, Some, true};
ghost use Rattle.nf_ast.specs.Tops.{view_process, view_workflow};
ghost use Rattle.nf_meaning.specs.CallPaths.{is_plain_name};
ghost use Rattle.nf_callees.specs.Found.{defined_in};
ghost use Rattle.nf_meaning.specs.Calls as meaning;
ghost use Rattle.nf_meaning.specs.Given.{tree_named};
ghost use Rattle.nf_walked.specs.Args.{ArgsRead};
ghost use Rattle.nf_walked.specs.Around.{CanWalk, Knows};
ghost use Rattle.nf_walked.specs.Forms.{a_thing};
ghost use Rattle.nf_walked.specs.Parts.{of_args};
ghost use Rattle.nf_walked.specs.Steps.{Walked};

use crate::args::channel_args;
use crate::enters::enter;
use crate::operators::operator_on;
use crate::sources::file_call;
use nf_arguments::Args;
use nf_ast::{Process, Workflow};
use nf_builtins::Natives;
use nf_callees::Callee;
use nf_calling::laws::calls_last;
use nf_calling::{
    arg_count, begin_process, begin_workflow, call_process, called_here, check_process,
    check_workflow,
};
use nf_lowering::Lowering;
use nf_meaning::LowerFault;
use nf_scopes::Thing;
use nf_value::{Place, Txt};
use nf_walked::{Walker, bad_option};

/// A call by name.
#[cycle(lower)]
pub(crate) fn named_call<N: Natives>(
    walker: &Walker<'_, N>,
    state: &mut Lowering,
    place: Place,
    name: &Txt,
    args: Args<'_>,
) -> Result<Thing, LowerFault>
    requires before { CanWalk N.titles N.answer N.keeps walker.now state.old }
    requires reads { ArgsRead state.old.plan args }
    ensures { Walked (Knows N.titles N.answer walker.now) (of_args args.entry a_thing
        (meaning.named_call place name.now)) state.old state.new result }
{
    let text = name.as_str();
    match walker.callee(text) {
        Callee::Process(process) => process_call(walker, state, place, text, process, args),
        Callee::Workflow(workflow) => workflow_call(walker, state, place, text, workflow, args),
        Callee::Operator(row) => operator_on(walker, state, place, row, args),
        Callee::File => file_call(walker, state, place, args),
        Callee::Function => bad_option(place),
        Callee::Unknown => Err(LowerFault::UnknownName { place }),
    }
}

/// First the name of a process, then its arguments, then its definition.
#[cycle(lower)]
fn process_call<N: Natives>(
    walker: &Walker<'_, N>,
    state: &mut Lowering,
    place: Place,
    name: &str,
    process: &Process,
    args: Args<'_>,
) -> Result<Thing, LowerFault>
    requires before { CanWalk N.titles N.answer N.keeps walker.now state.old }
    requires reads { ArgsRead state.old.plan args }
    requires plain { is_plain_name name.now ≡ true }
    ensures { Walked (Knows N.titles N.answer walker.now) (of_args args.entry a_thing
        (meaning.process_call place name.now (view_process process.now))) state.old state.new result }
{
    calls_last();
    check_process(state, place, name, process, &args)?;
    let count = arg_count(&args);
    begin_process(walker, state, place, name, count)?;
    let ports = channel_args(walker, state, args)?;
    call_process(walker, state, place, name, process, ports)
}

/// First the name of a workflow, then its arguments, then its body.
#[cycle(lower)]
fn workflow_call<N: Natives>(
    walker: &Walker<'_, N>,
    state: &mut Lowering,
    place: Place,
    name: &str,
    workflow: &Workflow,
    args: Args<'_>,
) -> Result<Thing, LowerFault>
    requires before { CanWalk N.titles N.answer N.keeps walker.now state.old }
    requires reads { ArgsRead state.old.plan args }
    requires plain { is_plain_name name.now ≡ true }
    requires defined { tree_named name.now (defined_in walker.now.definitions.now).workflows
        ≡ Some (view_workflow workflow.now) }
    ensures { Walked (Knows N.titles N.answer walker.now) (of_args args.entry a_thing
        (meaning.workflow_call place name.now (view_workflow workflow.now))) state.old state.new result }
{
    calls_last();
    check_workflow(state, place, name, workflow, &args)?;
    begin_workflow(walker, state, name)?;
    let ports = channel_args(walker, state, args)?;
    let outputs = enter(walker, state, place, name, workflow, ports)?;
    called_here(walker, state, name, outputs)
}
