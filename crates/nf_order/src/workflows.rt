//! Judges the bodies of workflows, with what they take and emit.

ghost use Rattle.std.specs.Prelude.{◌≡◌, ◌++◌, map, option_copied, IfOk, OnOk};
ghost use Rattle.nf_ast.specs.Tops.{maybe, view_emit, view_emits, view_take, view_workflow_body};
ghost use Rattle.nf_ast.specs.View.{names as names_tree, trees};
ghost use Rattle.nf_placed.specs.Body.{names_in};
ghost use Rattle.nf_slips.specs.Definitions.{emits_in, taken_by as taken_by_of, taken_in};
ghost use Rattle.nf_kinds.specs.Scope.{started};
ghost use Rattle.nf_order.specs.Accepted as spec;
ghost use Rattle.nf_order.specs.Memory.{run_in};
ghost use Rattle.nf_order.specs.Standing.{Gives, around_of, outputs_by, taken_kind};

use crate::around::{Around, State};
use crate::exprs::value;
use crate::stmts::body;
use nf_ast::{Emit, Emits, Take, WorkflowBody};
use nf_kinds::{BodyScope, Broken, Given, Kinds, Shape};
use nf_opkinds::shape_of;
use nf_slips::{name_of, read_form};
use nf_value::{Mem, Place, Txt};

/// What a workflow gives for its arguments. Adds the rules that it breaks.
#[cycle(judge)]
pub(crate) fn run(
    workflow: &WorkflowBody,
    args: &[Given],
    around: &Around<'_>,
    broken: &mut Vec<Broken>,
) -> Result<Shape, Mem>
    ensures gives { IfOk result (λ v. v ≡ (run_in around.now workflow.now args.now).gives) }
    ensures broken { OnOk result (broken.new.items ≡ broken.old.items
        ++ (run_in around.now workflow.now args.now).broken) }
{
    let scope = begun(workflow, args, around)?;
    let earlier = std::mem::replace(broken, Vec::new(around.alloc));
    let mut state = State {
        scope,
        broken: earlier,
    };
    let outputs = statements_and_emits(workflow, around, &mut state)?;
    let State {
        scope: _,
        broken: all,
    } = state;
    *broken = all;
    shape_of(around.alloc, &outputs)
}

/// The outputs of a workflow, after its statements.
#[cycle(judge)]
fn statements_and_emits(
    workflow: &WorkflowBody,
    around: &Around<'_>,
    state: &mut State,
) -> Result<Vec<(Option<Txt>, Kinds)>, Mem>
    ensures { IfOk result (λ v. Gives (outputs_by (around_of around.now) (view_workflow_body workflow.now))
        state.old v.items state.new) }
{
    match workflow {
        WorkflowBody::Statements(stmts) => {
            body(stmts, around, state)?;
            Ok(Vec::new(around.alloc))
        }
        WorkflowBody::Parts(parts) => {
            body(&parts.main.body, around, state)?;
            emits(&parts.emit, around, state)
        }
    }
}

/// The scope at the start of a workflow's body: the names that it takes.
fn begun(workflow: &WorkflowBody, args: &[Given], around: &Around<'_>) -> Result<BodyScope, Mem>
    ensures { IfOk result (λ s. s ≡ started (spec.taken_with (taken_by_of (view_workflow_body workflow.now)) args.now)) }
{
    let names = taken(workflow, args, around)?;
    BodyScope::started(around.alloc, names)
}

/// The names that a workflow takes, each with the argument at its place.
fn taken(
    workflow: &WorkflowBody,
    args: &[Given],
    around: &Around<'_>,
) -> Result<Vec<(Txt, Shape)>, Mem>
    ensures { IfOk result (λ v. v.items ≡ spec.taken_with (taken_by_of (view_workflow_body workflow.now)) args.now) }
{
    match workflow {
        WorkflowBody::Statements(_) => Ok(Vec::new(around.alloc)),
        WorkflowBody::Parts(parts) => taken_by(&parts.take, args, around),
    }
}

fn taken_by(
    take: &Option<Take>,
    args: &[Given],
    around: &Around<'_>,
) -> Result<Vec<(Txt, Shape)>, Mem>
    ensures { IfOk result (λ v. v.items ≡ spec.taken_with (taken_in (maybe view_take take.now)) args.now) }
{
    match take {
        Some(take) => taken_names(&take.names, args, around),
        None => Ok(Vec::new(around.alloc)),
    }
}

fn taken_names(
    names: &[(Place, Txt)],
    args: &[Given],
    around: &Around<'_>,
) -> Result<Vec<(Txt, Shape)>, Mem>
    ensures { IfOk result (λ v. v.items ≡ spec.taken_with (names_in (names_tree names.now)) args.now) }
{
    let mut taken = Vec::new(around.alloc);
    for (place, (_, name)) in names.iter().enumerate() {
        let kinds = taken_kinds(args.get(place));
        taken.push((name.copy()?, Shape::alone(kinds)))?;
    }
    Ok(taken)
}

/// What a name that is taken may be: a channel, or unknown without an argument.
fn taken_kinds(arg: Option<&Given>) -> Kinds
    ensures { result ≡ taken_kind (option_copied arg.entry) }
{
    match arg {
        Some(given) => given.shape.kinds().as_channel(),
        None => Kinds::unknown(),
    }
}

/// What is emitted, each with its name if it has one.
#[cycle(judge)]
fn emits(
    emits: &Option<Emits>,
    around: &Around<'_>,
    state: &mut State,
) -> Result<Vec<(Option<Txt>, Kinds)>, Mem>
    ensures { IfOk result (λ v. Gives (spec.emitted (around_of around.now) (emits_in (maybe view_emits emits.now)))
        state.old v.items state.new) }
{
    match emits {
        Some(section) => each_emit(&section.emits, around, state),
        None => Ok(Vec::new(around.alloc)),
    }
}

#[cycle(judge)]
fn each_emit(
    emits: &[Emit],
    around: &Around<'_>,
    state: &mut State,
) -> Result<Vec<(Option<Txt>, Kinds)>, Mem>
    ensures { IfOk result (λ v. Gives (spec.emitted (around_of around.now) (trees (map view_emit emits.now)))
        state.old v.items state.new) }
{
    let mut outputs = Vec::new(around.alloc);
    for one in emits {
        let output = emit(one, around, state)?;
        outputs.push(output)?;
    }
    Ok(outputs)
}

#[cycle(judge)]
fn emit(emit: &Emit, around: &Around<'_>, state: &mut State) -> Result<(Option<Txt>, Kinds), Mem>
    ensures { IfOk result (λ v. Gives (spec.emitted_one (around_of around.now) (view_emit emit.now))
        state.old v state.new) }
{
    match emit {
        Emit::Named(_, name, expr) => {
            let shape = value(expr, around, state)?;
            Ok((Some(name.copy()?), shape.kinds().as_channel()))
        }
        Emit::Alone(expr) => {
            let shape = value(expr, around, state)?;
            Ok((name_of(read_form(expr))?, shape.kinds().as_channel()))
        }
    }
}
