//! The bodies of workflows, with what they take and emit.

ghost use Rattle.std.specs.Prelude.{◌≡◌, [], IfOk};
ghost use Rattle.nf_ast.specs.Tops.{maybe, view_emit, view_emits, view_workflow_body};
ghost use Rattle.nf_ast.specs.View.{view};
ghost use Rattle.nf_walked.specs.Emits.{emit_after, emitted_thing};
ghost use Rattle.nf_takes.specs.Takes.{labels_of};
ghost use Rattle.nf_meaning.specs.Script as meaning;
ghost use Rattle.nf_walked.specs.Around.{CanWalk, Knows};
ghost use Rattle.nf_walked.specs.Forms.{a_port, an_output, outputs};
ghost use Rattle.nf_walked.specs.Steps.{Walked, due};

use crate::body::statements;
use crate::things::thing;
use nf_ast::{Emit, Emits, Expr, WorkflowBody};
use nf_builtins::Natives;
use nf_fronts::Front;
use nf_graph::Port;
use nf_leading::has_no_file;
use nf_lowered::begins_at;
use nf_lowering::Lowering;
use nf_meaning::LowerFault;
use nf_scopes::CallOutput;
use nf_takes::{check_label, check_taken, copy_name, emit_parts, names_taken};
use nf_walked::Walker;

/// What a workflow's body emits.
#[cycle(lower)]
pub(crate) fn workflow<N: Natives>(
    walker: &Walker<'_, N>,
    state: &mut Lowering,
    body: &WorkflowBody,
) -> Result<Vec<CallOutput>, LowerFault>
    requires { CanWalk N.titles N.answer N.keeps walker.now state.old }
    ensures { Walked (Knows N.titles N.answer walker.now)
        (due outputs (meaning.workflow_walk (view_workflow_body body.now))) state.old state.new result }
{
    match body {
        WorkflowBody::Statements(stmts) => {
            statements(walker, state, stmts)?;
            Ok(Vec::new(walker.alloc))
        }
        WorkflowBody::Parts(parts) => {
            check_taken(names_taken(body))?;
            statements(walker, state, &parts.main.body)?;
            all_emitted(walker, state, &parts.emit)
        }
    }
}

#[cycle(lower)]
fn all_emitted<N: Natives>(
    walker: &Walker<'_, N>,
    state: &mut Lowering,
    emits: &Option<Emits>,
) -> Result<Vec<CallOutput>, LowerFault>
    requires { CanWalk N.titles N.answer N.keeps walker.now state.old }
    ensures { Walked (Knows N.titles N.answer walker.now)
        (due outputs (meaning.emits_of [] (maybe view_emits emits.now))) state.old state.new result }
{
    let mut outputs: Vec<CallOutput> = Vec::new(walker.alloc);
    let Some(section) = emits else {
        return Ok(outputs);
    };
    for emit in &section.emits {
        let output = one_emitted(walker, state, emit, &outputs)?;
        outputs.push(output)?;
    }
    Ok(outputs)
}

/// What is emitted after these.
#[cycle(lower)]
fn one_emitted<N: Natives>(
    walker: &Walker<'_, N>,
    state: &mut Lowering,
    emit: &Emit,
    before: &[CallOutput],
) -> Result<CallOutput, LowerFault>
    requires { CanWalk N.titles N.answer N.keeps walker.now state.old }
    ensures walk { Walked (Knows N.titles N.answer walker.now)
        (due an_output (emit_after (labels_of before.now) (view_emit emit.now))) state.old state.new result }
    ensures label { IfOk result (λ o. o.label ≡ meaning.label_of (meaning.emit_label (view_emit emit.now))) }
{
    let (label, expr) = emit_parts(emit);
    check_label(before, label)?;
    let port = emitted_channel(walker, state, expr)?;
    let label = copy_name(label)?;
    Ok(CallOutput { label, port })
}

/// What an expression stands for, as a channel that is emitted: a value that holds a file is none.
#[cycle(lower)]
fn emitted_channel<N: Natives>(
    walker: &Walker<'_, N>,
    state: &mut Lowering,
    expr: &Expr,
) -> Result<Port, LowerFault>
    requires { CanWalk N.titles N.answer N.keeps walker.now state.old }
    ensures { Walked (Knows N.titles N.answer walker.now) (due a_port (emitted_thing (view expr.now)))
        state.old state.new result }
{
    let begin = begins_at(expr);
    let thing = thing(walker, state, Front::Whole(expr))?;
    has_no_file(begin, &thing)?;
    walker.channel(state, begin, thing)
}
