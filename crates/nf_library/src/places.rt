//! The places of a script where patterns stand.

ghost use Rattle.std.specs.Prelude.{OnOk};
ghost use Rattle.nf_ast.specs.Tops.{maybe, view_directive, view_emit, view_emits, view_output, view_output_part, view_output_value, view_outputs, view_process, view_task, view_top, view_workflow_body};
ghost use Rattle.nf_ast.specs.View.{view, view_arg, view_label, view_stmts};
ghost use Rattle.nf_meaning.specs.Script.{statements_in};
ghost use Rattle.nf_library.specs.Patterns.{directive_patterns, emits_patterns, in_row, output_patterns, outputs_patterns, part_patterns, patterns_in, top_patterns, value_patterns, workflow_patterns};
ghost use Rattle.nf_library.specs.Shelves.{Adds};

use crate::shelf::Shelf;
use nf_ast::{
    Arg, Directive, Emit, Emits, Expr, Label, Output, OutputPart, OutputValue, Outputs, Process,
    Stmt, Task, Top, WorkflowBody,
};
use nf_fronts::Front;
use nf_names_used::{expr_uses, stmts_uses};
use nf_value::Mem;
use std::alloc::Global;

/// Adds the patterns that stand in a script.
pub(crate) fn add_tops(alloc: Global, tops: &[Top], shelf: &mut Shelf) -> Result<(), Mem>
    ensures { OnOk result (Adds (in_row view_top top_patterns tops.now) shelf.old shelf.new) }
{
    for top in tops {
        add_top(alloc, top, shelf)?;
    }
    Ok(())
}

fn add_top(alloc: Global, top: &Top, shelf: &mut Shelf) -> Result<(), Mem>
    ensures { OnOk result (Adds (top_patterns (view_top top.now)) shelf.old shelf.new) }
{
    match top {
        Top::Process(process) => add_process(alloc, process, shelf),
        Top::Workflow(workflow) => add_workflow(alloc, &workflow.body, shelf),
        Top::Function(function) => add_stmts(alloc, &function.body, shelf),
        Top::Parameter(parameter) => add_expr(alloc, &parameter.value, shelf),
        Top::Println(_, expr) => add_expr(alloc, expr, shelf),
        Top::Log(_, _, _, expr) => add_expr(alloc, expr, shelf),
        Top::Dsl(_) => Ok(()),
    }
}

fn add_expr(alloc: Global, expr: &Expr, shelf: &mut Shelf) -> Result<(), Mem>
    ensures { OnOk result (Adds (patterns_in (view expr.now)) shelf.old shelf.new) }
{
    let uses = expr_uses(alloc, expr)?;
    shelf.add_uses(alloc, &uses)
}

fn add_stmts(alloc: Global, stmts: &[Stmt], shelf: &mut Shelf) -> Result<(), Mem>
    ensures { OnOk result (Adds (patterns_in (view_stmts stmts.now)) shelf.old shelf.new) }
{
    let uses = stmts_uses(alloc, stmts)?;
    shelf.add_uses(alloc, &uses)
}

fn add_workflow(alloc: Global, body: &WorkflowBody, shelf: &mut Shelf) -> Result<(), Mem>
    ensures { OnOk result (Adds (workflow_patterns (view_workflow_body body.now)) shelf.old shelf.new) }
{
    match body {
        WorkflowBody::Statements(stmts) => add_stmts(alloc, stmts, shelf),
        WorkflowBody::Parts(parts) => {
            add_stmts(alloc, &parts.main.body, shelf)?;
            add_emits(alloc, &parts.emit, shelf)
        }
    }
}

fn add_emits(alloc: Global, section: &Option<Emits>, shelf: &mut Shelf) -> Result<(), Mem>
    ensures { OnOk result (Adds (emits_patterns (maybe view_emits section.now)) shelf.old shelf.new) }
{
    match section {
        Some(section) => add_each_emit(alloc, &section.emits, shelf),
        None => Ok(()),
    }
}

fn add_each_emit(alloc: Global, emits: &[Emit], shelf: &mut Shelf) -> Result<(), Mem>
    ensures { OnOk result (Adds (in_row view_emit patterns_in emits.now) shelf.old shelf.new) }
{
    for emit in emits {
        add_emit(alloc, emit, shelf)?;
    }
    Ok(())
}

fn add_emit(alloc: Global, emit: &Emit, shelf: &mut Shelf) -> Result<(), Mem>
    ensures { OnOk result (Adds (patterns_in (view_emit emit.now)) shelf.old shelf.new) }
{
    match emit {
        Emit::Named(_, _, expr) => add_expr(alloc, expr, shelf),
        Emit::Alone(expr) => add_expr(alloc, expr, shelf),
    }
}

fn add_process(alloc: Global, process: &Process, shelf: &mut Shelf) -> Result<(), Mem>
    ensures { OnOk result (Adds (top_patterns (view_process process.now)) shelf.old shelf.new) }
{
    add_directives(alloc, &process.directives, shelf)?;
    add_outputs(alloc, &process.outputs, shelf)?;
    add_task(alloc, &process.task, shelf)
}

fn add_directives(alloc: Global, directives: &[Directive], shelf: &mut Shelf) -> Result<(), Mem>
    ensures { OnOk result (Adds (in_row view_directive directive_patterns directives.now) shelf.old shelf.new) }
{
    for directive in directives {
        add_directive(alloc, directive, shelf)?;
    }
    Ok(())
}

fn add_directive(alloc: Global, directive: &Directive, shelf: &mut Shelf) -> Result<(), Mem>
    ensures { OnOk result (Adds (directive_patterns (view_directive directive.now)) shelf.old shelf.new) }
{
    add_args(alloc, &directive.args, shelf)
}

fn add_args(alloc: Global, args: &[Arg], shelf: &mut Shelf) -> Result<(), Mem>
    ensures { OnOk result (Adds (in_row view_arg patterns_in args.now) shelf.old shelf.new) }
{
    for arg in args {
        add_arg(alloc, arg, shelf)?;
    }
    Ok(())
}

fn add_arg(alloc: Global, arg: &Arg, shelf: &mut Shelf) -> Result<(), Mem>
    ensures { OnOk result (Adds (patterns_in (view_arg arg.now)) shelf.old shelf.new) }
{
    add_expr(alloc, &arg.value, shelf)
}

fn add_outputs(alloc: Global, section: &Option<Outputs>, shelf: &mut Shelf) -> Result<(), Mem>
    ensures { OnOk result (Adds (outputs_patterns (maybe view_outputs section.now)) shelf.old shelf.new) }
{
    match section {
        Some(section) => add_each_output(alloc, &section.outputs, shelf),
        None => Ok(()),
    }
}

fn add_each_output(alloc: Global, outputs: &[Output], shelf: &mut Shelf) -> Result<(), Mem>
    ensures { OnOk result (Adds (in_row view_output output_patterns outputs.now) shelf.old shelf.new) }
{
    for output in outputs {
        add_output(alloc, output, shelf)?;
    }
    Ok(())
}

fn add_output(alloc: Global, output: &Output, shelf: &mut Shelf) -> Result<(), Mem>
    ensures { OnOk result (Adds (output_patterns (view_output output.now)) shelf.old shelf.new) }
{
    add_value(alloc, &output.value, shelf)?;
    add_options(alloc, &output.options, shelf)
}

fn add_value(alloc: Global, value: &OutputValue, shelf: &mut Shelf) -> Result<(), Mem>
    ensures { OnOk result (Adds (value_patterns (view_output_value value.now)) shelf.old shelf.new) }
{
    match value {
        OutputValue::One(part) => add_part(alloc, part, shelf),
        OutputValue::Tuple(_, parts) => add_parts(alloc, parts, shelf),
    }
}

fn add_parts(alloc: Global, parts: &[OutputPart], shelf: &mut Shelf) -> Result<(), Mem>
    ensures { OnOk result (Adds (in_row view_output_part part_patterns parts.now) shelf.old shelf.new) }
{
    for part in parts {
        add_part(alloc, part, shelf)?;
    }
    Ok(())
}

fn add_part(alloc: Global, part: &OutputPart, shelf: &mut Shelf) -> Result<(), Mem>
    ensures { OnOk result (Adds (part_patterns (view_output_part part.now)) shelf.old shelf.new) }
{
    match part {
        OutputPart::Val(_, expr) => add_expr(alloc, expr, shelf),
        OutputPart::Path(_, expr) => add_expr(alloc, expr, shelf),
        OutputPart::Stdout(_) => Ok(()),
    }
}

fn add_options(alloc: Global, options: &[Label], shelf: &mut Shelf) -> Result<(), Mem>
    ensures { OnOk result (Adds (in_row view_label patterns_in options.now) shelf.old shelf.new) }
{
    for option in options {
        add_option(alloc, option, shelf)?;
    }
    Ok(())
}

fn add_option(alloc: Global, option: &Label, shelf: &mut Shelf) -> Result<(), Mem>
    ensures { OnOk result (Adds (patterns_in (view_label option.now)) shelf.old shelf.new) }
{
    add_expr(alloc, &option.value, shelf)
}

fn add_task(alloc: Global, task: &Task, shelf: &mut Shelf) -> Result<(), Mem>
    ensures { OnOk result (Adds (patterns_in (statements_in (view_task task.now))) shelf.old shelf.new) }
{
    match task {
        Task::Script(section) => add_stmts(alloc, &section.body, shelf),
        Task::Text(expr) => add_text(alloc, expr, shelf),
    }
}

/// A task that is one expression, which is no section.
fn add_text(alloc: Global, expr: &Expr, shelf: &mut Shelf) -> Result<(), Mem>
    ensures { OnOk result (Adds (patterns_in (statements_in (view expr.now))) shelf.old shelf.new) }
{
    let _last = Front::Whole(expr).last();
    add_expr(alloc, expr, shelf)
}
