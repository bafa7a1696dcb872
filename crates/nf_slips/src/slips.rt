//! Finds what a process shares with others: names that its closures assign to, and what `task` tells of the run.

ghost use Rattle.std.specs.Prelude.{◌≡◌, ◌++◌, map, OnOk};
ghost use Rattle.nf_ast.specs.Tops.{maybe, view_directive, view_output, view_output_part, view_output_value, view_outputs, view_process, view_task};
ghost use Rattle.nf_ast.specs.View.{view, views, view_arg, view_arm, view_body, view_branch, view_closure, view_label, view_operand, view_pair, view_piece, view_postfix, view_stmt, view_stmts, trees};
ghost use Rattle.nf_names_used.specs.Uses.{uses, no_names};
ghost use Rattle.nf_slips.specs.Closures.{shared_by};
ghost use Rattle.nf_slips.specs.Memory.{view_form};
ghost use Rattle.nf_slips.specs.Slips as spec;

use crate::forms::{Form, read_form};
use nf_ast::{
    Arg, Arm, Branch, ClosureBody, ClosureExpr, Directive, Expr, Fragment, Label, Operand, Output,
    OutputPart, OutputValue, Outputs, Pair, Postfix, Process, Stmt, Task,
};
use nf_kinds::{Broken, OrderRule};
use nf_names_used::{Use, UseKind, closure_uses, expr_uses};
use nf_value::{Mem, Place, Txt};
use std::alloc::Global;

// ---- processes

/// Adds what a process breaks: each assignment in a closure to a name that isn't the closure's own, and each read of
/// `task.index`, `task.hash` and `task.workDir` (own). All its text counts but its stub, which isn't run.
///
/// # Errors
///
/// `Mem` where there is no memory for it.
pub fn add_process(alloc: Global, process: &Process, out: &mut Vec<Broken>) -> Result<(), Mem>
    ensures { OnOk result (out.new.items ≡ out.old.items ++ spec.slips (view_process process.now)) }
{
    for directive in &process.directives {
        add_args(alloc, &directive.args, out)?;
    }
    if let Some(outputs) = &process.outputs {
        add_outputs(alloc, outputs, out)?;
    }
    add_task(alloc, &process.task, out)
}

fn add_outputs(alloc: Global, outputs: &Outputs, out: &mut Vec<Broken>) -> Result<(), Mem>
    ensures { OnOk result (out.new.items ≡ out.old.items ++ spec.slips (view_outputs outputs.now)) }
{
    for output in &outputs.outputs {
        add_output(alloc, output, out)?;
    }
    Ok(())
}

fn add_output(alloc: Global, output: &Output, out: &mut Vec<Broken>) -> Result<(), Mem>
    ensures { OnOk result (out.new.items ≡ out.old.items ++ spec.slips (view_output output.now)) }
{
    add_output_value(alloc, &output.value, out)?;
    add_labels(alloc, &output.options, out)
}

fn add_output_value(alloc: Global, value: &OutputValue, out: &mut Vec<Broken>) -> Result<(), Mem>
    ensures { OnOk result (out.new.items ≡ out.old.items ++ spec.slips (view_output_value value.now)) }
{
    match value {
        OutputValue::One(part) => add_output_part(alloc, part, out),
        OutputValue::Tuple(_, parts) => add_output_parts(alloc, parts, out),
    }
}

fn add_output_parts(alloc: Global, parts: &[OutputPart], out: &mut Vec<Broken>) -> Result<(), Mem>
    ensures { OnOk result (out.new.items ≡ out.old.items ++ spec.slips (trees (map view_output_part parts.now))) }
{
    for part in parts {
        add_output_part(alloc, part, out)?;
    }
    Ok(())
}

fn add_output_part(alloc: Global, part: &OutputPart, out: &mut Vec<Broken>) -> Result<(), Mem>
    ensures { OnOk result (out.new.items ≡ out.old.items ++ spec.slips (view_output_part part.now)) }
{
    match part {
        OutputPart::Val(_, expr) | OutputPart::Path(_, expr) => add_expr(alloc, expr, out),
        OutputPart::Stdout(_) => Ok(()),
    }
}

fn add_task(alloc: Global, task: &Task, out: &mut Vec<Broken>) -> Result<(), Mem>
    ensures { OnOk result (out.new.items ≡ out.old.items ++ spec.slips (view_task task.now)) }
{
    match task {
        Task::Script(section) => add_stmts(alloc, &section.body, out),
        Task::Text(expr) => add_expr(alloc, expr, out),
    }
}

// ---- expressions

#[cycle(slips)]
fn add_expr(alloc: Global, expr: &Expr, out: &mut Vec<Broken>) -> Result<(), Mem>
    ensures { OnOk result (out.new.items ≡ out.old.items ++ spec.slips (view expr.now)) }
{
    match expr {
        Expr::Number(_, _)
        | Expr::Text(_, _, _)
        | Expr::Pattern(_, _)
        | Expr::Truth(_, _)
        | Expr::Null(_)
        | Expr::Name(_, _) => Ok(()),
        Expr::Template(_, _, pieces) => add_fragments(alloc, pieces, out),
        Expr::List(_, items) => add_exprs(alloc, items, out),
        Expr::Map(_, pairs) => add_pairs(alloc, pairs, out),
        Expr::Closure(closure) => add_closure(alloc, closure, out),
        Expr::Prefix(_, of) => add_expr(alloc, of, out),
        Expr::Infix(first, rest) => {
            add_expr(alloc, first, out)?;
            add_operands(alloc, rest, out)
        }
        Expr::Conditional(first, rest) => {
            add_expr(alloc, first, out)?;
            add_branches(alloc, rest, out)
        }
        Expr::Postfix(first, rest) => {
            add_expr(alloc, first, out)?;
            add_parts(alloc, read_form(first), rest, out)
        }
    }
}

#[cycle(slips)]
fn add_exprs(alloc: Global, items: &[Expr], out: &mut Vec<Broken>) -> Result<(), Mem>
    ensures { OnOk result (out.new.items ≡ out.old.items ++ spec.slips (views items.now)) }
{
    for item in items {
        add_expr(alloc, item, out)?;
    }
    Ok(())
}

#[cycle(slips)]
fn add_fragments(alloc: Global, pieces: &[Fragment], out: &mut Vec<Broken>) -> Result<(), Mem>
    ensures { OnOk result (out.new.items ≡ out.old.items ++ spec.slips (trees (map view_piece pieces.now))) }
{
    for piece in pieces {
        add_fragment(alloc, piece, out)?;
    }
    Ok(())
}

#[cycle(slips)]
fn add_fragment(alloc: Global, piece: &Fragment, out: &mut Vec<Broken>) -> Result<(), Mem>
    ensures { OnOk result (out.new.items ≡ out.old.items ++ spec.slips (view_piece piece.now)) }
{
    match piece {
        Fragment::Plain(_, _) => Ok(()),
        Fragment::Hole(_, expr) => add_expr(alloc, expr, out),
    }
}

#[cycle(slips)]
fn add_pairs(alloc: Global, pairs: &[Pair], out: &mut Vec<Broken>) -> Result<(), Mem>
    ensures { OnOk result (out.new.items ≡ out.old.items ++ spec.slips (trees (map view_pair pairs.now))) }
{
    for pair in pairs {
        add_expr(alloc, &pair.value, out)?;
    }
    Ok(())
}

#[cycle(slips)]
fn add_operands(alloc: Global, rest: &[Operand], out: &mut Vec<Broken>) -> Result<(), Mem>
    ensures { OnOk result (out.new.items ≡ out.old.items ++ spec.operands_slips (map view_operand rest.now)) }
{
    for operand in rest {
        add_expr(alloc, &operand.expr, out)?;
    }
    Ok(())
}

#[cycle(slips)]
fn add_branches(alloc: Global, rest: &[Branch], out: &mut Vec<Broken>) -> Result<(), Mem>
    ensures { OnOk result (out.new.items ≡ out.old.items ++ spec.branches_slips (map view_branch rest.now)) }
{
    for branch in rest {
        add_expr(alloc, &branch.expr, out)?;
    }
    Ok(())
}

/// Adds what parts after an expression break.
#[cycle(slips)]
fn add_parts(
    alloc: Global,
    head: Form<'_>,
    rest: &[Postfix],
    out: &mut Vec<Broken>,
) -> Result<(), Mem>
    ensures { OnOk result (out.new.items ≡ out.old.items
        ++ spec.parts_slips (view_form head.entry) (map view_postfix rest.now)) }
{
    let mut before = head;
    for part in rest {
        add_part(alloc, before, part, out)?;
        before = Form::Other;
    }
    Ok(())
}

#[cycle(slips)]
fn add_part(
    alloc: Global,
    before: Form<'_>,
    part: &Postfix,
    out: &mut Vec<Broken>,
) -> Result<(), Mem>
    ensures { OnOk result (out.new.items ≡ out.old.items
        ++ spec.part_slips_of (view_form before.entry) (view_postfix part.now)) }
{
    match part {
        Postfix::Property(_, name) | Postfix::SafeProperty(_, name) => {
            add_read(before, name.as_str(), out)
        }
        Postfix::Index(_, index) => add_expr(alloc, index, out),
        Postfix::Call(_, args) => add_args(alloc, args, out),
        Postfix::With(closure) => add_closure(alloc, closure, out),
    }
}

/// Adds a read of what `task` tells of the run.
fn add_read(before: Form<'_>, name: &str, out: &mut Vec<Broken>) -> Result<(), Mem>
    ensures { OnOk result (out.new.items ≡ out.old.items ++ spec.read_of (view_form before.entry) name.now) }
{
    if let Form::Name(place, object) = before {
        if object.as_str() == "task" && is_of_the_run(name) {
            let rule = OrderRule::SharedState;
            out.push(Broken { rule, place })?;
        }
    }
    Ok(())
}

fn is_of_the_run(name: &str) -> bool
    ensures { result ≡ spec.is_of_the_run name.now }
{
    name == "index" || name == "hash" || name == "workDir"
}

#[cycle(slips)]
fn add_args(alloc: Global, args: &[Arg], out: &mut Vec<Broken>) -> Result<(), Mem>
    ensures { OnOk result (out.new.items ≡ out.old.items ++ spec.slips (trees (map view_arg args.now))) }
{
    for arg in args {
        add_expr(alloc, &arg.value, out)?;
    }
    Ok(())
}

#[cycle(slips)]
fn add_closure(alloc: Global, closure: &ClosureExpr, out: &mut Vec<Broken>) -> Result<(), Mem>
    ensures { OnOk result (out.new.items ≡ out.old.items ++ spec.slips (view_closure closure.now)) }
{
    add_shared(alloc, closure, out)?;
    match &closure.body {
        ClosureBody::Statements(stmts) => add_stmts(alloc, stmts, out),
        ClosureBody::Labels(labels) => add_labels(alloc, labels, out),
    }
}

/// Adds each assignment of a closure to a name that isn't its own (own).
///
/// # Errors
///
/// `Mem` where there is no memory for it.
pub fn add_shared(alloc: Global, closure: &ClosureExpr, out: &mut Vec<Broken>) -> Result<(), Mem>
    ensures { OnOk result (out.new.items ≡ out.old.items ++ shared_by (uses (view_closure closure.now) no_names)) }
{
    let uses = closure_uses(alloc, closure)?;
    add_assigned(&uses, out)
}

/// Adds each assignment of an expression's closures to a name that isn't their own (own).
///
/// # Errors
///
/// `Mem` where there is no memory for it.
pub fn add_shared_in(alloc: Global, expr: &Expr, out: &mut Vec<Broken>) -> Result<(), Mem>
    ensures { OnOk result (out.new.items ≡ out.old.items ++ shared_by (uses (view expr.now) no_names)) }
{
    let uses = expr_uses(alloc, expr)?;
    add_assigned(&uses, out)
}

pub(crate) fn add_assigned(uses: &[Use], out: &mut Vec<Broken>) -> Result<(), Mem>
    ensures { OnOk result (out.new.items ≡ out.old.items ++ shared_by uses.now) }
{
    for one in uses {
        if matches!(one.kind, UseKind::Assigned) {
            let rule = OrderRule::SharedState;
            let place = one.place;
            out.push(Broken { rule, place })?;
        }
    }
    Ok(())
}

#[cycle(slips)]
fn add_labels(alloc: Global, labels: &[Label], out: &mut Vec<Broken>) -> Result<(), Mem>
    ensures { OnOk result (out.new.items ≡ out.old.items ++ spec.slips (trees (map view_label labels.now))) }
{
    for label in labels {
        add_expr(alloc, &label.value, out)?;
    }
    Ok(())
}

// ---- statements

#[cycle(slips)]
fn add_stmts(alloc: Global, stmts: &[Stmt], out: &mut Vec<Broken>) -> Result<(), Mem>
    ensures { OnOk result (out.new.items ≡ out.old.items ++ spec.slips (view_stmts stmts.now)) }
{
    for stmt in stmts {
        add_stmt(alloc, stmt, out)?;
    }
    Ok(())
}

#[cycle(slips)]
fn add_stmt(alloc: Global, stmt: &Stmt, out: &mut Vec<Broken>) -> Result<(), Mem>
    ensures { OnOk result (out.new.items ≡ out.old.items ++ spec.slips (view_stmt stmt.now)) }
{
    match stmt {
        Stmt::Define(_, _, _, expr)
        | Stmt::DefineAll(_, _, expr)
        | Stmt::Assign(_, _, expr)
        | Stmt::Return(_, expr)
        | Stmt::Println(_, expr)
        | Stmt::Log(_, _, _, expr)
        | Stmt::Expr(expr) => add_expr(alloc, expr, out),
        Stmt::Choice(arms, last) => match last {
            None => add_arms(alloc, arms, out),
            Some(stmts) => {
                add_arms(alloc, arms, out)?;
                add_stmts(alloc, stmts, out)
            }
        },
    }
}

#[cycle(slips)]
fn add_arms(alloc: Global, arms: &[Arm], out: &mut Vec<Broken>) -> Result<(), Mem>
    ensures { OnOk result (out.new.items ≡ out.old.items ++ spec.arms_slips (map view_arm arms.now)) }
{
    for arm in arms {
        add_expr(alloc, &arm.condition, out)?;
        add_stmts(alloc, &arm.body, out)?;
    }
    Ok(())
}
