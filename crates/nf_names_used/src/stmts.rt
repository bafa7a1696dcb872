//! Uses of closures and statements.

ghost use Rattle.std.specs.Prelude.{◌≡◌, ◌++◌, map, option_map, IfOk, OnOk};
ghost use Rattle.nf_ast.specs.View.{view_closure, view_body, view_label, view_stmt, view_stmts, view_arm, params_tree, trees};
ghost use Rattle.nf_names_used.specs.Uses.{uses, no_names, assigned_uses, begun, defined, defined_by, params_of};
ghost use Rattle.nf_names_used.specs.Chains.{arms_uses};
ghost use Rattle.nf_ast.specs.Tree as tree;

use crate::again::{put_again, put_agains, put_params};
use crate::exprs::{put_expr, put_use};
use crate::seen::{Seen, add_names};
use crate::uses::{Use, UseKind};
use nf_ast::{Arm, ClosureBody, ClosureExpr, Label, Stmt};
use nf_value::{Mem, Place, Txt};
use std::alloc::Global;

/// What a closure uses of what stands around it, in the order of the text, as `expr_uses` does (own): first come its parameters that have the name
/// of one before them.
///
/// # Errors
///
/// `Mem` where there is no memory for the list.
pub fn closure_uses(alloc: Global, closure: &ClosureExpr) -> Result<Vec<Use>, Mem>
    ensures { IfOk result (λ v. v.items ≡ uses (view_closure closure.now) no_names) }
{
    let mut out = Vec::new(alloc);
    let seen = Seen::nothing(alloc);
    put_closure(closure, &seen, alloc, &mut out)?;
    Ok(out)
}

/// What statements use of what stands around them, in the order of the text, as `expr_uses` does (own). They stand between the same braces, so that
/// a name that two of them define by `def` is defined a second time.
///
/// # Errors
///
/// `Mem` where there is no memory for the list.
pub fn stmts_uses(alloc: Global, stmts: &[Stmt]) -> Result<Vec<Use>, Mem>
    ensures { IfOk result (λ v. v.items ≡ uses (view_stmts stmts.now) no_names) }
{
    let mut out = Vec::new(alloc);
    let mut seen = Seen::nothing(alloc);
    put_stmts(stmts, &mut seen, alloc, &mut out)?;
    Ok(out)
}

#[cycle(uses)]
pub(crate) fn put_closure(
    closure: &ClosureExpr,
    seen: &Seen,
    alloc: Global,
    out: &mut Vec<Use>,
) -> Result<(), Mem>
    ensures { OnOk result (out.new.items ≡ out.old.items ++ uses (view_closure closure.now) seen.now) }
{
    put_params(&closure.params, alloc, out)?;
    let mut inner = seen.inside(param_names(&closure.params, alloc)?, alloc)?;
    put_body(&closure.body, &mut inner, alloc, out)
}

/// The names of parameters.
fn param_names(params: &Option<Vec<(Place, Txt)>>, alloc: Global) -> Result<Vec<Txt>, Mem>
    ensures { IfOk result (λ v. v.items ≡ params_of (params_tree (option_map (λ v. v.items) params.now))) }
{
    let mut out = Vec::new(alloc);
    match params {
        Some(names) => add_names(names, &mut out)?,
        None => out.push(Txt::of(String::from_str(alloc, "it")?))?,
    }
    Ok(out)
}

#[cycle(uses)]
fn put_body(
    body: &ClosureBody,
    seen: &mut Seen,
    alloc: Global,
    out: &mut Vec<Use>,
) -> Result<(), Mem>
    ensures { OnOk result (out.new.items ≡ out.old.items ++ uses (view_body body.now) seen.old) }
{
    match body {
        ClosureBody::Statements(stmts) => put_stmts(stmts, seen, alloc, out),
        ClosureBody::Labels(labels) => put_labels(labels, seen, alloc, out),
    }
}

#[cycle(uses)]
fn put_labels(labels: &[Label], seen: &Seen, alloc: Global, out: &mut Vec<Use>) -> Result<(), Mem>
    ensures { OnOk result (out.new.items ≡ out.old.items ++ uses (trees (map view_label labels.now)) seen.now) }
{
    for label in labels {
        put_expr(&label.value, seen, alloc, out)?;
    }
    Ok(())
}

/// Statements in a row, each with the names that those before it add.
#[cycle(uses)]
fn put_stmts(stmts: &[Stmt], seen: &mut Seen, alloc: Global, out: &mut Vec<Use>) -> Result<(), Mem>
    ensures { OnOk result (out.new.items ≡ out.old.items ++ uses (view_stmts stmts.now) seen.old) }
{
    for stmt in stmts {
        put_stmt(stmt, seen, alloc, out)?;
    }
    Ok(())
}

/// Lists the uses of statements that have braces of their own.
#[cycle(uses)]
fn put_block(stmts: &[Stmt], seen: &Seen, alloc: Global, out: &mut Vec<Use>) -> Result<(), Mem>
    ensures { OnOk result (out.new.items ≡ out.old.items ++ uses (view_stmts stmts.now) (begun seen.now)) }
{
    let mut inner = seen.begun(alloc)?;
    put_stmts(stmts, &mut inner, alloc, out)
}

/// Lists the uses of a statement, and adds the names that it defines.
#[cycle(uses)]
fn put_stmt(stmt: &Stmt, seen: &mut Seen, alloc: Global, out: &mut Vec<Use>) -> Result<(), Mem>
    ensures uses { OnOk result (out.new.items ≡ out.old.items ++ uses (view_stmt stmt.now) seen.old) }
    ensures names { OnOk result (seen.new ≡ defined (defined_by (view_stmt stmt.now)) seen.old) }
{
    match stmt {
        Stmt::Define(_, place, name, expr) => {
            put_again(*place, name, seen.body(), out)?;
            put_expr(expr, seen, alloc, out)?;
            seen.define(name)
        }
        Stmt::DefineAll(_, names, expr) => {
            put_agains(names, seen.body(), alloc, out)?;
            put_expr(expr, seen, alloc, out)?;
            seen.define_all(names)
        }
        Stmt::Assign(place, name, expr) => {
            put_assigned(*place, name, seen, out)?;
            put_expr(expr, seen, alloc, out)
        }
        Stmt::Choice(arms, last) => match last {
            None => put_arms(arms, seen, alloc, out),
            Some(stmts) => {
                put_arms(arms, seen, alloc, out)?;
                put_block(stmts, seen, alloc, out)
            }
        },
        Stmt::Return(_, expr)
        | Stmt::Println(_, expr)
        | Stmt::Log(_, _, _, expr)
        | Stmt::Expr(expr) => put_expr(expr, seen, alloc, out),
    }
}

/// Lists a name that gets another value, unless it is the body's own.
fn put_assigned(place: Place, name: &Txt, seen: &Seen, out: &mut Vec<Use>) -> Result<(), Mem>
    ensures { OnOk result (out.new.items ≡ out.old.items ++ assigned_uses (tree.name place name.now) seen.now) }
{
    if seen.owns(name.as_str()) {
        return Ok(());
    }
    put_use(UseKind::Assigned, place, name, out)
}

#[cycle(uses)]
fn put_arms(arms: &[Arm], seen: &Seen, alloc: Global, out: &mut Vec<Use>) -> Result<(), Mem>
    ensures { OnOk result (out.new.items ≡ out.old.items ++ arms_uses (map view_arm arms.now) seen.now) }
{
    for arm in arms {
        put_expr(&arm.condition, seen, alloc, out)?;
        put_block(&arm.body, seen, alloc, out)?;
    }
    Ok(())
}
