//! Judges the statements of a workflow's body.

ghost use Rattle.std.specs.Prelude.{◌≡◌, OnOk};
ghost use Rattle.nf_ast.specs.View.{view_stmt, view_stmts};
ghost use Rattle.nf_order.specs.Memory.{part_in, view_choice, view_last};
ghost use Rattle.nf_order.specs.Parts.{in_braces};
ghost use Rattle.nf_order.specs.Standing.{Gives};

use crate::around::{Around, State};
use crate::exprs::value;
use nf_ast::{Arm, Stmt};
use nf_kinds::Kinds;
use nf_value::Mem;

/// Statements in a row.
#[cycle(judge)]
pub(crate) fn body(stmts: &[Stmt], around: &Around<'_>, state: &mut State) -> Result<(), Mem>
    ensures { OnOk result (Gives (part_in around.now (view_stmts stmts.now)).body state.old tt state.new) }
{
    for one in stmts {
        stmt(one, around, state)?;
    }
    Ok(())
}

#[cycle(judge)]
fn stmt(stmt: &Stmt, around: &Around<'_>, state: &mut State) -> Result<(), Mem>
    ensures { OnOk result (Gives (part_in around.now (view_stmt stmt.now)).done state.old tt state.new) }
{
    match stmt {
        Stmt::Define(_, _, name, expr) => {
            let shape = value(expr, around, state)?;
            state.scope.define(name, shape)
        }
        Stmt::DefineAll(_, names, expr) => {
            let shape = value(expr, around, state)?;
            state
                .scope
                .define_all(names, Kinds::plain_unless(shape.kinds().unknown))
        }
        Stmt::Assign(_, name, expr) => {
            let shape = value(expr, around, state)?;
            state.scope.assign(around.alloc, name, shape)
        }
        Stmt::Return(_, expr) | Stmt::Expr(expr) => {
            value(expr, around, state)?;
            Ok(())
        }
        Stmt::Choice(arms, last) => choice(arms, last, around, state),
        Stmt::Println(_, _) | Stmt::Log(_, _, _, _) => Ok(()),
    }
}

/// Statements between braces of their own.
#[cycle(judge)]
fn block(stmts: &[Stmt], around: &Around<'_>, state: &mut State) -> Result<(), Mem>
    ensures { OnOk result (Gives (in_braces (part_in around.now (view_stmts stmts.now)).body) state.old tt state.new) }
{
    let count = state.scope.local_count();
    body(stmts, around, state)?;
    state.scope.leave(around.alloc, count)
}

/// The arms of an `if`, and what stands after its last `else`. Each arm begins in the scope after its condition, and
/// so do those after it.
#[cycle(judge)]
fn choice(
    arms: &[Arm],
    last: &Option<Vec<Stmt>>,
    around: &Around<'_>,
    state: &mut State,
) -> Result<(), Mem>
    ensures { OnOk result (Gives (part_in around.now (view_choice arms.now last.now)).done state.old tt state.new) }
{
    match arms {
        [] => otherwise(last, around, state),
        [arm, more @ ..] => {
            value(&arm.condition, around, state)?;
            let before = state.scope.copy(around.alloc)?;
            block(&arm.body, around, state)?;
            let ended = std::mem::replace(&mut state.scope, before);
            choice(more, last, around, state)?;
            state.scope.merge(around.alloc, &ended)
        }
    }
}

/// What stands after the last `else`.
#[cycle(judge)]
fn otherwise(last: &Option<Vec<Stmt>>, around: &Around<'_>, state: &mut State) -> Result<(), Mem>
    ensures { OnOk result (Gives (part_in around.now (view_last last.now)).done state.old tt state.new) }
{
    match last {
        Some(stmts) => block(stmts, around, state),
        None => Ok(()),
    }
}
