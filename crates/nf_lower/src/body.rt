//! The statements of a workflow's body.

ghost use Rattle.nf_ast.specs.View.{names, view, view_stmt, view_stmts};
ghost use Rattle.nf_ast.specs.Tree as tree;
ghost use Rattle.nf_meaning.specs.Places.{begins_at as place_of};
ghost use Rattle.nf_meaning.specs.Walk.{in_braces};
ghost use Rattle.nf_meaning.specs.Workflow as meaning;
ghost use Rattle.nf_meaning.specs.Workflow.{part_of};
ghost use Rattle.nf_walked.specs.Around.{CanWalk, Knows};
ghost use Rattle.nf_walked.specs.Forms.{nothing};
ghost use Rattle.nf_walked.specs.Parts.{assign_of, choice_of};
ghost use Rattle.nf_walked.specs.Steps.{Walked, due};

use crate::things::{thing, value_thing};
use nf_ast::{Arm, Expr, Stmt};
use nf_builtins::Natives;
use nf_fronts::Front;
use nf_leading::has_no_file;
use nf_lowered::begins_at;
use nf_lowering::Lowering;
use nf_meaning::LowerFault;
use nf_value::{Place, Txt, truth};
use nf_walked::{Walker, bad_option, stands_alone};

/// Statements in a row.
#[cycle(lower)]
pub(crate) fn statements<N: Natives>(
    walker: &Walker<'_, N>,
    state: &mut Lowering,
    stmts: &[Stmt],
) -> Result<(), LowerFault>
    requires { CanWalk N.titles N.answer N.keeps walker.now state.old }
    ensures { Walked (Knows N.titles N.answer walker.now) (due nothing (part_of (view_stmts stmts.now)).body)
        state.old state.new result }
{
    for stmt in stmts {
        statement(walker, state, stmt)?;
    }
    Ok(())
}

#[cycle(lower)]
fn statement<N: Natives>(
    walker: &Walker<'_, N>,
    state: &mut Lowering,
    stmt: &Stmt,
) -> Result<(), LowerFault>
    requires { CanWalk N.titles N.answer N.keeps walker.now state.old }
    ensures { Walked (Knows N.titles N.answer walker.now) (due nothing (part_of (view_stmt stmt.now)).done)
        state.old state.new result }
{
    match stmt {
        Stmt::Define(_, place, name, expr) => define_one(walker, state, *place, name, expr),
        Stmt::DefineAll(place, names, expr) => define_each(walker, state, *place, names, expr),
        Stmt::Assign(_, name, expr) => assign(walker, state, name, expr),
        Stmt::Return(place, _) => bad_option(*place),
        Stmt::Choice(arms, last) => choice(walker, state, arms, last),
        Stmt::Println(_, expr) => walker.only_read(state, expr),
        Stmt::Log(_, place, name, expr) => walker.logged(state, *place, name, expr),
        Stmt::Expr(expr) => {
            stands_alone(expr);
            done_with(walker, state, expr)
        }
    }
}

/// An expression that stands alone: neither a file nor a list that holds one.
#[cycle(lower)]
fn done_with<N: Natives>(
    walker: &Walker<'_, N>,
    state: &mut Lowering,
    expr: &Expr,
) -> Result<(), LowerFault>
    requires { CanWalk N.titles N.answer N.keeps walker.now state.old }
    ensures { Walked (Knows N.titles N.answer walker.now)
        (due nothing (meaning.done_with (place_of (view expr.now)) (part_of (view expr.now)).thing))
        state.old state.new result }
{
    let thing = thing(walker, state, Front::Whole(expr))?;
    has_no_file(begins_at(expr), &thing)
}

/// `name = e`.
#[cycle(lower)]
fn assign<N: Natives>(
    walker: &Walker<'_, N>,
    state: &mut Lowering,
    name: &Txt,
    expr: &Expr,
) -> Result<(), LowerFault>
    requires { CanWalk N.titles N.answer N.keeps walker.now state.old }
    ensures { Walked (Knows N.titles N.answer walker.now)
        (due nothing (assign_of name.now (part_of (view expr.now)).thing)) state.old state.new result }
{
    let thing = thing(walker, state, Front::Whole(expr))?;
    walker.put_name(state, name, thing)
}

/// `def name = e`.
#[cycle(lower)]
fn define_one<N: Natives>(
    walker: &Walker<'_, N>,
    state: &mut Lowering,
    place: Place,
    name: &Txt,
    expr: &Expr,
) -> Result<(), LowerFault>
    requires { CanWalk N.titles N.answer N.keeps walker.now state.old }
    ensures { Walked (Knows N.titles N.answer walker.now)
        (due nothing (meaning.define_one (tree.name place name.now) (part_of (view expr.now)).thing))
        state.old state.new result }
{
    if state.names().is_defined(name.as_str()) {
        return Err(LowerFault::TwiceDefined { place });
    }
    let thing = thing(walker, state, Front::Whole(expr))?;
    walker.define(state, name, thing)
}

/// `def (a, b) = e`.
#[cycle(lower)]
fn define_each<N: Natives>(
    walker: &Walker<'_, N>,
    state: &mut Lowering,
    place: Place,
    list: &[(Place, Txt)],
    expr: &Expr,
) -> Result<(), LowerFault>
    requires { CanWalk N.titles N.answer N.keeps walker.now state.old }
    ensures { Walked (Knows N.titles N.answer walker.now)
        (due nothing (meaning.define_each place (names list.now) (place_of (view expr.now)) (part_of (view expr.now)).thing))
        state.old state.new result }
{
    walker.check_new(state, list)?;
    let value = value_thing(walker, state, expr)?;
    walker.bind_names(state, place, list, &value)
}

/// The arms of an `if`, of which the one that counts is gone through.
#[cycle(lower)]
fn choice<N: Natives>(
    walker: &Walker<'_, N>,
    state: &mut Lowering,
    arms: &[Arm],
    last: &Option<Vec<Stmt>>,
) -> Result<(), LowerFault>
    requires { CanWalk N.titles N.answer N.keeps walker.now state.old }
    ensures { Walked (Knows N.titles N.answer walker.now) (due nothing (part_of (choice_of arms.now last.now)).done)
        state.old state.new result }
{
    for arm in arms {
        let condition = walker.value_of(state, Front::Whole(&arm.condition))?;
        if truth(&condition) {
            return block(walker, state, &arm.body);
        }
    }
    match last {
        Some(stmts) => block(walker, state, stmts),
        None => Ok(()),
    }
}

/// Statements between braces of their own.
#[cycle(lower)]
fn block<N: Natives>(
    walker: &Walker<'_, N>,
    state: &mut Lowering,
    stmts: &[Stmt],
) -> Result<(), LowerFault>
    requires { CanWalk N.titles N.answer N.keeps walker.now state.old }
    ensures { Walked (Knows N.titles N.answer walker.now)
        (due nothing (in_braces (part_of (view_stmts stmts.now)).body)) state.old state.new result }
{
    state.enter()?;
    statements(walker, state, stmts)?;
    state.leave();
    Ok(())
}
