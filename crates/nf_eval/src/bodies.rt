//! Runs the bodies of closures and functions: statements, or labelled expressions.

ghost use Rattle.std.specs.Prelude.{map, ◌≡◌, Option};
ghost use Rattle.nf_value.specs.Plain.{null};
ghost use Rattle.nf_value.specs.View.{plain_of};
ghost use Rattle.nf_ast.specs.Tree as tree;
ghost use Rattle.nf_ast.specs.Tree.{Tree};
ghost use Rattle.nf_ast.specs.View.{view_body, view_label, view_stmt, view_stmts, view_arm, trees, choice};
ghost use Rattle.nf_placed.specs.Placed.{Evaluates};
ghost use Rattle.nf_placed.specs.Scope.{with_names, inside};
ghost use Rattle.nf_eval.specs.Evaluation.{meaning_of, body_of};
ghost use Rattle.nf_eval.specs.Latest.{names_of};
ghost use Rattle.nf_eval.specs.Memory.{seen};
ghost use Rattle.nf_eval.specs.Else.{else_of};
ghost use Rattle.nf_eval.specs.Gives.{Flows, Takes, value_of_step};

use crate::around::Around;
use crate::flow::Step;
use crate::scope::Scope;
use crate::shapes::is_block;
use crate::values::value;
use nf_ast::{Arm, ClosureBody, Label, Stmt};
use nf_builtins::Natives;
use nf_placed::split;
use nf_value::{EvalRefusal, Txt, Value, truth};
use std::alloc::Global;

/// The value of a closure's body. `names` are its parameters.
#[cycle(value)]
pub(crate) fn body<N: Natives>(
    alloc: Global,
    code: &ClosureBody,
    names: Scope,
    around: &Around<'_>,
    natives: &N,
) -> Result<Value, EvalRefusal>
    requires { N.keeps natives.now }
    ensures { Evaluates (body_of (view_body code.now) (with_names (names_of names) (inside (seen around.now (N.titles natives.now) (N.answer natives.now))))) result }
{
    match code {
        ClosureBody::Statements(list) => run(alloc, list, names, around, natives),
        ClosureBody::Labels(list) => { labels(alloc, list, &names, around, natives) }
    }
}

/// The value of statements as a body. `names` are the parameters.
#[cycle(value)]
pub(crate) fn run<N: Natives>(
    alloc: Global,
    code: &[Stmt],
    names: Scope,
    around: &Around<'_>,
    natives: &N,
) -> Result<Value, EvalRefusal>
    requires { N.keeps natives.now }
    ensures { Evaluates (body_of (view_stmts code.now) (with_names (names_of names) (inside (seen around.now (N.titles natives.now) (N.answer natives.now))))) result }
{
    let mut names = names;
    let last = statements(alloc, code, &mut names, around, natives)?;
    Ok(value_of(last))
}

fn value_of(step: Step) -> Value
    ensures { result ≡ value_of_step step }
{
    match step {
        Step::Going(value) => value,
        Step::Returned(value) => value,
    }
}

/// Runs statements until one returns.
#[cycle(value)]
pub(crate) fn statements<N: Natives>(
    alloc: Global,
    code: &[Stmt],
    names: &mut Scope,
    around: &Around<'_>,
    natives: &N,
) -> Result<Step, EvalRefusal>
    requires { N.keeps natives.now }
    ensures { Flows ((meaning_of (view_stmts code.now)).body (with_names (names_of names.old) (inside (seen around.now (N.titles natives.now) (N.answer natives.now)))) null) (with_names (names_of names.new) (inside (seen around.now (N.titles natives.now) (N.answer natives.now)))) result }
{
    let mut last = Value::Null;
    for stmt in code {
        match statement(alloc, stmt, names, around, natives)? {
            Step::Going(value) => last = value,
            Step::Returned(value) => return Ok(Step::Returned(value)),
        }
    }
    Ok(Step::Going(last))
}

/// Runs a statement.
#[cycle(value)]
pub(crate) fn statement<N: Natives>(
    alloc: Global,
    stmt: &Stmt,
    names: &mut Scope,
    around: &Around<'_>,
    natives: &N,
) -> Result<Step, EvalRefusal>
    requires { N.keeps natives.now }
    ensures { Flows ((meaning_of (view_stmt stmt.now)).done (with_names (names_of names.old) (inside (seen around.now (N.titles natives.now) (N.answer natives.now))))) (with_names (names_of names.new) (inside (seen around.now (N.titles natives.now) (N.answer natives.now)))) result }
{
    match stmt {
        Stmt::Define(_, _, name, expr) => {
            let value = value(alloc, expr, &Around::Body(&*names, &*around), natives)?;
            names.define(name.copy()?, value)?;
            Ok(Step::Going(Value::Null))
        }
        Stmt::DefineAll(place, list, expr) => {
            let value = value(alloc, expr, &Around::Body(&*names, &*around), natives)?;
            let parts = split(alloc, *place, list, &value)?;
            names.define_all(parts)?;
            Ok(Step::Going(Value::Null))
        }
        Stmt::Assign(_, name, expr) => {
            let value = value(alloc, expr, &Around::Body(&*names, &*around), natives)?;
            names.rebind(name.as_str(), value);
            Ok(Step::Going(Value::Null))
        }
        Stmt::Return(_, expr) => {
            let value = value(alloc, expr, &Around::Body(&*names, &*around), natives)?;
            Ok(Step::Returned(value))
        }
        Stmt::Choice(list, None) => match arms(alloc, list, names, around, natives)? {
            Some(step) => Ok(step),
            None => Ok(Step::Going(Value::Null)),
        },
        Stmt::Choice(list, Some(_last)) => match arms(alloc, list, names, around, natives)? {
            Some(step) => Ok(step),
            None => otherwise(alloc, stmt, names, around, natives),
        },
        Stmt::Println(_, _) => Ok(Step::Going(Value::Null)),
        Stmt::Log(_, _, _, _) => Ok(Step::Going(Value::Null)),
        Stmt::Expr(expr) => {
            // Called for its contract, which says that the tree is an expression's.
            is_block(expr);
            let value = value(alloc, expr, &Around::Body(&*names, &*around), natives)?;
            Ok(Step::Going(value))
        }
    }
}

/// Runs the statements after the last `else` of a choice, if there are any.
#[cycle(value)]
pub(crate) fn otherwise<N: Natives>(
    alloc: Global,
    stmt: &Stmt,
    names: &mut Scope,
    around: &Around<'_>,
    natives: &N,
) -> Result<Step, EvalRefusal>
    requires { N.keeps natives.now }
    ensures { Flows ((meaning_of (else_of stmt.now)).done (with_names (names_of names.old) (inside (seen around.now (N.titles natives.now) (N.answer natives.now))))) (with_names (names_of names.new) (inside (seen around.now (N.titles natives.now) (N.answer natives.now)))) result }
{
    match stmt {
        Stmt::Choice(_, Some(last)) => block(alloc, last, names, around, natives),
        Stmt::Choice(_, None) => Ok(Step::Going(Value::Null)),
        Stmt::Define(_, _, _, _) => Ok(Step::Going(Value::Null)),
        Stmt::DefineAll(_, _, _) => Ok(Step::Going(Value::Null)),
        Stmt::Assign(_, _, _) => Ok(Step::Going(Value::Null)),
        Stmt::Return(_, _) => Ok(Step::Going(Value::Null)),
        Stmt::Println(_, _) => Ok(Step::Going(Value::Null)),
        Stmt::Log(_, _, _, _) => Ok(Step::Going(Value::Null)),
        Stmt::Expr(_) => Ok(Step::Going(Value::Null)),
    }
}

/// Runs statements in braces. The names that they define end with them.
#[cycle(value)]
pub(crate) fn block<N: Natives>(
    alloc: Global,
    code: &[Stmt],
    names: &mut Scope,
    around: &Around<'_>,
    natives: &N,
) -> Result<Step, EvalRefusal>
    requires { N.keeps natives.now }
    ensures { Flows ((meaning_of (tree.statements (view_stmts code.now))).done (with_names (names_of names.old) (inside (seen around.now (N.titles natives.now) (N.answer natives.now))))) (with_names (names_of names.new) (inside (seen around.now (N.titles natives.now) (N.answer natives.now)))) result }
{
    let count = names.len();
    let last = statements(alloc, code, names, around, natives)?;
    names.leave(count);
    Ok(last)
}

/// Runs the statements of the first arm whose condition is true; none where there is no such arm.
#[cycle(value)]
pub(crate) fn arms<N: Natives>(
    alloc: Global,
    list: &[Arm],
    names: &mut Scope,
    around: &Around<'_>,
    natives: &N,
) -> Result<Option<Step>, EvalRefusal>
    requires { N.keeps natives.now }
    ensures { (last : Tree) → Takes ((meaning_of (choice (map view_arm list.now) last)).done (with_names (names_of names.old) (inside (seen around.now (N.titles natives.now) (N.answer natives.now))))) ((meaning_of last).done (with_names (names_of names.new) (inside (seen around.now (N.titles natives.now) (N.answer natives.now))))) (with_names (names_of names.new) (inside (seen around.now (N.titles natives.now) (N.answer natives.now)))) result }
{
    for arm in list {
        let condition = crate::values::value(
            alloc,
            &arm.condition,
            &Around::Body(&*names, &*around),
            natives,
        )?;
        if truth(&condition) {
            let last = block(alloc, &arm.body, names, around, natives)?;
            return Ok(Some(last));
        }
    }
    Ok(None)
}

/// Evaluates labelled expressions in their order: the value of the last.
#[cycle(value)]
pub(crate) fn labels<N: Natives>(
    alloc: Global,
    list: &[Label],
    names: &Scope,
    around: &Around<'_>,
    natives: &N,
) -> Result<Value, EvalRefusal>
    requires { N.keeps natives.now }
    ensures { Evaluates (body_of (trees (map view_label list.now)) (with_names (names_of names.now) (inside (seen around.now (N.titles natives.now) (N.answer natives.now))))) result }
{
    let mut last = Value::Null;
    for label in list {
        last = crate::values::value(
            alloc,
            &label.value,
            &Around::Body(&*names, &*around),
            natives,
        )?;
    }
    Ok(last)
}
