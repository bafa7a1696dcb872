//! Chains of properties, indexes and calls after an expression.

ghost use Rattle.std.specs.Prelude.{◌≡◌, Bool, true, [], ◌∷◌, map};
ghost use Rattle.nf_ast.specs.Tree as tree;
ghost use Rattle.nf_ast.specs.Tree.{Tree};
ghost use Rattle.nf_ast.specs.View.{view, view_postfix, view_closure, view_arg, trees, postfix, applied as applied_tree};
ghost use Rattle.nf_eval.specs.Memory.{seen};
ghost use Rattle.nf_eval.specs.Shapes.{is_flat};
ghost use Rattle.nf_eval.specs.Chains.{has_value, closure_next as is_closure_next, IsReady, Stands, Comes};

use crate::around::Around;
use crate::reading::{callee, calls_nothing, finished, property, read, safe_property, waiting};
use crate::shapes::{after_first, closure_next, no_branches, no_operands, no_prefixes};
use crate::subjects::Subject;
use nf_ast::{Arg, ClosureExpr, Expr, Postfix};
use nf_builtins::Natives;
use nf_placed::index_value;
use nf_value::{EvalRefusal, Place, Value};
use std::alloc::Global;

/// The subject that an expression is for the parts after it. `closure` says whether a closure comes next.
#[cycle(value)]
pub(crate) fn subject<N: Natives>(
    alloc: Global,
    expr: &Expr,
    closure: bool,
    around: &Around<'_>,
    natives: &N,
) -> Result<Subject, EvalRefusal>
    requires { N.keeps natives.now }
    ensures { Comes closure (view expr.now) (seen around.now (N.titles natives.now) (N.answer natives.now)) result }
{
    match expr {
        Expr::Name(place, name) => Ok(Subject::Name(*place, name.copy()?)),
        Expr::Postfix(first, rest) => {
            let next = closure_next(rest, closure);
            let first = subject(alloc, first, next, around, natives)?;
            parts(alloc, rest, first, closure, around, natives)
        }
        Expr::Prefix(operators, of) => {
            if no_prefixes(operators) {
                subject(alloc, of, closure, around, natives)
            } else {
                flat(alloc, expr, around, natives)
            }
        }
        Expr::Infix(first, rest) => {
            if no_operands(rest) {
                subject(alloc, first, closure, around, natives)
            } else {
                flat(alloc, expr, around, natives)
            }
        }
        Expr::Conditional(first, rest) => {
            if no_branches(rest) {
                subject(alloc, first, closure, around, natives)
            } else {
                flat(alloc, expr, around, natives)
            }
        }
        _ => flat(alloc, expr, around, natives),
    }
}

/// The subject that an expression is which can't be called: its value.
#[cycle(value)]
pub(crate) fn flat<N: Natives>(
    alloc: Global,
    expr: &Expr,
    around: &Around<'_>,
    natives: &N,
) -> Result<Subject, EvalRefusal>
    requires { N.keeps natives.now }
    ensures { (closure : Bool) → is_flat (view expr.now) ≡ true → Comes closure (view expr.now) (seen around.now (N.titles natives.now) (N.answer natives.now)) result }
{
    let value = crate::values::value(alloc, expr, around, natives)?;
    Ok(Subject::Value(value))
}

/// The subject after all parts. `closure` says whether a closure follows them. A call that a closure follows is only performed with that closure.
#[cycle(value)]
pub(crate) fn parts<N: Natives>(
    alloc: Global,
    rest: &[Postfix],
    first: Subject,
    closure: bool,
    around: &Around<'_>,
    natives: &N,
) -> Result<Subject, EvalRefusal>
    requires { N.keeps natives.now }
    ensures { (t : Tree) → Stands t (seen around.now (N.titles natives.now) (N.answer natives.now)) first → IsReady (is_closure_next (map view_postfix rest.now) closure) first → Comes closure (postfix t (map view_postfix rest.now)) (seen around.now (N.titles natives.now) (N.answer natives.now)) result }
{
    let mut subject = first;
    let mut ahead = rest;
    for next in rest {
        ahead = after_first(ahead);
        let followed = closure_next(ahead, closure);
        subject = part(alloc, next, subject, followed, around, natives)?;
    }
    Ok(subject)
}

/// The subject after one part. `closure` says whether a closure follows it.
#[cycle(value)]
pub(crate) fn part<N: Natives>(
    alloc: Global,
    next: &Postfix,
    before: Subject,
    closure: bool,
    around: &Around<'_>,
    natives: &N,
) -> Result<Subject, EvalRefusal>
    requires { N.keeps natives.now }
    ensures { (t : Tree) → Stands t (seen around.now (N.titles natives.now) (N.answer natives.now)) before → IsReady (is_closure_next (view_postfix next.now ∷ []) closure) before → Comes closure (applied_tree t (view_postfix next.now)) (seen around.now (N.titles natives.now) (N.answer natives.now)) result }
{
    match next {
        Postfix::Property(place, name) => property(alloc, *place, name.copy()?, before, around),
        Postfix::SafeProperty(place, name) => {
            safe_property(alloc, *place, name.copy()?, before, around)
        }
        Postfix::Index(place, at) => indexed(alloc, at, *place, before, around, natives),
        Postfix::Call(place, args) => {
            call(alloc, args, *place, before, closure, around, natives)
        }
        Postfix::With(block) => with(alloc, block, before, around, natives),
    }
}

/// The subject after an index.
#[cycle(value)]
pub(crate) fn indexed<N: Natives>(
    alloc: Global,
    at: &Expr,
    place: Place,
    before: Subject,
    around: &Around<'_>,
    natives: &N,
) -> Result<Subject, EvalRefusal>
    requires { N.keeps natives.now }
    ensures { (closure : Bool) (t : Tree) → Stands t (seen around.now (N.titles natives.now) (N.answer natives.now)) before → has_value before ≡ true → Comes closure (tree.index place t (view at.now)) (seen around.now (N.titles natives.now) (N.answer natives.now)) result }
{
    let of = read(alloc, before, around)?;
    let at = crate::values::value(alloc, at, around, natives)?;
    let item = index_value(place, &of, &at)?;
    Ok(Subject::Value(item))
}

/// The subject after arguments in brackets. Where a closure follows, which is one argument more, the call isn't performed yet.
#[cycle(value)]
pub(crate) fn call<N: Natives>(
    alloc: Global,
    args: &[Arg],
    place: Place,
    before: Subject,
    closure: bool,
    around: &Around<'_>,
    natives: &N,
) -> Result<Subject, EvalRefusal>
    requires { N.keeps natives.now }
    ensures { (t : Tree) → Stands t (seen around.now (N.titles natives.now) (N.answer natives.now)) before → has_value before ≡ true → Comes closure (tree.call place t (trees (map view_arg args.now))) (seen around.now (N.titles natives.now) (N.answer natives.now)) result }
{
    let callee = callee(before, place)?;
    if calls_nothing(&callee) {
        return Ok(Subject::Call(callee, 1, Some(Ok(Value::Null))));
    }
    let given = crate::calls::arguments(alloc, args, around, natives)?;
    if closure {
        return Ok(Subject::Call(callee, args.len() + 1, None));
    }
    let result = crate::calls::performed(alloc, args, &callee, given, around, natives);
    finished(callee, args.len() + 1, result)
}

/// The subject after a closure, which is the last argument of a call.
#[cycle(value)]
pub(crate) fn with<N: Natives>(
    alloc: Global,
    block: &ClosureExpr,
    before: Subject,
    around: &Around<'_>,
    natives: &N,
) -> Result<Subject, EvalRefusal>
    requires { N.keeps natives.now }
    ensures { (closure : Bool) (t : Tree) → Stands t (seen around.now (N.titles natives.now) (N.answer natives.now)) before → Comes closure (tree.call_with t (view_closure block.now)) (seen around.now (N.titles natives.now) (N.answer natives.now)) result }
{
    let waiting = waiting(before, block.place);
    let value = crate::calls::over_call(
        alloc,
        block,
        &waiting.callee,
        waiting.count,
        around,
        natives,
    )?;
    Ok(Subject::Value(value))
}
