//! Calls whose arguments stand in the tree: values, and closures for the methods that take one.

ghost use Rattle.std.specs.Prelude.{◌≡◌, ◌==◌, List, [], ◌∷◌, map, length, suc, true, if◌then◌else◌, Ok, None};
ghost use Rattle.nf_value.specs.Plain.{Plain};
ghost use Rattle.nf_value.specs.View.{plain_of};
ghost use Rattle.nf_value.specs.declared.fault.EvalKind.TheVariants.{WrongKind, Arity};
ghost use Rattle.nf_ast.specs.View.{view, view_closure, view_arg, trees};
ghost use Rattle.nf_placed.specs.Placed.{Evaluates, Placed};
ghost use Rattle.nf_placed.specs.Calls.{Argument, block, values_in, over_items, function_call, called as called_of};
ghost use Rattle.nf_placed.specs.Blocks.{row_method, IsFaultOfBlocks};
ghost use Rattle.nf_eval.specs.Evaluation.{meaning_of};
ghost use Rattle.nf_eval.specs.Memory.{seen};
ghost use Rattle.nf_eval.specs.Shapes.{is_closure, block_of};
ghost use Rattle.nf_eval.specs.Gives.{Passes, IsPassed};
ghost use Rattle.nf_eval.specs.Chains.{callee_of, and_more};

use crate::around::{Around, function_seen, handed_in};
use crate::reading::listed;
use crate::shapes::is_block;
use crate::subjects::Called;
use nf_ast::{Arg, ClosureExpr, Expr};
use nf_builtins::Natives;
use nf_placed::{BlockMethod, block_method, fault_at, math_block, native_block};
use nf_value::{EvalKind, EvalRefusal, Place, Vals, Value};
use std::alloc::Global;

/// The values of arguments; none where a closure is among them.
#[cycle(value)]
pub(crate) fn arguments<N: Natives>(
    alloc: Global,
    args: &[Arg],
    around: &Around<'_>,
    natives: &N,
) -> Result<Option<Vals>, EvalRefusal>
    requires { N.keeps natives.now }
    ensures { Passes ((meaning_of (trees (map view_arg args.now))).arguments (seen around.now (N.titles natives.now) (N.answer natives.now))) result }
{
    let mut values = Vec::new(alloc);
    let mut blocks = false;
    for arg in args {
        match argument(alloc, arg, around, natives)? {
            Some(value) => values.push(value)?,
            None => blocks = true,
        }
    }
    if blocks {
        return Ok(None);
    }
    Ok(Some(Vals::of(values)))
}

/// The value of an argument; none where it is a closure.
#[cycle(value)]
pub(crate) fn argument<N: Natives>(
    alloc: Global,
    arg: &Arg,
    around: &Around<'_>,
    natives: &N,
) -> Result<Option<Value>, EvalRefusal>
    requires { N.keeps natives.now }
    ensures { IsPassed ((meaning_of (view_arg arg.now)).argument (seen around.now (N.titles natives.now) (N.answer natives.now))) result }
{
    match &arg.name {
        Some((place, _)) => Err(fault_at(*place, EvalKind::WrongKind)),
        None => unnamed(alloc, &arg.value, around, natives),
    }
}

/// The value of an argument without a name; none where it is a closure.
#[cycle(value)]
pub(crate) fn unnamed<N: Natives>(
    alloc: Global,
    expr: &Expr,
    around: &Around<'_>,
    natives: &N,
) -> Result<Option<Value>, EvalRefusal>
    requires { N.keeps natives.now }
    ensures { IsPassed ((meaning_of (view expr.now)).argument (seen around.now (N.titles natives.now) (N.answer natives.now))) result }
{
    if is_block(expr) {
        return Ok(None);
    }
    let value = crate::values::value(alloc, expr, around, natives)?;
    Ok(Some(value))
}

/// The result of a call. `given` are the values of its arguments; none where a closure is among them.
#[cycle(value)]
pub(crate) fn performed<N: Natives>(
    alloc: Global,
    args: &[Arg],
    callee: &Called,
    given: Option<Vals>,
    around: &Around<'_>,
    natives: &N,
) -> Result<Value, EvalRefusal>
    requires { N.keeps natives.now }
    ensures { (xs : List Argument) → (meaning_of (trees (map view_arg args.now))).arguments (seen around.now (N.titles natives.now) (N.answer natives.now)) ≡ Ok xs → values_in xs ≡ given → Evaluates (called_of (callee_of callee.now) (λ e. Ok xs) (seen around.now (N.titles natives.now) (N.answer natives.now))) result }
{
    match given {
        Some(values) => crate::value_calls::of_values(alloc, callee, &values, around, natives),
        None => of_blocks(alloc, args, callee, around, natives),
    }
}

/// The result of a call that has a closure among its arguments.
#[cycle(value)]
pub(crate) fn of_blocks<N: Natives>(
    alloc: Global,
    args: &[Arg],
    callee: &Called,
    around: &Around<'_>,
    natives: &N,
) -> Result<Value, EvalRefusal>
    requires { N.keeps natives.now }
    ensures { (xs : List Argument) → (meaning_of (trees (map view_arg args.now))).arguments (seen around.now (N.titles natives.now) (N.answer natives.now)) ≡ Ok xs → values_in xs ≡ None → Evaluates (called_of (callee_of callee.now) (λ e. Ok xs) (seen around.now (N.titles natives.now) (N.answer natives.now))) result }
{
    match callee {
        Called::Nothing => Ok(Value::Null),
        Called::Function(place, name) => Err(function_block(
            *place,
            name.as_str(),
            args.len(),
            around,
            natives,
        )),
        Called::Math(place, name) => Err(math_block(alloc, *place, name.as_str(), args.len())),
        Called::Value(place) => Err(fault_at(*place, EvalKind::WrongKind)),
        Called::Method(value, place, name) => {
            let kind = block_method(alloc, *place, name.as_str(), value, args.len())?;
            over_sole(alloc, args, kind, *place, listed(value), around, natives)
        }
    }
}

/// The result of a method that calls its only argument, a closure, for items.
#[cycle(value)]
pub(crate) fn over_sole<N: Natives>(
    alloc: Global,
    args: &[Arg],
    kind: BlockMethod,
    place: Place,
    items: &[Value],
    around: &Around<'_>,
    natives: &N,
) -> Result<Value, EvalRefusal>
    requires { N.keeps natives.now }
    ensures { (f : List Plain → Placed Plain) → (meaning_of (trees (map view_arg args.now))).arguments (seen around.now (N.titles natives.now) (N.answer natives.now)) ≡ Ok (block f ∷ []) → Evaluates (over_items place (row_method kind) f (map plain_of items.now)) result }
{
    match args {
        [] => Err(fault_at(place, EvalKind::Arity)),
        [arg, ..] => over_expr(alloc, &arg.value, kind, place, items, around, natives),
    }
}

/// The result of a method that calls an expression, which is a closure, for items.
#[cycle(value)]
pub(crate) fn over_expr<N: Natives>(
    alloc: Global,
    expr: &Expr,
    kind: BlockMethod,
    place: Place,
    items: &[Value],
    around: &Around<'_>,
    natives: &N,
) -> Result<Value, EvalRefusal>
    requires { N.keeps natives.now }
    ensures { is_closure (view expr.now) ≡ true → Evaluates (over_items place (row_method kind) (block_of (view expr.now) (seen around.now (N.titles natives.now) (N.answer natives.now))) (map plain_of items.now)) result }
{
    match expr {
        Expr::Closure(closure) => crate::blocks::over(
            alloc, closure, kind, place, items, around, natives,
        ),
        Expr::Prefix(_, of) => { over_expr(alloc, of, kind, place, items, around, natives) }
        Expr::Infix(first, _) => { over_expr(alloc, first, kind, place, items, around, natives) }
        Expr::Conditional(first, _) => {
            over_expr(alloc, first, kind, place, items, around, natives)
        }
        Expr::Postfix(first, _) => { over_expr(alloc, first, kind, place, items, around, natives) }
        _ => Err(fault_at(place, EvalKind::WrongKind)),
    }
}

/// The result of a call with a closure after its brackets. The closure is the last of `count` arguments.
#[cycle(value)]
pub(crate) fn over_call<N: Natives>(
    alloc: Global,
    closure: &ClosureExpr,
    callee: &Called,
    count: usize,
    around: &Around<'_>,
    natives: &N,
) -> Result<Value, EvalRefusal>
    requires { N.keeps natives.now }
    ensures { (xs : List Argument) → suc (length xs) ≡ count → Evaluates (called_of (callee_of callee.now) (and_more xs (λ e. Ok (block (block_of (view_closure closure.now) e) ∷ []))) (seen around.now (N.titles natives.now) (N.answer natives.now))) result }
{
    match callee {
        Called::Nothing => Ok(Value::Null),
        Called::Function(place, name) => Err(function_block(
            *place,
            name.as_str(),
            count,
            around,
            natives,
        )),
        Called::Math(place, name) => Err(math_block(alloc, *place, name.as_str(), count)),
        Called::Value(place) => Err(fault_at(*place, EvalKind::WrongKind)),
        Called::Method(value, place, name) => {
            let kind = block_method(alloc, *place, name.as_str(), value, count)?;
            crate::blocks::over(alloc, closure, kind, *place, listed(value), around, natives)
        }
    }
}

/// The fault of calling a function with a closure among its `count` arguments. No function takes a closure.
fn function_block<N: Natives>(
    place: Place,
    name: &str,
    count: usize,
    around: &Around<'_>,
    natives: &N,
) -> EvalRefusal
    ensures { IsFaultOfBlocks (function_call place name.now (seen around.now (N.titles natives.now) (N.answer natives.now))) count result }
{
    match function_seen(name, around) {
        Some((function, _)) => fault_at(place, kind_among(function.params.len(), count)),
        None => {
            handed_in(around);
            native_block(place, name, natives)
        }
    }
}

/// The kind of that fault for a function of the script: `Arity` where the number of arguments is wrong, and else `WrongKind`.
fn kind_among(params: usize, count: usize) -> EvalKind
    ensures { result ≡ (if count == params then WrongKind else Arity) }
{
    if count == params {
        EvalKind::WrongKind
    } else {
        EvalKind::Arity
    }
}
