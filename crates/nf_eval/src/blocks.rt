//! The methods that call a closure for items of a list: `any`, `every`, `find`, `findAll` and `collect`.

ghost use Rattle.std.specs.Prelude.{map};
ghost use Rattle.nf_value.specs.View.{plain_of};
ghost use Rattle.nf_ast.specs.View.{view_closure};
ghost use Rattle.nf_placed.specs.Placed.{Evaluates};
ghost use Rattle.nf_placed.specs.Calls.{over_items, limited_at, any_of, every_of, found_of, all_found, images_of};
ghost use Rattle.nf_placed.specs.Blocks.{row_method};
ghost use Rattle.nf_eval.specs.Memory.{seen};
ghost use Rattle.nf_eval.specs.Shapes.{block_of};
ghost use Rattle.nf_eval.specs.Gives.{Gathers, Lists};

use crate::around::Around;
use crate::scope::Scope;
use nf_ast::ClosureExpr;
use nf_builtins::Natives;
use nf_infix::Gathered;
use nf_placed::{BlockMethod, bound, copy_value, gathered_value, list_value};
use nf_value::{EvalRefusal, Place, Value, truth};
use std::alloc::Global;
use std::slice;

/// What a method gives that calls a closure for items.
#[cycle(value)]
pub(crate) fn over<N: Natives>(
    alloc: Global,
    closure: &ClosureExpr,
    kind: BlockMethod,
    place: Place,
    items: &[Value],
    around: &Around<'_>,
    natives: &N,
) -> Result<Value, EvalRefusal>
    requires { N.keeps natives.now }
    ensures { Evaluates (over_items place (row_method kind) (block_of (view_closure closure.now) (seen around.now (N.titles natives.now) (N.answer natives.now))) (map plain_of items.now)) result }
{
    match kind {
        BlockMethod::Any => any(alloc, closure, items, around, natives),
        BlockMethod::Every => every(alloc, closure, items, around, natives),
        BlockMethod::Find => find(alloc, closure, place, items, around, natives),
        BlockMethod::FindAll => {
            let values = find_all(alloc, closure, items, around, natives)?;
            list_value(place, values)
        }
        BlockMethod::Collect => {
            let values = images(alloc, closure, items, around, natives)?;
            gathered_value(place, values)
        }
    }
}

/// Whether a closure is true for one of the items.
#[cycle(value)]
pub(crate) fn any<N: Natives>(
    alloc: Global,
    closure: &ClosureExpr,
    items: &[Value],
    around: &Around<'_>,
    natives: &N,
) -> Result<Value, EvalRefusal>
    requires { N.keeps natives.now }
    ensures { Evaluates (any_of (block_of (view_closure closure.now) (seen around.now (N.titles natives.now) (N.answer natives.now))) (map plain_of items.now)) result }
{
    for item in items {
        let answer = applied(alloc, closure, slice::from_ref(item), around, natives)?;
        if truth(&answer) {
            return Ok(Value::Truth(true));
        }
    }
    Ok(Value::Truth(false))
}

/// Whether a closure is true for all items.
#[cycle(value)]
pub(crate) fn every<N: Natives>(
    alloc: Global,
    closure: &ClosureExpr,
    items: &[Value],
    around: &Around<'_>,
    natives: &N,
) -> Result<Value, EvalRefusal>
    requires { N.keeps natives.now }
    ensures { Evaluates (every_of (block_of (view_closure closure.now) (seen around.now (N.titles natives.now) (N.answer natives.now))) (map plain_of items.now)) result }
{
    for item in items {
        let answer = applied(alloc, closure, slice::from_ref(item), around, natives)?;
        if !truth(&answer) {
            return Ok(Value::Truth(false));
        }
    }
    Ok(Value::Truth(true))
}

/// The first item for which a closure is true, or null.
#[cycle(value)]
pub(crate) fn find<N: Natives>(
    alloc: Global,
    closure: &ClosureExpr,
    place: Place,
    items: &[Value],
    around: &Around<'_>,
    natives: &N,
) -> Result<Value, EvalRefusal>
    requires { N.keeps natives.now }
    ensures { Evaluates (limited_at place (found_of (block_of (view_closure closure.now) (seen around.now (N.titles natives.now) (N.answer natives.now))) (map plain_of items.now))) result }
{
    for item in items {
        let answer = applied(alloc, closure, slice::from_ref(item), around, natives)?;
        if truth(&answer) {
            return copy_value(place, item);
        }
    }
    Ok(Value::Null)
}

/// All items for which a closure is true.
#[cycle(value)]
pub(crate) fn find_all<N: Natives>(
    alloc: Global,
    closure: &ClosureExpr,
    items: &[Value],
    around: &Around<'_>,
    natives: &N,
) -> Result<Vec<Value>, EvalRefusal>
    requires { N.keeps natives.now }
    ensures { Lists (all_found (block_of (view_closure closure.now) (seen around.now (N.titles natives.now) (N.answer natives.now))) (map plain_of items.now)) result }
{
    let mut found = Vec::new(alloc);
    for item in items {
        let answer = applied(alloc, closure, slice::from_ref(item), around, natives)?;
        if truth(&answer) {
            found.push(item.copy()?)?;
        }
    }
    Ok(found)
}

/// The results of a closure for all items. Once they weigh more than a list may, only their weight is kept.
#[cycle(value)]
pub(crate) fn images<N: Natives>(
    alloc: Global,
    closure: &ClosureExpr,
    items: &[Value],
    around: &Around<'_>,
    natives: &N,
) -> Result<Gathered, EvalRefusal>
    requires { N.keeps natives.now }
    ensures { Gathers (images_of (block_of (view_closure closure.now) (seen around.now (N.titles natives.now) (N.answer natives.now))) (map plain_of items.now)) result }
{
    let mut images = Gathered::new(alloc);
    for item in items {
        let image = applied(alloc, closure, slice::from_ref(item), around, natives)?;
        images.push(image)?;
    }
    Ok(images)
}

/// The result of a closure for its arguments.
#[cycle(value)]
pub(crate) fn applied<N: Natives>(
    alloc: Global,
    closure: &ClosureExpr,
    args: &[Value],
    around: &Around<'_>,
    natives: &N,
) -> Result<Value, EvalRefusal>
    requires { N.keeps natives.now }
    ensures { Evaluates (block_of (view_closure closure.now) (seen around.now (N.titles natives.now) (N.answer natives.now)) (map plain_of args.now)) result }
{
    let names = bound(alloc, closure.place, &closure.params, args)?;
    crate::bodies::body(alloc, &closure.body, Scope::of(names), around, natives)
}
