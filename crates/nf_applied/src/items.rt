//! The items of sources.

ghost use Rattle.std.specs.Prelude.{◌≡◌, IfOk, map};
ghost use Rattle.nf_value.specs.View.{plain_of};
ghost use Rattle.nf_ast.specs.View.{view};
ghost use Rattle.nf_meaning.specs.Sources as meaning;
ghost use Rattle.nf_walked.specs.Around.{CanWalk, Knows};
ghost use Rattle.nf_walked.specs.Forms.{values};
ghost use Rattle.nf_walked.specs.Steps.{Walked, from};
ghost use Rattle.nf_applied.specs.Sources.{GivesItems, range_more};

use crate::taking::body_at;
use nf_ast::Expr;
use nf_builtins::Natives;
use nf_lowering::Lowering;
use nf_meaning::LowerFault;
use nf_opargs::list_wanted;
use nf_value::{Mem, Place, Value};
use nf_walked::Walker;
use std::alloc::Global;

/// The items of a range, behind those before it (Nextflow reference documentation, "Channel factories", "of").
///
/// # Errors
///
/// As for `Body::range_items`.
pub fn range_items<N: Natives>(
    walker: &Walker<'_, N>,
    state: &Lowering,
    range: &Expr,
    items: Vec<Value>,
) -> Result<Vec<Value>, LowerFault>
    requires { CanWalk N.titles N.answer N.keeps walker.now state.now }
    ensures { Walked (Knows N.titles N.answer walker.now) (from values items values (range_more (view range.now)))
        state.now state.now result }
{
    let list = body_at(walker, state).range_items(range)?;
    let mut items = items;
    let mut more = list.into_items();
    items.append(&mut more)?;
    Ok(items)
}

/// The items of the list that is the only one of these values (Nextflow reference documentation, "Channel factories",
/// "fromList"). Each stands with the place where its argument begins.
///
/// # Errors
///
/// `BadOption` at that place if it is no list.
pub fn items_in(alloc: Global, given: Vec<(Place, Value)>) -> Result<Vec<Value>, LowerFault>
    ensures { GivesItems (λ vs. meaning.list_items vs) given result }
{
    let mut given = given;
    if given.len() != 1 {
        return Ok(Vec::new(alloc));
    }
    match given.pop() {
        Some((place, value)) => {
            let list = list_wanted(place, value)?;
            Ok(list.into_items())
        }
        None => Ok(Vec::new(alloc)),
    }
}

/// Values without their places.
///
/// # Errors
///
/// `Mem` for want of memory.
pub fn values_in(alloc: Global, given: Vec<(Place, Value)>) -> Result<Vec<Value>, Mem>
    ensures { IfOk result (λ items. items.items ≡ map (λ v. v.1) given.items) }
{
    let mut items = Vec::new(alloc);
    for (_, value) in given {
        items.push(value)?;
    }
    Ok(items)
}
