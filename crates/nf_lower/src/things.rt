//! What expressions of a workflow's body stand for.

ghost use Rattle.nf_ast.specs.View.{view, views};
ghost use Rattle.nf_meaning.specs.Workflow.{part_of};
ghost use Rattle.nf_fronts.specs.Lasts.{IsLast};
ghost use Rattle.nf_fronts.specs.Fronts.{tree_of};
ghost use Rattle.nf_fronts.specs.Lasts.{maybe_tree};
ghost use Rattle.nf_walked.specs.Around.{CanWalk, Knows};
ghost use Rattle.nf_walked.specs.Forms.{a_thing, a_value, values};
ghost use Rattle.nf_walked.specs.Parts.{leading_to, list_at, no_arm, turn_of, value_thing_of};
ghost use Rattle.std.specs.Prelude.{◌≡◌};
ghost use Rattle.nf_walked.specs.Steps.{Walked, due};

use crate::chains::{called, closed};
use crate::members::{index_of, member};
use crate::pipes::pipe;
use nf_arguments::Args;
use nf_around::list_made;
use nf_ast::Expr;
use nf_builtins::Natives;
use nf_fronts::{Front, Last};
use nf_leading::value_wanted;
use nf_lowered::begins_at;
use nf_lowering::Lowering;
use nf_meaning::LowerFault;
use nf_scopes::Thing;
use nf_value::{EvalFault, EvalKind, Place, Value, truth};
use nf_walked::Walker;

/// What an expression stands for: one that leads to no channel and to no file is a value.
#[cycle(lower)]
pub(crate) fn thing<N: Natives>(
    walker: &Walker<'_, N>,
    state: &mut Lowering,
    front: Front<'_>,
) -> Result<Thing, LowerFault>
    requires { CanWalk N.titles N.answer N.keeps walker.now state.old }
    ensures { Walked (Knows N.titles N.answer walker.now) (due a_thing (part_of (tree_of front.entry)).thing)
        state.old state.new result }
{
    let last = front.last();
    if walker.leads(state, front) {
        return leading_thing(walker, state, front, last);
    }
    walker.known_thing(state, front)
}

/// What an expression stands for that leads to channels or files.
#[cycle(lower)]
fn leading_thing<N: Natives>(
    walker: &Walker<'_, N>,
    state: &mut Lowering,
    front: Front<'_>,
    last: Last<'_>,
) -> Result<Thing, LowerFault>
    requires before { CanWalk N.titles N.answer N.keeps walker.now state.old }
    requires last { IsLast (tree_of front) last }
    ensures { Walked (Knows N.titles N.answer walker.now)
        (leading_to (tree_of front.entry) a_thing (part_of (tree_of front.entry)).thing) state.old state.new result }
{
    match last {
        Last::Name(place, name) => walker.name_thing(state, place, name),
        Last::List(place, items) => list_thing(walker, state, place, items),
        Last::Property(before, place, name) => member(walker, state, before, place, name),
        Last::Index(before, place, index) => index_of(walker, state, before, place, index),
        Last::Call(before, place, args) => called(walker, state, before, place, Args::of(args)),
        Last::With(before, closure) => closed(walker, state, before, closure),
        Last::Pipe(before, _, expr) => pipe(walker, state, before, expr),
        Last::Conditional(_, condition, yes, no) => turn(walker, state, condition, yes, no),
        Last::Other => walker.known_thing(state, front),
    }
}

/// A list, in which there may be files.
#[cycle(lower)]
fn list_thing<N: Natives>(
    walker: &Walker<'_, N>,
    state: &mut Lowering,
    place: Place,
    exprs: &[Expr],
) -> Result<Thing, LowerFault>
    requires { CanWalk N.titles N.answer N.keeps walker.now state.old }
    ensures { Walked (Knows N.titles N.answer walker.now) (due a_thing (list_at place (views exprs.now)))
        state.old state.new result }
{
    let items = items(walker, state, exprs)?;
    let list = list_made(walker.alloc, place, items)?;
    Ok(Thing::Known(list))
}

/// The items of a list.
#[cycle(lower)]
fn items<N: Natives>(
    walker: &Walker<'_, N>,
    state: &mut Lowering,
    exprs: &[Expr],
) -> Result<Vec<Value>, LowerFault>
    requires { CanWalk N.titles N.answer N.keeps walker.now state.old }
    ensures { Walked (Knows N.titles N.answer walker.now) (due values (part_of (views exprs.now)).items)
        state.old state.new result }
{
    let mut items = Vec::new(walker.alloc);
    for expr in exprs {
        let item = value_thing(walker, state, expr)?;
        items.push(item)?;
    }
    Ok(items)
}

/// The value that an expression stands for, which may be a file.
#[cycle(lower)]
pub(crate) fn value_thing<N: Natives>(
    walker: &Walker<'_, N>,
    state: &mut Lowering,
    expr: &Expr,
) -> Result<Value, LowerFault>
    requires { CanWalk N.titles N.answer N.keeps walker.now state.old }
    ensures { Walked (Knows N.titles N.answer walker.now) (due a_value (value_thing_of (view expr.now)))
        state.old state.new result }
{
    let thing = thing(walker, state, Front::Whole(expr))?;
    value_wanted(begins_at(expr), thing)
}

/// `c ? a : b`, of which the arm that counts is gone through.
#[cycle(lower)]
fn turn<N: Natives>(
    walker: &Walker<'_, N>,
    state: &mut Lowering,
    condition: &Expr,
    yes: Front<'_>,
    no: Option<Front<'_>>,
) -> Result<Thing, LowerFault>
    requires { CanWalk N.titles N.answer N.keeps walker.now state.old }
    ensures { Walked (Knows N.titles N.answer walker.now)
        (due a_thing (turn_of (view condition.now) (tree_of yes.entry) (maybe_tree no.entry))) state.old state.new result }
{
    let value = walker.value_of(state, Front::Whole(condition))?;
    if truth(&value) {
        return thing(walker, state, yes);
    }
    match no {
        Some(no) => thing(walker, state, no),
        None => Err(no_arm()),
    }
}

/// What no text spells: a conditional expression without its last arm.
fn no_arm() -> LowerFault
    ensures { result ≡ no_arm }
{
    LowerFault::ParamFault(EvalFault {
        kind: EvalKind::WrongKind,
        place: Place { line: 0, col: 0 },
    })
}
