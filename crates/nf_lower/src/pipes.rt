//! Pipes: `a | f` is `f(a)`.

ghost use Rattle.std.specs.Prelude.{◌≡◌, ◌∷◌, []};
ghost use Rattle.nf_ast.specs.Tree as tree;
ghost use Rattle.nf_ast.specs.View.{view};
ghost use Rattle.nf_fronts.specs.Fronts.{tree_of};
ghost use Rattle.nf_meaning.specs.Workflow.{part_of};
ghost use Rattle.nf_scopes.specs.Things.{thing_of};
ghost use Rattle.nf_follows.specs.Things.{ThingReads};
ghost use Rattle.nf_arguments.specs.Written.{closure_arg};
ghost use Rattle.nf_walked.specs.Args.{ArgsRead};
ghost use Rattle.nf_walked.specs.Around.{CanWalk, Knows};
ghost use Rattle.nf_walked.specs.Forms.{a_thing};
ghost use Rattle.nf_walked.specs.Parts.{of_args, of_before, pipe_of};
ghost use Rattle.nf_walked.specs.Steps.{Walked, due};

use crate::calls::named_call;
use crate::things::thing;
use nf_arguments::{Args, Before};
use nf_ast::{ClosureExpr, Expr};
use nf_builtins::Natives;
use nf_calling::{flowing, is_called_alone};
use nf_fronts::{Front, Last};
use nf_lowering::Lowering;
use nf_meaning::LowerFault;
use nf_scopes::Thing;
use nf_value::{Place, Txt};
use nf_walked::{Walker, bad_option, begin};

/// `a | f`.
#[cycle(lower)]
pub(crate) fn pipe<N: Natives>(
    walker: &Walker<'_, N>,
    state: &mut Lowering,
    front: Front<'_>,
    expr: &Expr,
) -> Result<Thing, LowerFault>
    requires { CanWalk N.titles N.answer N.keeps walker.now state.old }
    ensures { Walked (Knows N.titles N.answer walker.now)
        (due a_thing (pipe_of (tree_of front.entry) (view expr.now))) state.old state.new result }
{
    let place = begin(front);
    let before = head(walker, state, front)?;
    let thing = flowing(walker, state, place, before)?;
    piped(walker, state, Front::Whole(expr), Before { place, thing })
}

/// What stands before a pipe: the name of a process or a workflow is its call without arguments.
#[cycle(lower)]
fn head<N: Natives>(
    walker: &Walker<'_, N>,
    state: &mut Lowering,
    front: Front<'_>,
) -> Result<Thing, LowerFault>
    requires { CanWalk N.titles N.answer N.keeps walker.now state.old }
    ensures { Walked (Knows N.titles N.answer walker.now) (due a_thing (part_of (tree_of front.entry)).head)
        state.old state.new result }
{
    match front.last() {
        Last::Name(place, name) => name_head(walker, state, front, place, name),
        Last::List(_, _)
        | Last::Property(_, _, _)
        | Last::Index(_, _, _)
        | Last::Call(_, _, _)
        | Last::With(_, _)
        | Last::Pipe(_, _, _)
        | Last::Conditional(_, _, _, _)
        | Last::Other => thing(walker, state, front),
    }
}

/// The same of a name.
#[cycle(lower)]
fn name_head<N: Natives>(
    walker: &Walker<'_, N>,
    state: &mut Lowering,
    front: Front<'_>,
    place: Place,
    name: &Txt,
) -> Result<Thing, LowerFault>
    requires before { CanWalk N.titles N.answer N.keeps walker.now state.old }
    requires name { tree_of front ≡ tree.name place name.now }
    ensures { Walked (Knows N.titles N.answer walker.now) (due a_thing (part_of (tree_of front.entry)).head)
        state.old state.new result }
{
    if is_called_alone(walker, state, name.as_str()) {
        return named_call(walker, state, place, name, Args::of(&[]));
    }
    thing(walker, state, front)
}

/// What stands after a pipe, with what stands before it.
#[cycle(lower)]
fn piped<N: Natives>(
    walker: &Walker<'_, N>,
    state: &mut Lowering,
    front: Front<'_>,
    before: Before,
) -> Result<Thing, LowerFault>
    requires keeps { CanWalk N.titles N.answer N.keeps walker.now state.old }
    requires reads { ThingReads state.old.plan (thing_of before.thing) }
    ensures { Walked (Knows N.titles N.answer walker.now)
        (of_before before a_thing (part_of (tree_of front.entry)).piped) state.old state.new result }
{
    match front.last() {
        Last::Call(callee, _, args) => named(walker, state, callee, Args::of(args).after(before)),
        Last::With(callee, closure) => piped_closed(walker, state, callee, closure, before),
        Last::Name(_, _)
        | Last::List(_, _)
        | Last::Property(_, _, _)
        | Last::Index(_, _, _)
        | Last::Pipe(_, _, _)
        | Last::Conditional(_, _, _, _)
        | Last::Other => named(walker, state, front, Args::of(&[]).after(before)),
    }
}

/// The same before a closure.
#[cycle(lower)]
fn piped_closed<N: Natives>(
    walker: &Walker<'_, N>,
    state: &mut Lowering,
    front: Front<'_>,
    closure: &ClosureExpr,
    before: Before,
) -> Result<Thing, LowerFault>
    requires keeps { CanWalk N.titles N.answer N.keeps walker.now state.old }
    requires reads { ThingReads state.old.plan (thing_of before.thing) }
    ensures { Walked (Knows N.titles N.answer walker.now) (of_before before a_thing
        (λ y. (part_of (tree_of front.entry)).piped_closed y (closure_arg closure.now ∷ []))) state.old state.new
        result }
{
    match front.last() {
        Last::Call(callee, _, args) => {
            let args = Args::with_closure(args, closure).after(before);
            named(walker, state, callee, args)
        }
        Last::Name(_, _)
        | Last::List(_, _)
        | Last::Property(_, _, _)
        | Last::Index(_, _, _)
        | Last::With(_, _)
        | Last::Pipe(_, _, _)
        | Last::Conditional(_, _, _, _)
        | Last::Other => {
            let args = Args::with_closure(&[], closure).after(before);
            named(walker, state, front, args)
        }
    }
}

/// The call of what is a name, with these arguments.
#[cycle(lower)]
fn named<N: Natives>(
    walker: &Walker<'_, N>,
    state: &mut Lowering,
    front: Front<'_>,
    args: Args<'_>,
) -> Result<Thing, LowerFault>
    requires before { CanWalk N.titles N.answer N.keeps walker.now state.old }
    requires reads { ArgsRead state.old.plan args }
    ensures { Walked (Knows N.titles N.answer walker.now)
        (of_args args.entry a_thing (part_of (tree_of front.entry)).named) state.old state.new result }
{
    match front.last() {
        Last::Name(place, name) => named_call(walker, state, place, name, args),
        Last::List(_, _)
        | Last::Property(_, _, _)
        | Last::Index(_, _, _)
        | Last::Call(_, _, _)
        | Last::With(_, _)
        | Last::Pipe(_, _, _)
        | Last::Conditional(_, _, _, _)
        | Last::Other => bad_option(begin(front)),
    }
}
