//! Calls that stand at the end of an expression.

ghost use Rattle.std.specs.Prelude.{◌≡◌, ◌∷◌, [], None};
ghost use Rattle.nf_meaning.specs.Workflow as workflow;
ghost use Rattle.nf_meaning.specs.Workflow.{part_of};
ghost use Rattle.nf_optable.specs.Rows.{operator_rows, row_of};
ghost use Rattle.nf_scopes.specs.Things.{thing_of};
ghost use Rattle.nf_follows.specs.Things.{ThingReads};
ghost use Rattle.nf_fronts.specs.Fronts.{tree_of};
ghost use Rattle.nf_arguments.specs.Written.{closure_arg};
ghost use Rattle.nf_walked.specs.Around.{CanWalk, Knows};
ghost use Rattle.nf_walked.specs.Args.{ArgsRead};
ghost use Rattle.nf_walked.specs.Forms.{a_thing};
ghost use Rattle.nf_walked.specs.Parts.{name_method_at, of_args, of_call};
ghost use Rattle.nf_walked.specs.Members.{free_method_at, thing_method_at};
ghost use Rattle.nf_walked.specs.Steps.{Walked, due};

use crate::calls::named_call;
use crate::operators::operator_on_thing;
use crate::sources::source_call;
use crate::things::thing;
use nf_arguments::Args;
use nf_ast::ClosureExpr;
use nf_builtins::Natives;
use nf_fronts::{Front, Last};
use nf_leading::is_channel_word;
use nf_lowering::{Lowering, copy_thing};
use nf_meaning::LowerFault;
use nf_optable::operator_named;
use nf_scopes::Thing;
use nf_value::{Place, Txt};
use nf_walked::{Walker, bad_option, begin};

/// `e(..)`, with the place of the bracket.
#[cycle(lower)]
pub(crate) fn called<N: Natives>(
    walker: &Walker<'_, N>,
    state: &mut Lowering,
    front: Front<'_>,
    place: Place,
    args: Args<'_>,
) -> Result<Thing, LowerFault>
    requires before { CanWalk N.titles N.answer N.keeps walker.now state.old }
    requires reads { ArgsRead state.old.plan args }
    requires alone { args.before ≡ None }
    ensures { Walked (Knows N.titles N.answer walker.now)
        (of_args args.entry a_thing ((part_of (tree_of front.entry)).called place)) state.old state.new result }
{
    match front.last() {
        Last::Name(at, name) => named_call(walker, state, at, name, args),
        Last::Property(before, at, name) => method(walker, state, before, at, name, args),
        Last::List(_, _) => bad_option(place),
        Last::Index(_, _, _) => bad_option(place),
        Last::Call(_, _, _) => bad_option(place),
        Last::With(_, _) => bad_option(place),
        Last::Pipe(_, _, _) => bad_option(place),
        Last::Conditional(_, _, _, _) => bad_option(place),
        Last::Other => bad_option(place),
    }
}

/// `e { .. }`.
#[cycle(lower)]
pub(crate) fn closed<N: Natives>(
    walker: &Walker<'_, N>,
    state: &mut Lowering,
    front: Front<'_>,
    closure: &ClosureExpr,
) -> Result<Thing, LowerFault>
    requires { CanWalk N.titles N.answer N.keeps walker.now state.old }
    ensures { Walked (Knows N.titles N.answer walker.now)
        (due a_thing ((part_of (tree_of front.entry)).closed closure.now.place (closure_arg closure.now ∷ [])))
        state.old state.new result }
{
    match front.last() {
        Last::Call(before, place, args) => {
            called(
                walker,
                state,
                before,
                place,
                Args::with_closure(args, closure),
            )
        }
        Last::Name(_, _)
        | Last::Property(_, _, _)
        | Last::List(_, _)
        | Last::Index(_, _, _)
        | Last::With(_, _)
        | Last::Pipe(_, _, _)
        | Last::Conditional(_, _, _, _)
        | Last::Other => {
            called(
                walker,
                state,
                front,
                closure.place,
                Args::with_closure(&[], closure),
            )
        }
    }
}

/// `e.name(..)`, with the place of the name.
#[cycle(lower)]
fn method<N: Natives>(
    walker: &Walker<'_, N>,
    state: &mut Lowering,
    front: Front<'_>,
    place: Place,
    name: &Txt,
    args: Args<'_>,
) -> Result<Thing, LowerFault>
    requires before { CanWalk N.titles N.answer N.keeps walker.now state.old }
    requires reads { ArgsRead state.old.plan args }
    requires alone { args.before ≡ None }
    ensures { Walked (Knows N.titles N.answer walker.now)
        (of_args args.entry a_thing ((part_of (tree_of front.entry)).method place name.now)) state.old state.new result }
{
    match front.last() {
        Last::Name(at, object) => name_method(walker, state, at, object, place, name, args),
        Last::List(_, _)
        | Last::Property(_, _, _)
        | Last::Index(_, _, _)
        | Last::Call(_, _, _)
        | Last::With(_, _)
        | Last::Pipe(_, _, _)
        | Last::Conditional(_, _, _, _)
        | Last::Other => thing_method(walker, state, front, place, name, args),
    }
}

/// The same of what is no name.
#[cycle(lower)]
fn thing_method<N: Natives>(
    walker: &Walker<'_, N>,
    state: &mut Lowering,
    front: Front<'_>,
    place: Place,
    name: &Txt,
    args: Args<'_>,
) -> Result<Thing, LowerFault>
    requires before { CanWalk N.titles N.answer N.keeps walker.now state.old }
    requires reads { ArgsRead state.old.plan args }
    requires alone { args.before ≡ None }
    ensures { Walked (Knows N.titles N.answer walker.now)
        (of_args args.entry a_thing (thing_method_at (tree_of front.entry) place name.now)) state.old state.new result }
{
    let thing = thing(walker, state, front)?;
    method_of(walker, state, begin(front), place, name, args, thing)
}

/// `m.name(..)`; a process has no methods.
#[cycle(lower)]
fn name_method<N: Natives>(
    walker: &Walker<'_, N>,
    state: &mut Lowering,
    at: Place,
    object: &Txt,
    place: Place,
    name: &Txt,
    args: Args<'_>,
) -> Result<Thing, LowerFault>
    requires before { CanWalk N.titles N.answer N.keeps walker.now state.old }
    requires reads { ArgsRead state.old.plan args }
    requires alone { args.before ≡ None }
    ensures { Walked (Knows N.titles N.answer walker.now)
        (of_args args.entry a_thing (name_method_at at object.now place name.now)) state.old state.new result }
{
    match state.names().thing(object.as_str()) {
        Some(thing) => {
            let thing = copy_thing(walker.alloc, thing)?;
            method_of(walker, state, at, place, name, args, thing)
        }
        None => free_method(walker, state, at, object, place, name, args),
    }
}

/// `channel.of(..)`, of a name that nothing in the body binds.
#[cycle(lower)]
fn free_method<N: Natives>(
    walker: &Walker<'_, N>,
    state: &mut Lowering,
    at: Place,
    object: &Txt,
    place: Place,
    name: &Txt,
    args: Args<'_>,
) -> Result<Thing, LowerFault>
    requires before { CanWalk N.titles N.answer N.keeps walker.now state.old }
    requires reads { ArgsRead state.old.plan args }
    requires alone { args.before ≡ None }
    ensures { Walked (Knows N.titles N.answer walker.now)
        (of_args args.entry a_thing (free_method_at at object.now place name.now)) state.old state.new result }
{
    if is_channel_word(object.as_str()) {
        return source_call(walker, state, place, name, args);
    }
    bad_option(at)
}

/// The call of an operator on what was made before, whose expression begins at `begin`.
#[cycle(lower)]
fn method_of<N: Natives>(
    walker: &Walker<'_, N>,
    state: &mut Lowering,
    begin: Place,
    place: Place,
    name: &Txt,
    args: Args<'_>,
    thing: Thing,
) -> Result<Thing, LowerFault>
    requires before { CanWalk N.titles N.answer N.keeps walker.now state.old }
    requires reads { ArgsRead state.old.plan args }
    requires alone { args.before ≡ None }
    requires thing { ThingReads state.old.plan (thing_of thing) }
    ensures { Walked (Knows N.titles N.answer walker.now)
        (of_call thing args.entry a_thing (λ t xs. workflow.method_of begin place name.now xs t)) state.old state.new result }
{
    match thing {
        Thing::Known(_) => bad_option(begin),
        Thing::Channel(port) => operator_call(
            walker,
            state,
            place,
            name,
            args,
            Thing::Channel(port),
        ),
        Thing::Outputs(outputs) => {
            operator_call(walker, state, place, name, args, Thing::Outputs(outputs))
        }
    }
}

/// The same of what is no value.
#[cycle(lower)]
fn operator_call<N: Natives>(
    walker: &Walker<'_, N>,
    state: &mut Lowering,
    place: Place,
    name: &Txt,
    args: Args<'_>,
    thing: Thing,
) -> Result<Thing, LowerFault>
    requires before { CanWalk N.titles N.answer N.keeps walker.now state.old }
    requires reads { ArgsRead state.old.plan args }
    requires alone { args.before ≡ None }
    requires thing { ThingReads state.old.plan (thing_of thing) }
    ensures { Walked (Knows N.titles N.answer walker.now)
        (of_call thing args.entry a_thing (λ t xs. workflow.method_by (row_of name.now operator_rows) place t xs))
        state.old state.new result }
{
    match operator_named(name.as_str()) {
        Some(row) => operator_on_thing(walker, state, place, row, args, thing),
        None => Err(LowerFault::UnknownName { place }),
    }
}
