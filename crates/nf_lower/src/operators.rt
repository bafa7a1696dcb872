//! Calls of operators.

ghost use Rattle.std.specs.Prelude.{◌≡◌, None};
ghost use Rattle.nf_scopes.specs.Things.{thing_of};
ghost use Rattle.nf_meaning.specs.Arguments.{unnamed};
ghost use Rattle.nf_meaning.specs.Calls as calls;
ghost use Rattle.nf_meaning.specs.Operators as meaning;
ghost use Rattle.nf_follows.specs.Things.{PortReads, ThingReads};
ghost use Rattle.nf_applied.specs.Rooms.{Used};
ghost use Rattle.nf_bag.specs.declared.rows.Row.TheVariants.{Set};
ghost use Rattle.nf_applied.specs.Rows.{IsRowOf};
ghost use Rattle.nf_walked.specs.Args.{ArgsRead, OneReads};
ghost use Rattle.nf_walked.specs.Around.{CanWalk, Knows};
ghost use Rattle.nf_walked.specs.Forms.{a_thing};
ghost use Rattle.nf_walked.specs.Parts.{of_args, of_call, of_channel};
ghost use Rattle.nf_walked.specs.Steps.{Walked};
ghost use Rattle.nf_plan.specs.Plans.{HasRoom};
ghost use Rattle.nf_lower.specs.Operators.{IsListed, IsOther, TakesArgs, of_received, on_thing, reads_in};

use crate::args::{channel_arg, thing_arg};
use crate::sets::set_thing;
use crate::taking::take_args;
use nf_applied::taken::laws::inputs_fit;
use nf_applied::taken::operator_of;
use nf_applied::{apply_taken, begin_operator, unnamed_of};
use nf_arguments::{Args, One};
use nf_bag::Row;
use nf_builtins::Natives;
use nf_graph::Port;
use nf_lowering::Lowering;
use nf_meaning::LowerFault;
use nf_opargs::ports_of;
use nf_optable::OpRow;
use nf_scopes::Thing;
use nf_value::Place;
use nf_walked::Walker;

/// An operator on what was made before, as `ch.view()`. `place` is that of the operator's name.
#[cycle(lower)]
pub(crate) fn operator_on_thing<N: Natives>(
    walker: &Walker<'_, N>,
    state: &mut Lowering,
    place: Place,
    row: OpRow,
    args: Args<'_>,
    thing: Thing,
) -> Result<Thing, LowerFault>
    requires before { CanWalk N.titles N.answer N.keeps walker.now state.old }
    requires alone { args.before ≡ None }
    requires thing { ThingReads state.old.plan (thing_of thing) }
    requires listed { IsListed row }
    ensures { Walked (Knows N.titles N.answer walker.now) (of_call thing args.entry a_thing
        (λ t xs. meaning.operator_call place row (unnamed xs) (λ r. meaning.on_thing place row r t xs)))
        state.old state.new result }
{
    let operator = operator_of(place, row, unnamed_of(&args))?;
    match operator {
        Row::Set => set_thing(walker, state, place, row, args, thing, place),
        _ => applied_to_thing(walker, state, place, row, operator, args, thing),
    }
}

/// An operator that isn't `set` on what was made before.
#[cycle(lower)]
fn applied_to_thing<N: Natives>(
    walker: &Walker<'_, N>,
    state: &mut Lowering,
    place: Place,
    row: OpRow,
    operator: Row,
    args: Args<'_>,
    thing: Thing,
) -> Result<Thing, LowerFault>
    requires before { CanWalk N.titles N.answer N.keeps walker.now state.old }
    requires alone { args.before ≡ None }
    requires thing { ThingReads state.old.plan (thing_of thing) }
    requires row { IsRowOf row operator }
    requires takes { TakesArgs row args }
    ensures { Walked (Knows N.titles N.answer walker.now) (of_call thing args.entry a_thing (on_thing place row operator))
        state.old state.new result }
{
    let count = unnamed_of(&args);
    let port = begin_operator(walker, state, place, row, count, thing)?;
    with_channel(walker, state, place, row, operator, args, port)
}

/// An operator on its first argument without a name, as `view(ch)`.
#[cycle(lower)]
pub(crate) fn operator_on<N: Natives>(
    walker: &Walker<'_, N>,
    state: &mut Lowering,
    place: Place,
    row: OpRow,
    args: Args<'_>,
) -> Result<Thing, LowerFault>
    requires before { CanWalk N.titles N.answer N.keeps walker.now state.old }
    requires reads { ArgsRead state.old.plan args }
    requires listed { IsListed row }
    ensures { Walked (Knows N.titles N.answer walker.now) (of_args args.entry a_thing (calls.operator_on place row))
        state.old state.new result }
{
    let mut args = args;
    match args.take_receiver() {
        Some(receiver) => operator_on_received(walker, state, place, row, receiver, args),
        None => Err(LowerFault::WrongArity { place }),
    }
}

/// The same once that argument is taken out of the others.
#[cycle(lower)]
fn operator_on_received<N: Natives>(
    walker: &Walker<'_, N>,
    state: &mut Lowering,
    place: Place,
    row: OpRow,
    receiver: One<'_>,
    args: Args<'_>,
) -> Result<Thing, LowerFault>
    requires before { CanWalk N.titles N.answer N.keeps walker.now state.old }
    requires reads { OneReads state.old.plan receiver }
    requires alone { args.before ≡ None }
    requires listed { IsListed row }
    ensures { Walked (Knows N.titles N.answer walker.now) (of_received receiver.entry args.entry
        (λ x xs. meaning.operator_call place row (unnamed xs) (λ r. meaning.on_argument place row r x xs)))
        state.old state.new result }
{
    let operator = operator_of(place, row, unnamed_of(&args))?;
    match operator {
        Row::Set => set_received(walker, state, place, row, receiver, args),
        _ => applied_to_received(walker, state, place, row, operator, receiver, args),
    }
}

/// `set` on that argument.
#[cycle(lower)]
fn set_received<N: Natives>(
    walker: &Walker<'_, N>,
    state: &mut Lowering,
    place: Place,
    row: OpRow,
    receiver: One<'_>,
    args: Args<'_>,
) -> Result<Thing, LowerFault>
    requires before { CanWalk N.titles N.answer N.keeps walker.now state.old }
    requires reads { OneReads state.old.plan receiver }
    requires alone { args.before ≡ None }
    requires row { IsRowOf row Set }
    ensures { Walked (Knows N.titles N.answer walker.now) (of_received receiver.entry args.entry
        (meaning.on_argument place row Set)) state.old state.new result }
{
    let begin = receiver.place();
    let thing = thing_arg(walker, state, receiver)?;
    set_thing(walker, state, place, row, args, thing, begin)
}

/// An operator that isn't `set` on that argument.
#[cycle(lower)]
fn applied_to_received<N: Natives>(
    walker: &Walker<'_, N>,
    state: &mut Lowering,
    place: Place,
    row: OpRow,
    operator: Row,
    receiver: One<'_>,
    args: Args<'_>,
) -> Result<Thing, LowerFault>
    requires before { CanWalk N.titles N.answer N.keeps walker.now state.old }
    requires reads { OneReads state.old.plan receiver }
    requires alone { args.before ≡ None }
    requires row { IsRowOf row operator }
    requires other { IsOther operator }
    requires takes { TakesArgs row args }
    ensures { Walked (Knows N.titles N.answer walker.now) (of_received receiver.entry args.entry
        (meaning.on_argument place row operator)) state.old state.new result }
{
    walker.count(state, place, ports_of(row, unnamed_of(&args)))?;
    let port = channel_arg(walker, state, receiver)?;
    with_channel(walker, state, place, row, operator, args, port)
}

/// The operator on the channel that the port reads; the call is counted.
#[cycle(lower)]
fn with_channel<N: Natives>(
    walker: &Walker<'_, N>,
    state: &mut Lowering,
    place: Place,
    row: OpRow,
    operator: Row,
    args: Args<'_>,
    port: Port,
) -> Result<Thing, LowerFault>
    requires before { CanWalk N.titles N.answer N.keeps walker.now state.old }
    requires alone { args.before ≡ None }
    requires port { PortReads state.old.plan port }
    requires row { IsRowOf row operator }
    requires takes { TakesArgs row args }
    requires room { HasRoom state.old.plan (reads_in row args) }
    ensures { Used (Knows N.titles N.answer walker.now) 1 (reads_in row args.entry)
        (of_channel port args.entry a_thing (λ c xs. meaning.with_channel place row operator xs c))
        state.old state.new result }
{
    inputs_fit();
    let taken = take_args(walker, state, row, operator, args)?;
    apply_taken(walker, state, place, operator, port, taken)
}
