//! `set`: a name for a channel, or for all that a call gives.

ghost use Rattle.std.specs.Prelude.{◌≡◌, None, map};
ghost use Rattle.nf_scopes.specs.Things.{output_of, thing_of};
ghost use Rattle.nf_meaning.specs.Operators as meaning;
ghost use Rattle.nf_follows.specs.Things.{OutputsRead, ThingReads};
ghost use Rattle.nf_bag.specs.declared.rows.Row.TheVariants.{Set};
ghost use Rattle.nf_scopes.specs.declared.things.Thing.TheVariants.{Outputs};
ghost use Rattle.nf_applied.specs.Rows.{IsRowOf};
ghost use Rattle.nf_walked.specs.Around.{CanWalk, Knows};
ghost use Rattle.nf_walked.specs.Forms.{a_thing};
ghost use Rattle.nf_walked.specs.Parts.{of_call};
ghost use Rattle.nf_walked.specs.Steps.{Walked};
ghost use Rattle.nf_lower.specs.Operators.{IsOne};

use crate::taking::take_args;
use nf_applied::taken::laws::set_takes_a_name;
use nf_applied::{begin_set, count_each, name_channel, name_outputs};
use nf_arguments::Args;
use nf_bag::Row;
use nf_builtins::Natives;
use nf_lowering::Lowering;
use nf_meaning::LowerFault;
use nf_optable::OpRow;
use nf_scopes::{CallOutput, Thing};
use nf_value::Place;
use nf_walked::Walker;

/// Binds a name to a channel, or to all that a call gives. `begin` is where the expression of the thing begins.
#[cycle(lower)]
pub(crate) fn set_thing<N: Natives>(
    walker: &Walker<'_, N>,
    state: &mut Lowering,
    place: Place,
    row: OpRow,
    args: Args<'_>,
    thing: Thing,
    begin: Place,
) -> Result<Thing, LowerFault>
    requires before { CanWalk N.titles N.answer N.keeps walker.now state.old }
    requires alone { args.before ≡ None }
    requires thing { ThingReads state.old.plan (thing_of thing) }
    requires row { IsRowOf row Set }
    ensures { Walked (Knows N.titles N.answer walker.now) (of_call thing args.entry a_thing
        (λ t xs. meaning.set_thing place row xs t begin)) state.old state.new result }
{
    match thing {
        Thing::Outputs(outputs) => set_all(walker, state, place, row, args, outputs),
        other => set_one(walker, state, place, row, args, other, begin),
    }
}

/// The `set` of a channel.
#[cycle(lower)]
fn set_one<N: Natives>(
    walker: &Walker<'_, N>,
    state: &mut Lowering,
    place: Place,
    row: OpRow,
    args: Args<'_>,
    thing: Thing,
    begin: Place,
) -> Result<Thing, LowerFault>
    requires before { CanWalk N.titles N.answer N.keeps walker.now state.old }
    requires alone { args.before ≡ None }
    requires thing { ThingReads state.old.plan (thing_of thing) }
    requires one { IsOne (thing_of thing) }
    requires row { IsRowOf row Set }
    ensures { Walked (Knows N.titles N.answer walker.now) (of_call thing args.entry a_thing
        (λ t xs. meaning.set_thing place row xs t begin)) state.old state.new result }
{
    set_takes_a_name();
    let port = begin_set(walker, state, place, begin, thing)?;
    let taken = take_args(walker, state, row, Row::Set, args)?;
    name_channel(walker, state, place, port, &taken)
}

/// The `set` of all that a call gives, each output by itself.
#[cycle(lower)]
fn set_all<N: Natives>(
    walker: &Walker<'_, N>,
    state: &mut Lowering,
    place: Place,
    row: OpRow,
    args: Args<'_>,
    outputs: Vec<CallOutput>,
) -> Result<Thing, LowerFault>
    requires before { CanWalk N.titles N.answer N.keeps walker.now state.old }
    requires alone { args.before ≡ None }
    requires outputs { OutputsRead state.old.plan (map output_of outputs.items) }
    requires row { IsRowOf row Set }
    ensures { Walked (Knows N.titles N.answer walker.now) (of_call (Outputs outputs) args.entry a_thing
        (λ t xs. meaning.set_thing place row xs t place)) state.old state.new result }
{
    set_takes_a_name();
    count_each(walker, state, place, outputs.len())?;
    let taken = take_args(walker, state, row, Row::Set, args)?;
    name_outputs(walker, state, place, outputs.as_slice(), &taken)
}
