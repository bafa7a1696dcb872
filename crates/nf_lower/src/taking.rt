//! What operators take of their arguments, which are gone through.

ghost use Rattle.std.specs.Prelude.{◌≡◌, ◌+◌, IfOk, None, length};
ghost use Rattle.nf_arguments.specs.Args.{before_in, written_arg, written_in};
ghost use Rattle.nf_meaning.specs.Arguments.{is_unnamed, unnamed};
ghost use Rattle.nf_meaning.specs.Taken as meaning;
ghost use Rattle.nf_applied.specs.Taking.{TakenFits, a_taken};
ghost use Rattle.nf_applied.specs.Rows.{IsRowOf};
ghost use Rattle.nf_applied.specs.Wanted.{wanted_walk};
ghost use Rattle.nf_walked.specs.Around.{CanWalk, Knows};
ghost use Rattle.nf_walked.specs.Arguing.{of_step};
ghost use Rattle.nf_walked.specs.Parts.{of_args};
ghost use Rattle.nf_walked.specs.Steps.{Walked, from};
ghost use Rattle.nf_lower.specs.Taking.{MorePorts, TakesPorts};

use crate::args::{channel_arg, value_arg};
use nf_applied::taken::{Taken, Wanted, wants};
use nf_applied::{take_alone, take_named};
use nf_arguments::{Args, One, Written};
use nf_bag::Row;
use nf_builtins::Natives;
use nf_lowering::Lowering;
use nf_meaning::LowerFault;
use nf_optable::OpRow;
use nf_walked::{Walker, bad_option};

/// What an operator takes of its arguments, beside the channel that it is called on.
#[cycle(lower)]
pub(crate) fn take_args<N: Natives>(
    walker: &Walker<'_, N>,
    state: &mut Lowering,
    row: OpRow,
    operator: Row,
    args: Args<'_>,
) -> Result<Taken, LowerFault>
    requires before { CanWalk N.titles N.answer N.keeps walker.now state.old }
    requires alone { args.before ≡ None }
    requires row { IsRowOf row operator }
    ensures walk { Walked (Knows N.titles N.answer walker.now) (of_args args.entry (a_taken operator)
        (λ xs. meaning.take_args row operator xs meaning.nothing_taken)) state.old state.new result }
    ensures ports { TakesPorts row args.entry result }
{
    let mut args = args;
    let mut taken = Taken::nothing(walker.alloc);
    while let Some(arg) = args.take_first() {
        let is_last = args.unnamed() == 0;
        taken = take_arg(walker, state, row, operator, is_last, arg, taken)?;
    }
    Ok(taken)
}

/// What is taken of an argument, with what was taken before it.
#[cycle(lower)]
fn take_arg<N: Natives>(
    walker: &Walker<'_, N>,
    state: &mut Lowering,
    row: OpRow,
    operator: Row,
    is_last: bool,
    arg: One<'_>,
    taken: Taken,
) -> Result<Taken, LowerFault>
    requires before { CanWalk N.titles N.answer N.keeps walker.now state.old }
    requires reads { TakenFits operator state.old.plan taken }
    requires row { IsRowOf row operator }
    requires written { before_in arg ≡ None }
    ensures walk { Walked (Knows N.titles N.answer walker.now) (of_step arg.entry taken (a_taken operator)
        (λ y t. meaning.take_arg row operator is_last y.label y t)) state.old state.new result }
    ensures ports { MorePorts row (unnamed (written_in arg.entry)) taken result }
{
    match arg {
        One::Written(written) => take_written(
            walker, state, row, operator, is_last, written, taken,
        ),
        One::Before(before) => bad_option(before.place),
    }
}

/// What is taken of an argument as it is written.
#[cycle(lower)]
fn take_written<N: Natives>(
    walker: &Walker<'_, N>,
    state: &mut Lowering,
    row: OpRow,
    operator: Row,
    is_last: bool,
    arg: Written<'_>,
    taken: Taken,
) -> Result<Taken, LowerFault>
    requires before { CanWalk N.titles N.answer N.keeps walker.now state.old }
    requires reads { TakenFits operator state.old.plan taken }
    requires row { IsRowOf row operator }
    ensures walk { Walked (Knows N.titles N.answer walker.now) (from (a_taken operator) taken (a_taken operator)
        (meaning.take_arg row operator is_last (written_arg arg.entry).label (written_arg arg.entry)))
        state.old state.new result }
    ensures ports { MorePorts row (is_unnamed (written_arg arg.entry).label) taken result }
{
    match arg.label() {
        Some((place, name)) => take_named(walker, state, row.options, place, name, arg, taken),
        None => take_unnamed(walker, state, row, operator, is_last, arg, taken),
    }
}

/// What is taken of an argument without a name, which may be the last one.
#[cycle(lower)]
fn take_unnamed<N: Natives>(
    walker: &Walker<'_, N>,
    state: &mut Lowering,
    row: OpRow,
    operator: Row,
    is_last: bool,
    arg: Written<'_>,
    taken: Taken,
) -> Result<Taken, LowerFault>
    requires before { CanWalk N.titles N.answer N.keeps walker.now state.old }
    requires reads { TakenFits operator state.old.plan taken }
    requires row { IsRowOf row operator }
    ensures walk { Walked (Knows N.titles N.answer walker.now) (from (a_taken operator) taken (a_taken operator)
        (meaning.with_unnamed row.closure operator row.args is_last (written_arg arg.entry))) state.old state.new result }
    ensures ports { MorePorts row 1 taken result }
{
    match wants(row, operator, is_last, arg) {
        Wanted::Channel => take_channel(walker, state, operator, arg, taken),
        Wanted::Start => {
            let value = value_arg(walker, state, One::Written(arg))?;
            Ok(taken.and_start(value))
        }
        Wanted::Literal => {
            let value = value_arg(walker, state, One::Written(arg))?;
            Ok(taken.and_literal(value))
        }
        Wanted::Alone(alone) => take_alone(walker, state, alone, arg, taken),
    }
}

/// The channel that an argument stands for is read too.
#[cycle(lower)]
fn take_channel<N: Natives>(
    walker: &Walker<'_, N>,
    state: &mut Lowering,
    operator: Row,
    arg: Written<'_>,
    taken: Taken,
) -> Result<Taken, LowerFault>
    requires before { CanWalk N.titles N.answer N.keeps walker.now state.old }
    requires reads { TakenFits operator state.old.plan taken }
    ensures walk { Walked (Knows N.titles N.answer walker.now) (from (a_taken operator) taken (a_taken operator)
        (wanted_walk Wanted.Channel (written_arg arg.entry))) state.old state.new result }
    ensures ports { IfOk result (λ x. length x.ports.items ≡ length taken.ports.items + 1) }
{
    let port = channel_arg(walker, state, One::Written(arg))?;
    Ok(taken.and_port(port)?)
}
