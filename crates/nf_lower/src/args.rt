//! What arguments of calls stand for.

ghost use Rattle.std.specs.Prelude.{◌≡◌, suc, false, length, IfOk};
ghost use Rattle.nf_meaning.specs.Arguments as meaning;
ghost use Rattle.nf_meaning.specs.Arguments.{is_closure};
ghost use Rattle.nf_plan.specs.Plans.{ReadPlan};
ghost use Rattle.nf_arguments.specs.Args.{count_in, written_arg};
ghost use Rattle.nf_walked.specs.Around.{CanWalk, Knows};
ghost use Rattle.nf_walked.specs.Args.{ArgsRead, OneReads};
ghost use Rattle.nf_walked.specs.Arguing.{and_more, of_step, one_channel};
ghost use Rattle.nf_walked.specs.Forms.{a_port, a_thing, a_value, ports};
ghost use Rattle.nf_walked.specs.Parts.{of_args, of_one, thing_arg};
ghost use Rattle.nf_walked.specs.Steps.{Walked, due};

use crate::things::thing;
use nf_arguments::{Args, One, Written};
use nf_builtins::Natives;
use nf_fronts::Front;
use nf_graph::Port;
use nf_leading::value_wanted;
use nf_lowering::Lowering;
use nf_meaning::LowerFault;
use nf_scopes::Thing;
use nf_value::Value;
use nf_walked::{Walker, bad_option};

/// What an argument stands for; a closure stands for nothing.
#[cycle(lower)]
pub(crate) fn thing_arg<N: Natives>(
    walker: &Walker<'_, N>,
    state: &mut Lowering,
    arg: One<'_>,
) -> Result<Thing, LowerFault>
    requires before { CanWalk N.titles N.answer N.keeps walker.now state.old }
    requires reads { OneReads state.old.plan arg }
    ensures { Walked (Knows N.titles N.answer walker.now) (of_one arg.entry a_thing thing_arg) state.old state.new result }
{
    match arg {
        One::Before(before) => Ok(before.thing),
        One::Written(written) => written_thing(walker, state, written),
    }
}

/// The same of one that is written.
#[cycle(lower)]
fn written_thing<N: Natives>(
    walker: &Walker<'_, N>,
    state: &mut Lowering,
    arg: Written<'_>,
) -> Result<Thing, LowerFault>
    requires { CanWalk N.titles N.answer N.keeps walker.now state.old }
    ensures { Walked (Knows N.titles N.answer walker.now) (due a_thing (thing_arg (written_arg arg.entry))) state.old state.new result }
{
    match arg.closure() {
        Some(closure) => bad_option(closure.place),
        None => plain_thing(walker, state, arg),
    }
}

/// The same of one that is no closure.
#[cycle(lower)]
fn plain_thing<N: Natives>(
    walker: &Walker<'_, N>,
    state: &mut Lowering,
    arg: Written<'_>,
) -> Result<Thing, LowerFault>
    requires before { CanWalk N.titles N.answer N.keeps walker.now state.old }
    requires value { is_closure (written_arg arg).tree ≡ false }
    ensures { Walked (Knows N.titles N.answer walker.now) (due a_thing (written_arg arg.entry).thing) state.old state.new result }
{
    match arg {
        Written::Arg(arg) => thing(walker, state, Front::Whole(&arg.value)),
        Written::Closure(closure) => bad_option(closure.place),
    }
}

/// The value of an argument, which may be a file.
#[cycle(lower)]
pub(crate) fn value_arg<N: Natives>(
    walker: &Walker<'_, N>,
    state: &mut Lowering,
    arg: One<'_>,
) -> Result<Value, LowerFault>
    requires before { CanWalk N.titles N.answer N.keeps walker.now state.old }
    requires reads { OneReads state.old.plan arg }
    ensures { Walked (Knows N.titles N.answer walker.now) (of_one arg.entry a_value meaning.value_arg) state.old state.new result }
{
    let place = arg.place();
    let thing = thing_arg(walker, state, arg)?;
    value_wanted(place, thing)
}

/// The channel of an argument.
#[cycle(lower)]
pub(crate) fn channel_arg<N: Natives>(
    walker: &Walker<'_, N>,
    state: &mut Lowering,
    arg: One<'_>,
) -> Result<Port, LowerFault>
    requires before { CanWalk N.titles N.answer N.keeps walker.now state.old }
    requires reads { OneReads state.old.plan arg }
    ensures { Walked (Knows N.titles N.answer walker.now) (of_one arg.entry a_port meaning.channel_arg) state.old state.new result }
{
    let place = arg.place();
    let thing = thing_arg(walker, state, arg)?;
    walker.channel(state, place, thing)
}

/// The same of one that may have no name.
#[cycle(lower)]
fn unnamed_channel<N: Natives>(
    walker: &Walker<'_, N>,
    state: &mut Lowering,
    arg: One<'_>,
) -> Result<Port, LowerFault>
    requires before { CanWalk N.titles N.answer N.keeps walker.now state.old }
    requires reads { OneReads state.old.plan arg }
    ensures { Walked (Knows N.titles N.answer walker.now)
        (of_one arg.entry a_port (λ x. meaning.unnamed_channel x.label x)) state.old state.new result }
{
    match arg.label() {
        Some((place, _)) => bad_option(place),
        None => channel_arg(walker, state, arg),
    }
}

#[cycle(lower)]
fn and_channel<N: Natives>(
    walker: &Walker<'_, N>,
    state: &mut Lowering,
    arg: One<'_>,
    so_far: Vec<Port>,
) -> Result<Vec<Port>, LowerFault>
    requires before { CanWalk N.titles N.answer N.keeps walker.now state.old }
    requires reads { OneReads state.old.plan arg }
    requires ports { ReadPlan state.old.plan so_far.items }
    ensures walk { Walked (Knows N.titles N.answer walker.now)
        (of_step arg.entry so_far ports (and_more one_channel)) state.old state.new result }
    ensures count { IfOk result (λ more. length more.items ≡ suc (length so_far.items)) }
{
    let port = unnamed_channel(walker, state, arg)?;
    let mut ports = so_far;
    ports.push(port)?;
    Ok(ports)
}

/// The channels of arguments none of which may have a name.
#[cycle(lower)]
pub(crate) fn channel_args<N: Natives>(
    walker: &Walker<'_, N>,
    state: &mut Lowering,
    args: Args<'_>,
) -> Result<Vec<Port>, LowerFault>
    requires before { CanWalk N.titles N.answer N.keeps walker.now state.old }
    requires reads { ArgsRead state.old.plan args }
    ensures walk { Walked (Knows N.titles N.answer walker.now) (of_args args.entry ports meaning.channel_args)
        state.old state.new result }
    ensures count { IfOk result (λ made. length made.items ≡ count_in args.entry) }
{
    let mut args = args;
    let mut ports = Vec::new(walker.alloc);
    while let Some(arg) = args.take_first() {
        ports = and_channel(walker, state, arg, ports)?;
    }
    Ok(ports)
}
