//! Counting the calls of operators.

ghost use Rattle.std.specs.Prelude.{◌≡◌, ◌+◌, ◌<◌, List, OnOk, None, length};
ghost use Rattle.nf_arguments.specs.Args.{AreArgs, written_args};
ghost use Rattle.nf_graph.specs.Meaning.{Bags};
ghost use Rattle.nf_meaning.specs.Arguments as meaning;
ghost use Rattle.nf_meaning.specs.Operators.{counted_all};
ghost use Rattle.nf_meaning.specs.Taken as taken;
ghost use Rattle.nf_scopes.specs.Things.{thing_of};
ghost use Rattle.nf_follows.specs.Things.{ThingReads};
ghost use Rattle.nf_walked.specs.Around.{CanWalk, Knows};
ghost use Rattle.nf_walked.specs.Forms.{a_port, a_thing};
ghost use Rattle.nf_walked.specs.Steps.{Walked, from};
ghost use Rattle.nf_applied.specs.Applied.{of_count, opened, set_opened};
ghost use Rattle.nf_applied.specs.Rooms.{LeavesRoom};

use nf_arguments::Args;
use nf_builtins::Natives;
use nf_graph::Port;
use nf_lowering::Lowering;
use nf_meaning::LowerFault;
use nf_opargs::ports_of;
use nf_optable::OpRow;
use nf_scopes::Thing;
use nf_value::Place;
use nf_walked::Walker;

/// How many of these arguments have no name, none of which stands before a pipe; there are fewer than 2^64 - 1. Takes
/// no memory.
pub fn unnamed_of(args: &Args<'_>) -> usize
    requires { args.now.before ≡ None }
    ensures count { result ≡ meaning.unnamed (written_args args.now) }
    ensures are { (bags : Bags) (ys : List meaning.Arg) → AreArgs bags args.now ys → result ≡ meaning.unnamed ys }
    ensures few { result < usize.MAX }
{
    let _more = more_than_written(args);
    args.unnamed()
}

/// More than are written, a closure behind the brackets among them.
fn more_than_written(args: &Args<'_>) -> usize
    ensures { result ≡ length args.now.options.now + length args.now.args.now + 2 }
{
    args.options.len() + args.args.len() + 2
}

/// The call of an operator on this thing, with so many arguments without a name, begins: the thing becomes a channel,
/// and the call is counted (Nextflow reference documentation, "Operators"). The operator's name stands at `place`.
///
/// # Errors
///
/// As for `Walker::channel` and `Walker::count`.
pub fn begin_operator<N: Natives>(
    walker: &Walker<'_, N>,
    state: &mut Lowering,
    place: Place,
    row: OpRow,
    count: usize,
    thing: Thing,
) -> Result<Port, LowerFault>
    requires before { CanWalk N.titles N.answer N.keeps walker.now state.old }
    requires reads { ThingReads state.old.plan (thing_of thing) }
    requires few { count < usize.MAX }
    ensures walk { Walked (Knows N.titles N.answer walker.now) (from a_thing thing a_port
        (opened place (taken.ports_of row count))) state.old state.new result }
    ensures room { OnOk result (LeavesRoom 1 (taken.ports_of row count) state.old.plan state.new.plan) }
{
    let port = walker.channel(state, place, thing)?;
    walker.count(state, place, ports_of(row, count))?;
    Ok(port)
}

/// `set` on this thing begins: it is counted, and the thing becomes a channel (Nextflow reference documentation,
/// "Operators", "set"). The name of `set` stands at `place`, the expression of the thing begins at `begin`.
///
/// # Errors
///
/// As for `Walker::count` and `Walker::channel`.
pub fn begin_set<N: Natives>(
    walker: &Walker<'_, N>,
    state: &mut Lowering,
    place: Place,
    begin: Place,
    thing: Thing,
) -> Result<Port, LowerFault>
    requires before { CanWalk N.titles N.answer N.keeps walker.now state.old }
    requires reads { ThingReads state.old.plan (thing_of thing) }
    ensures walk { Walked (Knows N.titles N.answer walker.now) (from a_thing thing a_port
        (set_opened place begin)) state.old state.new result }
    ensures room { OnOk result (LeavesRoom 1 1 state.old.plan state.new.plan) }
{
    walker.count(state, place, 1)?;
    walker.channel(state, begin, thing)
}

/// Counts a `set` for each of so many outputs (Nextflow reference documentation, "Operators", "set").
///
/// # Errors
///
/// As for `Walker::count`.
pub fn count_each<N: Natives>(
    walker: &Walker<'_, N>,
    state: &mut Lowering,
    place: Place,
    count: usize,
) -> Result<(), LowerFault>
    requires { CanWalk N.titles N.answer N.keeps walker.now state.old }
    ensures walk { Walked (Knows N.titles N.answer walker.now) (of_count count (counted_all place))
        state.old state.new result }
    ensures room { OnOk result (LeavesRoom count count state.old.plan state.new.plan) }
{
    for _ in 0..count {
        walker.count(state, place, 1)?;
    }
    Ok(())
}
