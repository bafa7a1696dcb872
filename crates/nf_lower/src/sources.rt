//! Sources of channels, and files.

ghost use Rattle.std.specs.Prelude.{◌≡◌, ◌≤◌, ◌+◌, IfOk, None, false, length, true};
ghost use Rattle.nf_arguments.specs.Args.{before_in, written_arg, written_in};
ghost use Rattle.nf_meaning.specs.Arguments.{unnamed};
ghost use Rattle.nf_meaning.specs.Sources as meaning;
ghost use Rattle.nf_opargs.specs.Sources.{fits_kind, source_of};
ghost use Rattle.nf_opargs.specs.declared.sources.Source.TheVariants.{Empty, FromFilePairs, FromPath, Value as OfValue};
ghost use Rattle.nf_walked.specs.Around.{CanWalk, Knows};
ghost use Rattle.nf_walked.specs.Args.{ArgsRead, BeforeReads, OneReads};
ghost use Rattle.nf_walked.specs.Arguing.{and_more, of_step};
ghost use Rattle.nf_walked.specs.Forms.{a_thing, values};
ghost use Rattle.nf_walked.specs.Parts.{of_args};
ghost use Rattle.nf_walked.specs.Steps.{Walked, from};
ghost use Rattle.nf_applied.specs.Sources.{a_path, gives_value, items_of, placed};
ghost use Rattle.nf_lower.specs.Sources.{HasAsMany, TakesSoMany, list_walk};

use crate::args::value_arg;
use nf_applied::taken::{PathArgs, range_in, source_wanted};
use nf_applied::{
    found_file, found_files, found_pairs, give_source, items_in, path_named, range_items, values_in,
};
use nf_arguments::{Args, One, Written};
use nf_builtins::Natives;
use nf_lowering::Lowering;
use nf_meaning::LowerFault;
use nf_opargs::{PathKind, Source};
use nf_scopes::Thing;
use nf_value::{Place, Txt, Value};
use nf_walked::{Walker, bad_option};

/// Values of arguments, each with the place where its argument begins.
#[derive(Drop)]
struct Placed {
    values: Vec<(Place, Value)>,
}

/// `channel.NAME(..)`. `place` is that of the name.
#[cycle(lower)]
pub(crate) fn source_call<N: Natives>(
    walker: &Walker<'_, N>,
    state: &mut Lowering,
    place: Place,
    name: &Txt,
    args: Args<'_>,
) -> Result<Thing, LowerFault>
    requires before { CanWalk N.titles N.answer N.keeps walker.now state.old }
    requires alone { args.before ≡ None }
    ensures { Walked (Knows N.titles N.answer walker.now)
        (of_args args.entry a_thing (meaning.source_call place name.now)) state.old state.new result }
{
    let source = source_wanted(place, name.as_str(), args.unnamed())?;
    walker.count(state, place, 0)?;
    let items = source_items(walker, state, source, args)?;
    give_source(walker, state, place, name, source, items)
}

/// The items of a source.
#[cycle(lower)]
fn source_items<N: Natives>(
    walker: &Walker<'_, N>,
    state: &mut Lowering,
    source: Source,
    args: Args<'_>,
) -> Result<Vec<Value>, LowerFault>
    requires before { CanWalk N.titles N.answer N.keeps walker.now state.old }
    requires alone { args.before ≡ None }
    requires count { TakesSoMany source args }
    ensures walk { Walked (Knows N.titles N.answer walker.now)
        (of_args args.entry (items_of source) (meaning.source (source_of source))) state.old state.new result }
    ensures single { gives_value source ≡ true → IfOk result (λ items. length items.items ≤ 1) }
{
    match source {
        Source::Of => item_args(walker, state, args),
        Source::FromList => list_items(walker, state, args),
        Source::Value => alone_items(walker, state, args),
        Source::Empty => no_items(walker, state, args),
        Source::FromPath => from_path(walker, state, args),
        Source::FromFilePairs => from_pairs(walker, state, args),
    }
}

// ---- values

/// The items of `channel.of`: a range stands for several.
#[cycle(lower)]
fn item_args<N: Natives>(
    walker: &Walker<'_, N>,
    state: &mut Lowering,
    args: Args<'_>,
) -> Result<Vec<Value>, LowerFault>
    requires before { CanWalk N.titles N.answer N.keeps walker.now state.old }
    requires alone { args.before ≡ None }
    ensures { Walked (Knows N.titles N.answer walker.now) (of_args args.entry values meaning.item_args)
        state.old state.new result }
{
    let mut args = args;
    let mut items = Vec::new(walker.alloc);
    while let Some(arg) = args.take_first() {
        items = item_arg(walker, state, arg, items)?;
    }
    Ok(items)
}

/// What an argument of `channel.of` gives, behind what was given before.
#[cycle(lower)]
fn item_arg<N: Natives>(
    walker: &Walker<'_, N>,
    state: &mut Lowering,
    arg: One<'_>,
    items: Vec<Value>,
) -> Result<Vec<Value>, LowerFault>
    requires before { CanWalk N.titles N.answer N.keeps walker.now state.old }
    requires written { before_in arg ≡ None }
    ensures { Walked (Knows N.titles N.answer walker.now)
        (of_step arg.entry items values (and_more (λ x. meaning.item_arg x.label x))) state.old state.new result }
{
    match arg {
        One::Written(written) => written_item(walker, state, written, items),
        One::Before(before) => bad_option(before.place),
    }
}

/// The same of an argument as it is written.
#[cycle(lower)]
fn written_item<N: Natives>(
    walker: &Walker<'_, N>,
    state: &mut Lowering,
    arg: Written<'_>,
    items: Vec<Value>,
) -> Result<Vec<Value>, LowerFault>
    requires { CanWalk N.titles N.answer N.keeps walker.now state.old }
    ensures { Walked (Knows N.titles N.answer walker.now) (from values items values
        (and_more (λ x. meaning.item_arg x.label x) (written_arg arg.entry))) state.old state.new result }
{
    match arg.label() {
        Some((place, _)) => bad_option(place),
        None => unnamed_item(walker, state, arg, items),
    }
}

/// The same of one that has no name.
#[cycle(lower)]
fn unnamed_item<N: Natives>(
    walker: &Walker<'_, N>,
    state: &mut Lowering,
    arg: Written<'_>,
    items: Vec<Value>,
) -> Result<Vec<Value>, LowerFault>
    requires { CanWalk N.titles N.answer N.keeps walker.now state.old }
    ensures { Walked (Knows N.titles N.answer walker.now) (from values items values
        (and_more (meaning.item_arg None) (written_arg arg.entry))) state.old state.new result }
{
    match range_in(arg) {
        Some(range) => range_items(walker, state, range, items),
        None => value_item(walker, state, arg, items),
    }
}

/// The value of an argument, behind what was given before.
#[cycle(lower)]
fn value_item<N: Natives>(
    walker: &Walker<'_, N>,
    state: &mut Lowering,
    arg: Written<'_>,
    items: Vec<Value>,
) -> Result<Vec<Value>, LowerFault>
    requires { CanWalk N.titles N.answer N.keeps walker.now state.old }
    ensures { Walked (Knows N.titles N.answer walker.now) (from values items values
        (and_more (meaning.items_by false) (written_arg arg.entry))) state.old state.new result }
{
    let value = value_arg(walker, state, One::Written(arg))?;
    let mut items = items;
    items.push(value)?;
    Ok(items)
}

/// Values of arguments without a name, each with the place where its argument begins.
#[cycle(lower)]
fn only_values<N: Natives>(
    walker: &Walker<'_, N>,
    state: &mut Lowering,
    args: Args<'_>,
) -> Result<Vec<(Place, Value)>, LowerFault>
    requires before { CanWalk N.titles N.answer N.keeps walker.now state.old }
    requires alone { args.before ≡ None }
    ensures walk { Walked (Knows N.titles N.answer walker.now) (of_args args.entry placed meaning.only_values)
        state.old state.new result }
    ensures count { HasAsMany args.entry result }
{
    let mut args = args;
    let mut given = Vec::new(walker.alloc);
    while let Some(arg) = args.take_first() {
        given = only_value(walker, state, arg, Placed { values: given })?;
    }
    Ok(given)
}

/// One of them, behind those before it.
#[cycle(lower)]
fn only_value<N: Natives>(
    walker: &Walker<'_, N>,
    state: &mut Lowering,
    arg: One<'_>,
    given: Placed,
) -> Result<Vec<(Place, Value)>, LowerFault>
    requires before { CanWalk N.titles N.answer N.keeps walker.now state.old }
    requires written { before_in arg ≡ None }
    ensures walk { Walked (Knows N.titles N.answer walker.now)
        (of_step arg.entry given.values placed (and_more (λ x. meaning.only_value x.label x))) state.old state.new result }
    ensures count { IfOk result (λ vs. length vs.items ≡ length given.values.items + unnamed (written_in arg.entry)) }
{
    match arg.label() {
        Some((place, _)) => bad_option(place),
        None => placed_value(walker, state, arg, given),
    }
}

/// The same of one that has no name.
#[cycle(lower)]
fn placed_value<N: Natives>(
    walker: &Walker<'_, N>,
    state: &mut Lowering,
    arg: One<'_>,
    given: Placed,
) -> Result<Vec<(Place, Value)>, LowerFault>
    requires before { CanWalk N.titles N.answer N.keeps walker.now state.old }
    requires written { before_in arg ≡ None }
    ensures walk { Walked (Knows N.titles N.answer walker.now)
        (of_step arg.entry given.values placed (and_more (meaning.only_value None))) state.old state.new result }
    ensures count { IfOk result (λ vs. length vs.items ≡ length given.values.items + 1) }
{
    let place = arg.place();
    let value = value_arg(walker, state, arg)?;
    let Placed { values: mut given } = given;
    given.push((place, value))?;
    Ok(given)
}

/// The items of the list that is the only argument of `channel.fromList`.
#[cycle(lower)]
fn list_items<N: Natives>(
    walker: &Walker<'_, N>,
    state: &mut Lowering,
    args: Args<'_>,
) -> Result<Vec<Value>, LowerFault>
    requires before { CanWalk N.titles N.answer N.keeps walker.now state.old }
    requires alone { args.before ≡ None }
    ensures { Walked (Knows N.titles N.answer walker.now)
        (of_args args.entry values list_walk) state.old state.new result }
{
    let given = only_values(walker, state, args)?;
    items_in(walker.alloc, given)
}

/// The value of `channel.value`, as items.
#[cycle(lower)]
fn alone_items<N: Natives>(
    walker: &Walker<'_, N>,
    state: &mut Lowering,
    args: Args<'_>,
) -> Result<Vec<Value>, LowerFault>
    requires before { CanWalk N.titles N.answer N.keeps walker.now state.old }
    requires alone { args.before ≡ None }
    ensures walk { Walked (Knows N.titles N.answer walker.now)
        (of_args args.entry (items_of OfValue) (meaning.source meaning.of_value)) state.old state.new result }
    ensures count { HasAsMany args.entry result }
{
    let given = only_values(walker, state, args)?;
    Ok(values_in(walker.alloc, given)?)
}

/// `channel.empty`, whose arguments are gone through too.
#[cycle(lower)]
fn no_items<N: Natives>(
    walker: &Walker<'_, N>,
    state: &mut Lowering,
    args: Args<'_>,
) -> Result<Vec<Value>, LowerFault>
    requires before { CanWalk N.titles N.answer N.keeps walker.now state.old }
    requires alone { args.before ≡ None }
    ensures { Walked (Knows N.titles N.answer walker.now)
        (of_args args.entry (items_of Empty) (meaning.source meaning.of_nothing)) state.old state.new result }
{
    only_values(walker, state, args)?;
    Ok(Vec::new(walker.alloc))
}

// ---- files

/// The files of `channel.fromPath`.
#[cycle(lower)]
fn from_path<N: Natives>(
    walker: &Walker<'_, N>,
    state: &mut Lowering,
    args: Args<'_>,
) -> Result<Vec<Value>, LowerFault>
    requires before { CanWalk N.titles N.answer N.keeps walker.now state.old }
    requires alone { args.before ≡ None }
    ensures { Walked (Knows N.titles N.answer walker.now)
        (of_args args.entry (items_of FromPath) (meaning.source meaning.from_path)) state.old state.new result }
{
    let given = path_args(walker, state, PathKind::Files, args)?;
    found_files(walker, state, &given)
}

/// The pairs of files of `channel.fromFilePairs`.
#[cycle(lower)]
fn from_pairs<N: Natives>(
    walker: &Walker<'_, N>,
    state: &mut Lowering,
    args: Args<'_>,
) -> Result<Vec<Value>, LowerFault>
    requires before { CanWalk N.titles N.answer N.keeps walker.now state.old }
    requires alone { args.before ≡ None }
    ensures { Walked (Knows N.titles N.answer walker.now)
        (of_args args.entry (items_of FromFilePairs) (meaning.source meaning.from_pairs)) state.old state.new result }
{
    let given = path_args(walker, state, PathKind::Pairs, args)?;
    found_pairs(walker, state, &given)
}

/// `file(..)`, which is no source of a channel. `place` is that of the name.
#[cycle(lower)]
pub(crate) fn file_call<N: Natives>(
    walker: &Walker<'_, N>,
    state: &mut Lowering,
    place: Place,
    args: Args<'_>,
) -> Result<Thing, LowerFault>
    requires before { CanWalk N.titles N.answer N.keeps walker.now state.old }
    requires reads { ArgsRead state.old.plan args }
    ensures { Walked (Knows N.titles N.answer walker.now) (of_args args.entry a_thing (meaning.file_call place))
        state.old state.new result }
{
    if args.unnamed() != 1 {
        return Err(LowerFault::WrongArity { place });
    }
    let given = path_args(walker, state, PathKind::File, args)?;
    found_file(walker, state, &given)
}

/// The path that arguments give.
#[cycle(lower)]
fn path_args<N: Natives>(
    walker: &Walker<'_, N>,
    state: &mut Lowering,
    kind: PathKind,
    args: Args<'_>,
) -> Result<PathArgs, LowerFault>
    requires before { CanWalk N.titles N.answer N.keeps walker.now state.old }
    requires reads { BeforeReads state.old.plan args.before }
    ensures { Walked (Knows N.titles N.answer walker.now)
        (of_args args.entry a_path (λ xs. meaning.path_args (fits_kind kind) xs meaning.no_path))
        state.old state.new result }
{
    let mut args = args;
    let mut given = PathArgs::nothing(walker.alloc);
    while let Some(arg) = args.take_first() {
        given = path_arg(walker, state, kind, arg, given)?;
    }
    Ok(given)
}

/// What an argument gives, with what was given before.
#[cycle(lower)]
fn path_arg<N: Natives>(
    walker: &Walker<'_, N>,
    state: &mut Lowering,
    kind: PathKind,
    arg: One<'_>,
    given: PathArgs,
) -> Result<PathArgs, LowerFault>
    requires before { CanWalk N.titles N.answer N.keeps walker.now state.old }
    requires reads { OneReads state.old.plan arg }
    ensures { Walked (Knows N.titles N.answer walker.now)
        (of_step arg.entry given a_path (λ x so_far. meaning.path_arg (fits_kind kind) x.label x so_far))
        state.old state.new result }
{
    match arg.label() {
        Some((place, name)) => path_named(walker, state, place, name, arg, given),
        None => plain_path(walker, state, kind, arg, given),
    }
}

/// The path that an argument without a name is.
#[cycle(lower)]
fn plain_path<N: Natives>(
    walker: &Walker<'_, N>,
    state: &mut Lowering,
    kind: PathKind,
    arg: One<'_>,
    given: PathArgs,
) -> Result<PathArgs, LowerFault>
    requires before { CanWalk N.titles N.answer N.keeps walker.now state.old }
    requires reads { OneReads state.old.plan arg }
    ensures { Walked (Knows N.titles N.answer walker.now)
        (of_step arg.entry given a_path (λ x so_far. meaning.path_arg (fits_kind kind) None x so_far))
        state.old state.new result }
{
    let place = arg.place();
    let value = value_arg(walker, state, arg)?;
    given.with_path(kind, place, value)
}
