//! Files: those of sources, and that of `file`.

ghost use Rattle.std.specs.Prelude.{◌≡◌, Some, false, map, true};
ghost use Rattle.std.specs.Str.{chars};
ghost use Rattle.nf_arguments.specs.Args.{IsOne, written_arg};
ghost use Rattle.nf_ast.specs.View.{view};
ghost use Rattle.nf_graph.specs.Meaning.{Bags};
ghost use Rattle.nf_job.specs.JobText.{file_plain};
ghost use Rattle.nf_opargs.specs.declared.sources.Source.TheVariants.{FromFilePairs, FromPath};
ghost use Rattle.nf_paths.specs.Pairs as paths;
ghost use Rattle.nf_meaning.specs.Arguments.{Arg};
ghost use Rattle.nf_meaning.specs.Given.{files_at};
ghost use Rattle.nf_meaning.specs.Sources as meaning;
ghost use Rattle.nf_meaning.specs.Things.{a_value, queue};
ghost use Rattle.nf_walked.specs.Around.{CanWalk, Knows};
ghost use Rattle.nf_walked.specs.Arguing.{of_step};
ghost use Rattle.nf_walked.specs.Forms.{a_thing};
ghost use Rattle.nf_walked.specs.Steps.{InAll, Walked, from};
ghost use Rattle.nf_applied.specs.Sources.{a_path, items_of, with_files};

use crate::taking::body_at;
use nf_arguments::{One, Written};
use nf_ast::Expr;
use nf_builtins::Natives;
use nf_lowering::Lowering;
use nf_meaning::LowerFault;
use nf_paths::pairs_of;
use nf_scopes::Thing;
use nf_taken::{PathArgs, file_items, first_file};
use nf_value::{FileRef, Place, Txt, Value};
use nf_walked::{Walker, bad_option};

/// The files of `channel.fromPath`, which are wanted too (Nextflow reference documentation, "Channel factories",
/// "fromPath").
///
/// # Errors
///
/// `Mem` for want of memory.
pub fn found_files<N: Natives>(
    walker: &Walker<'_, N>,
    state: &mut Lowering,
    given: &PathArgs,
) -> Result<Vec<Value>, LowerFault>
    requires { CanWalk N.titles N.answer N.keeps walker.now state.old }
    ensures { Walked (Knows N.titles N.answer walker.now)
        (from a_path given.now (items_of FromPath) (with_files false (λ x fs. queue (map file_plain fs))))
        state.old state.new result }
{
    let want = given.want(false)?;
    walker.want(state, want)?;
    Ok(file_items(walker.alloc, files(walker, given.path.as_str()))?)
}

/// The pairs of files of `channel.fromFilePairs`, which are wanted too (Nextflow reference documentation, "Channel
/// factories", "fromFilePairs").
///
/// # Errors
///
/// `Mem` for want of memory.
pub fn found_pairs<N: Natives>(
    walker: &Walker<'_, N>,
    state: &mut Lowering,
    given: &PathArgs,
) -> Result<Vec<Value>, LowerFault>
    requires { CanWalk N.titles N.answer N.keeps walker.now state.old }
    ensures { Walked (Knows N.titles N.answer walker.now)
        (from a_path given.now (items_of FromFilePairs)
        (with_files true (λ x fs. queue (paths.pairs_of (chars x.path) fs)))) state.old state.new result }
{
    let want = given.want(true)?;
    walker.want(state, want)?;
    let path = given.path.as_str();
    let pairs = pairs_of(walker.alloc, path, files(walker, path))?;
    Ok(pairs.into_items())
}

/// What `file` stands for, which is wanted too (Nextflow reference documentation, "Working with files", "file").
///
/// # Errors
///
/// `Mem` for want of memory.
pub fn found_file<N: Natives>(
    walker: &Walker<'_, N>,
    state: &mut Lowering,
    given: &PathArgs,
) -> Result<Thing, LowerFault>
    requires { CanWalk N.titles N.answer N.keeps walker.now state.old }
    ensures { Walked (Knows N.titles N.answer walker.now)
        (from a_path given.now a_thing (with_files false (λ x fs. a_value (meaning.first_file x.path fs))))
        state.old state.new result }
{
    let want = given.want(false)?;
    walker.want(state, want)?;
    let path = given.path.as_str();
    let file = first_file(walker.alloc, path, files(walker, path))?;
    Ok(Thing::Known(Value::File(file)))
}

/// An option of a path, whose name stands at `place` (Nextflow reference documentation, "Channel factories",
/// "fromPath").
///
/// # Errors
///
/// As for `Body::path_option`.
pub fn path_named<N: Natives>(
    walker: &Walker<'_, N>,
    state: &Lowering,
    place: Place,
    name: &Txt,
    arg: One<'_>,
    given: PathArgs,
) -> Result<PathArgs, LowerFault>
    requires before { CanWalk N.titles N.answer N.keeps walker.now state.now }
    requires label { (bags : Bags) (y : Arg) → IsOne bags arg y → y.label ≡ Some (place, name.now) }
    ensures { Walked (Knows N.titles N.answer walker.now)
        (of_step arg.entry given a_path (λ x so_far. meaning.must_exist (place, name.now) x so_far))
        state.now state.now result }
{
    match arg {
        One::Written(arg) => path_written(walker, state, place, name, arg, given),
        // What stands before a pipe has no name.
        One::Before(before) => bad_option(before.place),
    }
}

/// The same of an argument as it is written.
fn path_written<N: Natives>(
    walker: &Walker<'_, N>,
    state: &Lowering,
    place: Place,
    name: &Txt,
    arg: Written<'_>,
    given: PathArgs,
) -> Result<PathArgs, LowerFault>
    requires before { CanWalk N.titles N.answer N.keeps walker.now state.now }
    requires label { (written_arg arg).label ≡ Some (place, name.now) }
    ensures { Walked (Knows N.titles N.answer walker.now)
        (from a_path given a_path (meaning.must_exist (place, name.now) (written_arg arg.entry)))
        state.now state.now result }
{
    match arg {
        Written::Arg(arg) => path_option(walker, state, place, name, &arg.value, given),
        // No closure behind the brackets has a name.
        Written::Closure(closure) => bad_option(closure.place),
    }
}

/// The same of the option's value.
fn path_option<N: Natives>(
    walker: &Walker<'_, N>,
    state: &Lowering,
    place: Place,
    name: &Txt,
    value: &Expr,
    given: PathArgs,
) -> Result<PathArgs, LowerFault>
    requires { CanWalk N.titles N.answer N.keeps walker.now state.now }
    ensures { (x : Arg) → x.tree ≡ view value.now → Walked (Knows N.titles N.answer walker.now)
        (from a_path given a_path (meaning.must_exist (place, name.now) x)) state.now state.now result }
{
    body_at(walker, state).path_option(place, name.as_str(), value, given)
}

/// The files of a path; none where it wasn't looked for.
fn files<'a, N: Natives>(walker: &Walker<'a, N>, path: &str) -> &'a [FileRef]
    ensures { InAll (Knows N.titles N.answer walker.now) (λ a. result.now ≡ files_at path.now a.given.found) }
{
    match walker.found.get(path).copied() {
        Some(files) => files,
        None => &[],
    }
}
