//! What a task gives whose report doesn't fail.

ghost use Rattle.std.specs.Prelude.{◌≡◌, IfOk, map, option_map};
ghost use Rattle.nf_value.specs.View.{plain_of};
ghost use Rattle.nf_job.specs.JobText.{file_plain};
ghost use Rattle.nf_tasks.specs.Judged.{Answers, AnswersBy};
ghost use Rattle.nf_tasks.specs.Emission.{given, all_there, captured_plain, files_plain_of, left_after, output_value, part_left, part_there, part_value, part_values, shape_value, values_of};
ghost use Rattle.nf_tasks.specs.Failure.{first_files, other_files};
ghost use Rattle.nf_tasks.specs.Memory.{output_of, part_of, program, shape_of, Program};

use crate::formulas::evaluated;
use crate::process::{Output, OutputPart, OutputShape, parts_in};
use nf_bag::sorted;
use nf_builtins::Natives;
use nf_job::{Captured, Emitted, FileRefs, TaskRefusal};
use nf_value::{FileRef, Mem, Vals, Value};
use std::alloc::Global;

/// What outputs are made of.
#[derive(Clone, Copy)]
pub(crate) struct Giving<'a> {
    /// The values that expressions see.
    pub(crate) seen: &'a Vals,
    /// The standard output.
    pub(crate) captured: &'a Captured,
}

/// For each output its value, or nothing. The lists of files go to the patterns in their order.
///
/// # Errors
///
/// `Fault` with the first fault of an expression; `Mem` if there is no memory.
pub(crate) fn values_of<N: Natives>(
    alloc: Global,
    outputs: &[Output],
    found: &[FileRefs],
    giving: &Giving<'_>,
    natives: &N,
) -> Result<Emitted, TaskRefusal>
    requires { N.keeps natives.now }
    ensures { Answers (values_of (given giving.now)
        (map (output_of (program (N.titles natives.now) (N.answer natives.now))) outputs.now) found.now) result }
{
    let mut values = Vec::new(alloc);
    let mut left = found;
    for output in outputs {
        let value = output_value(alloc, output, left, giving, natives)?;
        values.push(value)?;
        left = left_after(parts_in(&output.shape), left);
    }
    Ok(Emitted::of(values))
}

/// The value of an output; nothing where a pattern of it has no files.
fn output_value<N: Natives>(
    alloc: Global,
    output: &Output,
    found: &[FileRefs],
    giving: &Giving<'_>,
    natives: &N,
) -> Result<Option<Value>, TaskRefusal>
    requires { N.keeps natives.now }
    ensures { AnswersBy (option_map plain_of)
        (output_value (given giving.now)
        (output_of (program (N.titles natives.now) (N.answer natives.now)) output.now) found.now) result }
{
    if !all_there(parts_in(&output.shape), found) {
        return Ok(None);
    }
    let value = shape_value(alloc, &output.shape, found, giving, natives)?;
    Ok(Some(value))
}

fn shape_value<N: Natives>(
    alloc: Global,
    shape: &OutputShape,
    found: &[FileRefs],
    giving: &Giving<'_>,
    natives: &N,
) -> Result<Value, TaskRefusal>
    requires { N.keeps natives.now }
    ensures { AnswersBy plain_of
        (shape_value (given giving.now) (shape_of (program (N.titles natives.now) (N.answer natives.now)) shape.now)
        found.now) result }
{
    match shape {
        OutputShape::One(part) => part_value(alloc, part, first_files(found), giving, natives),
        OutputShape::Tuple(parts) => {
            let values = part_values(alloc, parts, found, giving, natives)?;
            Ok(Value::List(values))
        }
    }
}

fn part_values<N: Natives>(
    alloc: Global,
    parts: &[OutputPart],
    found: &[FileRefs],
    giving: &Giving<'_>,
    natives: &N,
) -> Result<Vals, TaskRefusal>
    requires { N.keeps natives.now }
    ensures { Answers (part_values (given giving.now)
        (map (part_of (program (N.titles natives.now) (N.answer natives.now))) parts.now) found.now) result }
{
    let mut values = Vec::new(alloc);
    let mut left = found;
    for part in parts {
        let value = part_value(alloc, part, first_files(left), giving, natives)?;
        values.push(value)?;
        left = part_left(part, left);
    }
    Ok(Vals::of(values))
}

fn part_value<N: Natives>(
    alloc: Global,
    part: &OutputPart,
    files: &[FileRef],
    giving: &Giving<'_>,
    natives: &N,
) -> Result<Value, TaskRefusal>
    requires { N.keeps natives.now }
    ensures { AnswersBy plain_of
        (part_value (given giving.now) (part_of (program (N.titles natives.now) (N.answer natives.now)) part.now)
        files.now) result }
{
    match part {
        OutputPart::Val(formula) => evaluated(alloc, formula, giving.seen, natives),
        OutputPart::Path(_) => Ok(files_value(alloc, files)?),
        OutputPart::Stdout => Ok(captured_value(giving.captured)?),
    }
}

/// A single file, or several as a list in the order of values.
fn files_value(alloc: Global, files: &[FileRef]) -> Result<Value, Mem>
    ensures { IfOk result (λ v. plain_of v ≡ files_plain_of files.now) }
{
    match files {
        [file] => Value::of_file(alloc, file.copy()?),
        _ => Ok(Value::List(sorted(file_values(alloc, files)?)?)),
    }
}

fn file_values(alloc: Global, files: &[FileRef]) -> Result<Vals, Mem>
    ensures { IfOk result (λ vs. vs ≡ map file_plain files.now) }
{
    let mut values = Vec::new(alloc);
    for file in files {
        values.push(Value::of_file(alloc, file.copy()?)?)?;
    }
    Ok(Vals::of(values))
}

/// The text of a standard output that was wanted, which a report that doesn't fail has.
fn captured_value(captured: &Captured) -> Result<Value, Mem>
    ensures { IfOk result (λ v. plain_of v ≡ captured_plain captured.now) }
{
    match captured {
        Captured::Text(text) => Ok(Value::Text(text.copy()?)),
        Captured::None | Captured::Bad => Ok(Value::Null),
    }
}

/// Whether each pattern of the parts has files.
fn all_there(parts: &[OutputPart], found: &[FileRefs]) -> bool
    ensures { (n : Program) → result ≡ all_there (map (part_of n) parts.now) found.now }
{
    let mut left = found;
    for part in parts {
        if !part_there(part, first_files(left)) {
            return false;
        }
        left = part_left(part, left);
    }
    true
}

fn part_there(part: &OutputPart, files: &[FileRef]) -> bool
    ensures { (n : Program) → result ≡ part_there (part_of n part.now) files.now }
{
    match part {
        OutputPart::Path(_) => !files.is_empty(),
        OutputPart::Val(_) | OutputPart::Stdout => true,
    }
}

/// The lists of files that are left after these parts.
fn left_after<'a>(parts: &[OutputPart], found: &'a [FileRefs]) -> &'a [FileRefs]
    ensures { (n : Program) → result.now ≡ left_after (map (part_of n) parts.now) found.now }
{
    let mut left = found;
    for part in parts {
        left = part_left(part, left);
    }
    left
}

fn part_left<'a>(part: &OutputPart, found: &'a [FileRefs]) -> &'a [FileRefs]
    ensures { (n : Program) → result.now ≡ part_left (part_of n part.now) found.now }
{
    match part {
        OutputPart::Path(_) => other_files(found),
        OutputPart::Val(_) | OutputPart::Stdout => found,
    }
}

fn first_files(found: &[FileRefs]) -> &[FileRef]
    ensures { result.now ≡ first_files found.now }
{
    match found {
        [] => &[],
        [files, ..] => files.items(),
    }
}

fn other_files(found: &[FileRefs]) -> &[FileRefs]
    ensures { result.now ≡ other_files found.now }
{
    match found {
        [] => found,
        [_, others @ ..] => others,
    }
}
