//! Why a report fails, and what becomes of the task then.

ghost use Rattle.std.specs.Prelude.{◌≡◌, ◌++◌, drop, map, OnOk, IfOk, Some, None, MatchOption};
ghost use Rattle.nf_job.specs.declared.fault.TaskFault.TheVariants.{MissingOutput};
ghost use Rattle.nf_tasks.specs.Failure.{failure_of, files_failure, first_files, is_due, is_text, is_there, outputs_at};
ghost use Rattle.nf_tasks.specs.Meaning.{options_in, part_options, parts_in as meant_parts, parts_options};
ghost use Rattle.nf_tasks.specs.Memory.{has_stored_stdout, is_stored_stdout, output_of, part_of, Program};
ghost use Rattle.std.specs.List.{list_any};

use crate::process::{ErrorStrategy, Output, OutputPart, parts_in};
use nf_job::{Captured, FileRefs, Outputs, Report, TaskFault};
use nf_value::{Mem, Txt};
use std::alloc::Global;

/// Why a report fails: first its exit status, then its standard output, then its files (own). `options` says of each pattern whether it is
/// optional, `texts` are the patterns, and `stdout` says whether the standard output is an output.
///
/// # Errors
///
/// `Mem` if there is no memory for the fault.
pub(crate) fn failure_of(
    options: &[bool],
    texts: &[Txt],
    stdout: bool,
    report: &Report,
) -> Result<Option<TaskFault>, Mem>
    ensures { IfOk result
        (λ f. f ≡ failure_of (record { options = options.now; texts = texts.now; stdout = stdout }) report.now) }
{
    if report.exit != 0 {
        let status = report.exit;
        return Ok(Some(TaskFault::Exit { status }));
    }
    if stdout && !is_text(&report.captured) {
        return Ok(Some(TaskFault::BadStdout));
    }
    match missing(options, texts, report.found.items()) {
        None => Ok(None),
        Some(pattern) => Ok(Some(TaskFault::MissingOutput {
            pattern: pattern.copy()?,
        })),
    }
}

fn is_text(captured: &Captured) -> bool
    ensures { result ≡ is_text captured.now }
{
    match captured {
        Captured::Text(_) => true,
        Captured::None | Captured::Bad => false,
    }
}

/// The first pattern that isn't optional and has no files.
fn missing<'a>(options: &[bool], texts: &'a [Txt], found: &[FileRefs]) -> Option<&'a Txt>
    ensures { MatchOption result (files_failure options.now texts.now found.now ≡ None)
        (λ t. files_failure options.now texts.now found.now ≡ Some (MissingOutput t.now)) }
{
    for (i, text) in texts.iter().enumerate() {
        if is_due(options, i) && !is_there(found, i) {
            return Some(text);
        }
    }
    None
}

/// Whether the pattern of this number is there and isn't optional.
fn is_due(options: &[bool], i: usize) -> bool
    ensures { result ≡ is_due (drop i options.now) }
{
    match options.get(i) {
        Some(optional) => !*optional,
        None => false,
    }
}

/// Whether the pattern of this number has files.
fn is_there(found: &[FileRefs], i: usize) -> bool
    ensures { result ≡ is_there (first_files (drop i found.now)) }
{
    match found.get(i) {
        Some(files) => !files.items().is_empty(),
        None => false,
    }
}

/// For each pattern of the outputs whether it is optional.
pub(crate) fn options_in(alloc: Global, outputs: &[Output]) -> Result<Vec<bool>, Mem>
    ensures { IfOk result (λ options. (n : Program) → options.items ≡ options_in (map (output_of n) outputs.now)) }
{
    let mut options = Vec::new(alloc);
    for output in outputs {
        push_options(&mut options, output)?;
    }
    Ok(options)
}

fn push_options(options: &mut Vec<bool>, output: &Output) -> Result<(), Mem>
    ensures { OnOk result
        ((n : Program) → let meant = output_of n output.now in options.new.items ≡ options.old.items ++ parts_options
        meant.optional (meant_parts meant.shape)) }
{
    for part in parts_in(&output.shape) {
        push_option(options, part, output.optional)?;
    }
    Ok(())
}

fn push_option(options: &mut Vec<bool>, part: &OutputPart, optional: bool) -> Result<(), Mem>
    ensures { OnOk result
        ((n : Program) → options.new.items ≡ options.old.items ++ part_options optional (part_of n part.now)) }
{
    match part {
        OutputPart::Path(_) => options.push(optional)?,
        OutputPart::Val(_) | OutputPart::Stdout => {}
    }
    Ok(())
}

/// Whether the standard output is an output.
pub(crate) fn wants_stdout(outputs: &[Output]) -> bool
    ensures { result ≡ list_any has_stored_stdout outputs.now }
{
    outputs.iter().any(|output| has_stdout(output))
}

fn has_stdout(output: &Output) -> bool
    ensures { result ≡ has_stored_stdout output.now }
{
    parts_in(&output.shape).iter().any(|part| is_stdout(part))
}

fn is_stdout(part: &OutputPart) -> bool
    ensures { result ≡ is_stored_stdout part.now }
{
    match part {
        OutputPart::Stdout => true,
        OutputPart::Val(_) | OutputPart::Path(_) => false,
    }
}

/// What becomes of the task whose attempt failed.
pub(crate) fn outputs_at(strategy: ErrorStrategy, attempt: u32, fault: TaskFault) -> Outputs
    ensures { result ≡ outputs_at strategy attempt fault }
{
    match strategy {
        ErrorStrategy::Terminate => Outputs::Failed(fault),
        ErrorStrategy::Ignore => Outputs::Ignored,
        ErrorStrategy::Retry(most) => {
            if attempt <= most.min(MOST_RETRIES) {
                Outputs::Again
            } else {
                Outputs::Failed(fault)
            }
        }
    }
}

/// How often a task is tried again at most (own).
const MOST_RETRIES: u32 = 100;
