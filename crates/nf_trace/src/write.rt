//! `trace_text`: writes a trace.

ghost use Rattle.std.specs.Prelude.{◌≡◌, ◌++◌, ◌+◌, ◌<◌, ◌^◌, ℕ, IfOk, OnOk, string_bytes, codes, decimal};
ghost use Rattle.nf_trace.specs.Line.{trace_of, line_text, lines_text};
ghost use Rattle.nf_trace.specs.Task.{lines_from, task_lines, line_of, hash_of, name_of, blank as blank_of, blanked};
ghost use Rattle.nf_trace.specs.Status.{exit_column};
ghost use Rattle.std.specs.Fmt.{signed_decimal};

use crate::task::{Attempt, TaskStatus, TracedTask};
use nf_value::{Digest, Mem, Txt};
use std::alloc::Global;

/// The first line of every trace.
const HEADER: &str = "task_id\thash\tname\tstatus\texit\n";

/// The trace of a run, given what became of each task that a process took, in the order in which they were taken: the header, and a
/// line for each task that has a job (own; Nextflow documentation, "Trace file"). A line has the task's place among all tasks, from 1;
/// the key and the tag of its last attempt that has a job; and its status.
///
/// # Errors
///
/// `Mem` if there is no memory for it.
pub fn trace_text(alloc: Global, tasks: &[TracedTask]) -> Result<Txt, Mem>
    ensures { IfOk result (λ t. t ≡ trace_of (lines_from 1 tasks.now)) }
{
    let mut out = String::from_str(alloc, HEADER)?;
    for (i, task) in tasks.iter().enumerate() {
        push_task(alloc, &mut out, i + 1, task)?;
    }
    Ok(Txt::of(out))
}

/// Appends the line of a task, if it has a job.
fn push_task(alloc: Global, out: &mut String, id: usize, task: &TracedTask) -> Result<(), Mem>
    ensures { OnOk result (string_bytes out.new ≡ string_bytes out.old ++ lines_text (task_lines id task.now)) }
{
    match task.attempts.items().last() {
        Some(attempt) => push_line(alloc, out, id, task, attempt),
        None => Ok(()),
    }
}

fn push_line(
    alloc: Global,
    out: &mut String,
    id: usize,
    task: &TracedTask,
    attempt: &Attempt,
) -> Result<(), Mem>
    ensures { OnOk result (string_bytes out.new ≡ string_bytes out.old ++ line_text (line_of id task.now.name attempt.now task.now.status)) }
{
    let mut digits = itoa::Buffer::new();
    out.push_str(digits.format(id))?;
    out.push_str("\t")?;
    push_hash(alloc, out, &attempt.key)?;
    out.push_str("\t")?;
    push_name(out, &task.name, &attempt.tag)?;
    out.push_str("\t")?;
    out.push_str(task.status.name())?;
    out.push_str("\t")?;
    push_exit(out, &task.status)?;
    out.push_str("\n")?;
    Ok(())
}

fn push_hash(alloc: Global, out: &mut String, key: &Digest) -> Result<(), Mem>
    ensures { OnOk result (string_bytes out.new ≡ string_bytes out.old ++ hash_of key.now.0) }
{
    let first = hex::encode(alloc, &key.0[..1])?;
    let others = hex::encode(alloc, &key.0[1..4])?;
    out.push_str(first.as_str())?;
    out.push_str("/")?;
    out.push_str(others.as_str())?;
    Ok(())
}

fn push_name(out: &mut String, name: &Txt, tag: &Option<Txt>) -> Result<(), Mem>
    ensures { OnOk result (string_bytes out.new ≡ string_bytes out.old ++ name_of name.now tag.now) }
{
    push_blanked(out, name.as_str())?;
    if let Some(tag) = tag {
        out.push_str(" (")?;
        push_blanked(out, tag.as_str())?;
        out.push_str(")")?;
    }
    Ok(())
}

/// Appends a text with blanks for its tabs and line ends.
fn push_blanked(out: &mut String, text: &str) -> Result<(), Mem>
    ensures { OnOk result (string_bytes out.new ≡ string_bytes out.old ++ blanked text.now) }
{
    for mark in text.chars() {
        out.push(blank(mark))?;
    }
    Ok(())
}

fn blank(mark: char) -> char
    ensures { result ≡ blank_of mark }
{
    if mark == '\t' || mark == '\n' {
        ' '
    } else {
        mark
    }
}

fn push_exit(out: &mut String, status: &TaskStatus) -> Result<(), Mem>
    ensures { OnOk result (string_bytes out.new ≡ string_bytes out.old ++ exit_column status.now) }
{
    match status {
        TaskStatus::Completed { exit }
        | TaskStatus::Failed { exit }
        | TaskStatus::Cached { exit } => push_number(out, *exit),
        TaskStatus::Aborted => {
            out.push_str("-")?;
            Ok(())
        }
    }
}

fn push_number(out: &mut String, number: i32) -> Result<(), Mem>
    ensures { OnOk result (string_bytes out.new ≡ string_bytes out.old ++ signed_decimal number) }
{
    let mut digits = itoa::Buffer::new();
    out.push_str(digits.format(number))?;
    Ok(())
}
