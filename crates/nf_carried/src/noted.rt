//! Writes the trace of a run.

ghost use Rattle.std.specs.Prelude.{◌≡◌, ◌≤◌, OnOk};
ghost use Rattle.std.specs.declared.option.Option.{Option};
ghost use Rattle.nf_host.specs.Faults.{OnFailed, Rose};
ghost use Rattle.nf_host.specs.Files.{KeepsOthers};
ghost use Rattle.nf_host.specs.Told.{Both};
ghost use Rattle.nf_carried.specs.Objects.{host_now};
ghost use Rattle.nf_carried.specs.Tracing.{Holds, NotesText, NotesTrace, without_trace};
ghost use Rattle.nf_ran.specs.Ran.{upshot};

use nf_ends::End;
use nf_host::{Host, HostRefusal, write_file};
use nf_publish::make_parent;
use nf_ran::owed::Finished;
use nf_value::Txt;
use std::alloc::Global;

/// Writes the trace of a run to the file that it was asked for at, and makes the folder of that. Gives what is left to
/// be done of the run's outcome: all of it, if the trace was written.
///
/// # Errors
///
/// If the host failed, which it counted, a run that was stopped keeps its end, and any other ends as `HostFault`.
/// `Mem` if there is no memory for it.
pub(crate) fn noted<H: Host>(
    alloc: Global,
    path: &Option<Txt>,
    host: &mut H,
    outcome: Result<Finished, End>,
    trace: Option<Txt>,
) -> Result<Finished, End>
    ensures later { H.faults host.old ≤ H.faults host.new }
    ensures no_start { H.started host.new ≡ H.started host.old }
    ensures notes { NotesTrace path.now (upshot outcome trace) (host_now (H.files host.old) (H.faults host.old))
        (host_now (H.files host.new) (H.faults host.new)) result }
{
    match path {
        Some(path) => noted_at(alloc, path.as_str(), host, outcome, trace),
        None => outcome,
    }
}

/// The same, of a trace that was asked for.
fn noted_at<H: Host>(
    alloc: Global,
    path: &str,
    host: &mut H,
    outcome: Result<Finished, End>,
    trace: Option<Txt>,
) -> Result<Finished, End>
    ensures later { H.faults host.old ≤ H.faults host.new }
    ensures no_start { H.started host.new ≡ H.started host.old }
    ensures notes { NotesText path.now trace outcome (host_now (H.files host.old) (H.faults host.old))
        (host_now (H.files host.new) (H.faults host.new)) result }
{
    let Some(text) = trace else {
        return outcome;
    };
    match write_trace(alloc, path, host, text.as_str()) {
        Ok(()) => outcome,
        Err(HostRefusal::Failed) => unless_stopped(outcome),
        Err(HostRefusal::Mem) => Err(End::Mem),
    }
}

/// Writes a text to a file whose folder is made.
fn write_trace<H: Host>(
    alloc: Global,
    path: &str,
    host: &mut H,
    text: &str,
) -> Result<(), HostRefusal>
    ensures later { H.faults host.old ≤ H.faults host.new }
    ensures cause { OnFailed result (Rose (H.faults host.old) (H.faults host.new)) }
    ensures no_start { H.started host.new ≡ H.started host.old }
    ensures others { Both (H.files host.old) (H.files host.new) (KeepsOthers path.now) }
    ensures written { OnOk result (Holds path.now text.now (host_now (H.files host.new) (H.faults host.new))) }
{
    make_parent(host, path)?;
    write_file(alloc, host, path, text.as_bytes())
}

/// What is left of an outcome whose trace couldn't be written.
fn unless_stopped(outcome: Result<Finished, End>) -> Result<Finished, End>
    ensures { result ≡ without_trace outcome }
{
    match outcome {
        Ok(_) | Err(End::PublishClash(_)) => Err(End::HostFault),
        Err(end) => Err(end),
    }
}
