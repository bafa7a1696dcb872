//! What the program says on standard error of a task that failed: where its folder is, and the last lines that it wrote to its
//! own standard error.

use nf_host::{Host, Whole, read_whole};
use nf_job::Outputs;
use nf_lane::{Finished, Kept, Lane};
use nf_machine::Event;
use nf_shell::job_folder;
use nf_value::{Digest, Mem};
use std::alloc::Global;

/// How many lines of a failed task's standard error are shown.
const SHOWN_LINES: usize = 20;

/// A longer standard error isn't shown.
const READ_BYTES: u64 = 1_048_576;

/// Says where the folder of the task is that failed first, and shows the end of its standard error.
pub fn explain<R: Eprint, H: Host, L: Lane>(
    rt: &R,
    alloc: Global,
    host: &mut H,
    work: &str,
    history: &[Event],
    kept: &Kept<L>,
) {
    let Some(place) = failed_place(history) else {
        return;
    };
    let Some(done) = kept.dones.get(place) else {
        return;
    };
    let _ = shown(rt, alloc, host, work, done.key());
}

/// The place of the first Finish of a task that failed, among the Finish events.
fn failed_place(history: &[Event]) -> Option<usize> {
    history
        .iter()
        .filter(|event| matches!(event, Event::Finish { .. }))
        .position(|event| is_failure(event))
}

fn is_failure(event: &Event) -> bool {
    match event {
        Event::Finish { outs, .. } => matches!(outs, Ok(Outputs::Failed(_)) | Err(_)),
        _ => false,
    }
}

fn shown<R: Eprint, H: Host>(
    rt: &R,
    alloc: Global,
    host: &mut H,
    work: &str,
    key: &Digest,
) -> Result<(), Mem> {
    let folder = job_folder(alloc, work, key)?;
    let folder = folder.as_str();
    let _ = eprintln!(rt; "the task's work directory is {folder}");
    let path = format!(in alloc; "{folder}/.command.err")?;
    let Ok(Whole::Bytes(bytes)) = read_whole(alloc, host, path.as_str(), READ_BYTES) else {
        return Ok(());
    };
    let text = String::from_utf8_lossy(alloc, bytes.items())?;
    let text = text.as_str();
    let passed = text.lines().count().saturating_sub(SHOWN_LINES);
    for line in text.lines().skip(passed) {
        let _ = eprintln!(rt; "{line}");
    }
    Ok(())
}
