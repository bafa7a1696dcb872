//! `Left`: the report that an earlier run left of a task, with the task's process.

use nf_codec::{CodeFault, decode};
use nf_job::{Captured, FileRefs, Report};
use nf_record::read_record;
use nf_value::{FileRef, Mem, Txt, Value};
use std::alloc::Global;

/// The report that an earlier run left of a task, with the task's process.
#[derive(Drop)]
pub(crate) struct Left {
    pub(crate) process: Txt,
    pub(crate) report: Report,
}

/// What the bytes of a record say of its task. `None` if they are no record of a job.
pub(crate) fn left_in(alloc: Global, bytes: &[u8]) -> Result<Option<Left>, Mem> {
    let Some(record) = read_record(alloc, bytes)? else {
        return Ok(None);
    };
    let Some(process) = process_of(alloc, &record.job)? else {
        return Ok(None);
    };
    Ok(Some(Left {
        process,
        report: record.report,
    }))
}

// The process of the job with this text: its second item.
fn process_of(alloc: Global, job: &Txt) -> Result<Option<Txt>, Mem> {
    let value = match decode(alloc, job.as_str().as_bytes()) {
        Ok((value, _)) => value,
        Err(CodeFault::Mem) => return Err(Mem),
        Err(_) => return Ok(None),
    };
    let Value::List(items) = &value else {
        return Ok(None);
    };
    match items.items() {
        [_, Value::Text(process), ..] => Ok(Some(process.copy()?)),
        _ => Ok(None),
    }
}

/// Whether two reports are the same.
pub(crate) fn is_same(report: &Report, other: &Report) -> bool {
    report.exit == other.exit
        && is_same_output(&report.captured, &other.captured)
        && are_same_lists(report.found.items(), other.found.items())
}

fn is_same_output(output: &Captured, other: &Captured) -> bool {
    match (output, other) {
        (Captured::None, Captured::None) | (Captured::Bad, Captured::Bad) => true,
        (Captured::Text(text), Captured::Text(other)) => text.as_str() == other.as_str(),
        _ => false,
    }
}

fn are_same_lists(lists: &[FileRefs], others: &[FileRefs]) -> bool {
    lists.len() == others.len()
        && lists.iter().zip(others).all(|(files, other)| are_same_files(
            files.items(),
            other.items(),
        ))
}

fn are_same_files(files: &[FileRef], others: &[FileRef]) -> bool {
    files.len() == others.len()
        && files
            .iter()
            .zip(others)
            .all(|(file, other)| is_same_file(file, other))
}

fn is_same_file(file: &FileRef, other: &FileRef) -> bool {
    file.name.as_str() == other.name.as_str() && file.digest.0 == other.digest.0
}
