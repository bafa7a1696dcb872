//! Traces that are written.

use anyhow::{Context, Result, bail};
use nf_trace::{Attempt, Attempts, TaskStatus, TracedTask, trace_text};
use nf_value::{Digest, Txt};
use std::alloc::Global;

/// The trace of some tasks, in quotes.
pub(crate) fn written(alloc: Global, parts: &str) -> Result<String> {
    let tasks = tasks(alloc, parts)?;
    let text = trace_text(alloc, &tasks)?;
    let text = text.as_str();
    Ok(format!(in alloc; "{text:?}")?)
}

fn tasks(alloc: Global, parts: &str) -> Result<Vec<TracedTask>> {
    let mut tasks = Vec::new(alloc);
    if parts == "none" {
        return Ok(tasks);
    }
    for part in parts.split(" ; ") {
        tasks.push(task(alloc, part)?)?;
    }
    Ok(tasks)
}

fn task(alloc: Global, part: &str) -> Result<TracedTask> {
    let (name, rest) = part.split_once(" | ").context("no attempts")?;
    let (attempts, status) = rest.split_once(" | ").context("no status")?;
    Ok(TracedTask {
        name: txt(alloc, name)?,
        attempts: Attempts::of(all_attempts(alloc, attempts)?),
        status: status_of(status)?,
    })
}

fn all_attempts(alloc: Global, parts: &str) -> Result<Vec<Attempt>> {
    let mut attempts = Vec::new(alloc);
    if parts == "none" {
        return Ok(attempts);
    }
    for part in parts.split(',') {
        attempts.push(attempt(alloc, part)?)?;
    }
    Ok(attempts)
}

fn attempt(alloc: Global, part: &str) -> Result<Attempt> {
    match part.split_once('=') {
        Some((key, tag)) => Ok(Attempt {
            key: key_of(key)?,
            tag: Some(txt(alloc, tag)?),
        }),
        None => Ok(Attempt {
            key: key_of(part)?,
            tag: None,
        }),
    }
}

fn key_of(digits: &str) -> Result<Digest> {
    let mut key = [0u8; 32];
    if hex::decode_to_slice(digits, &mut key).is_err() {
        bail!("{digits}: no key");
    }
    Ok(Digest(key))
}

fn status_of(part: &str) -> Result<TaskStatus> {
    match part.split_once(' ') {
        Some(("COMPLETED", exit)) => Ok(TaskStatus::Completed {
            exit: exit.parse::<i32>()?,
        }),
        Some(("FAILED", exit)) => Ok(TaskStatus::Failed {
            exit: exit.parse::<i32>()?,
        }),
        Some(("CACHED", exit)) => Ok(TaskStatus::Cached {
            exit: exit.parse::<i32>()?,
        }),
        None if part == "ABORTED" => Ok(TaskStatus::Aborted),
        _ => bail!("{part}: no status"),
    }
}

/// A text in which `\t` and `\n` stand for a tab and a line end.
fn txt(alloc: Global, text: &str) -> Result<Txt> {
    let text = text.replace(alloc, "\\t", "\t")?;
    Ok(Txt::of(text.replace(alloc, "\\n", "\n")?))
}
