//! Records: what bytes are read as, and what is found for a job.

use crate::jobs::{in_words, printing, words};
use anyhow::{Result, bail};
use nf_record::{Form, Record, lookup, read_record, record_text};
use std::alloc::Global;

/// The record that the bytes are: its form, its report and its job's text. It is written as the same bytes.
pub(crate) fn reading(alloc: Global, bytes: &str) -> Result<String> {
    match read_record(alloc, bytes.as_bytes())? {
        Some(stored) => shown(alloc, &stored, bytes),
        None => Ok(String::from_str(alloc, "none")?),
    }
}

fn shown(alloc: Global, stored: &Record, bytes: &str) -> Result<String> {
    let written = record_text(alloc, stored)?;
    if written.as_slice() != bytes.as_bytes() {
        bail!("{bytes}: is written otherwise");
    }
    let form = match stored.form {
        Form::Older => "older",
        Form::Current => "current",
    };
    let report = words(alloc, &stored.report)?;
    let job = stored.job.as_str();
    Ok(format!(in alloc; "{form}, {report}, of {job}")?)
}

/// How many proper fronts of the bytes were read, of which none is a record; or the first that is one.
pub(crate) fn fronts(alloc: Global, bytes: &str) -> Result<String> {
    let bytes = bytes.as_bytes();
    let all = bytes.len();
    for len in 0..all {
        if read_record(alloc, &bytes[..len])?.is_some() {
            return Ok(format!(in alloc; "{len} bytes are a record")?);
        }
    }
    Ok(format!(in alloc; "none of {all}")?)
}

/// What is found for an attempt at the task: `ATTEMPT | AT ITS KEY | AT ITS OLDER KEY`, with `-` for nothing.
pub(crate) fn looking(alloc: Global, parts: &str) -> Result<String> {
    let parts = parts.split('|').collect::<Vec<&str>>(alloc)?;
    let [attempt, bytes, old] = parts.as_slice() else {
        bail!("not three parts");
    };
    let job = printing(alloc, attempt.trim().parse::<u32>()?)?;
    let found = lookup(alloc, held(bytes.trim()), held(old.trim()), &job)?;
    in_words(alloc, &found)
}

fn held(part: &str) -> Option<&[u8]> {
    if part == "-" {
        None
    } else {
        Some(part.as_bytes())
    }
}
