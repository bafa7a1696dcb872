//! Rows of all fronts of a file.

use crate::call::answer;
use crate::row::read_row;
use anyhow::{Result, bail};
use nf_host::{Whole, read_whole};
use nf_value::Bytes;
use std::alloc::Global;
use std::collections::BTreeMap;
use std::fmt::Write;
use std::sync::Wait;
use std::thread::Threads;

/// The most bytes of a file whose fronts are tried.
const MOST_BYTES: u64 = 10_000;

/// The answers to a row with each front of the file at this path in its place, each with how often it comes.
pub(crate) fn answers<R: AllocGlobal + Threads + Wait + Sync>(
    rt: &R,
    line: &str,
    path: &str,
) -> Result<String> {
    let alloc = rt.alloc();
    let bytes = file_of(alloc, line, path)?;
    let mut counts = BTreeMap::new(alloc);
    for end in 0..bytes.items().len() {
        let mut row = read_row(alloc, line)?;
        row.host.put(path, bytes.items().get(..end).unwrap_or(&[]))?;
        let given = answer(rt, row)?;
        add_count(&mut counts, without_place(alloc, given.as_str())?)?;
    }
    listed(alloc, counts)
}

/// The bytes of the file at this path of a row.
fn file_of(alloc: Global, line: &str, path: &str) -> Result<Bytes> {
    let mut row = read_row(alloc, line)?;
    match read_whole(alloc, &mut row.host, path, MOST_BYTES)? {
        Whole::Bytes(bytes) => Ok(bytes),
        Whole::Absent | Whole::TooLong => bail!("{path}: no file, or too long a one"),
    }
}

/// Counts an answer once more.
fn add_count(counts: &mut BTreeMap<String, u32>, given: String) -> Result<()> {
    let before = match counts.get(given.as_str()) {
        Some(before) => *before,
        None => 0,
    };
    counts.insert(given, before.saturating_add(1))?;
    Ok(())
}

/// An answer whose error line has its place left out.
fn without_place(alloc: Global, given: &str) -> Result<String> {
    if let Some((front, rest)) = given.split_once("error: ") {
        if let Some((place, name)) = rest.split_once(": ") {
            if begins_with_digit(place.as_bytes()) {
                return Ok(format!(in alloc; "{front}error: {name}")?);
            }
        }
    }
    Ok(String::from_str(alloc, given)?)
}

fn begins_with_digit(text: &[u8]) -> bool {
    match text.first() {
        Some(first) => first.is_ascii_digit(),
        None => false,
    }
}

/// The answers in the order of their texts, each behind how often it came.
fn listed(alloc: Global, counts: BTreeMap<String, u32>) -> Result<String> {
    let mut out = String::new(alloc);
    for (given, often) in counts {
        if !out.is_empty() {
            out.push_str("; ")?;
        }
        write!(out, "{often} of {given}")?;
    }
    Ok(out)
}
