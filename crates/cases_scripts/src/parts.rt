//! What else a row says.

use crate::row::{Row, Step, add_call};
use crate::text::text;
use anyhow::{Result, bail};
use nf_host::Child;
use nf_value::{Bytes, Txt};
use std::alloc::Global;

/// Adds a file, a child, a failure, a further step, a file that is shown, or how the calls are made.
pub(crate) fn add_part(alloc: Global, row: &mut Row, part: &str) -> Result<()> {
    let part = part.trim();
    if let Some(rest) = part.strip_prefix("file ") {
        return add_file(alloc, row, rest);
    }
    if let Some(rest) = part.strip_prefix("child ") {
        return add_child(alloc, row, rest);
    }
    if let Some(rest) = part.strip_prefix("fail ") {
        row.host.fail_at(number(rest)?)?;
        return Ok(());
    }
    if let Some(rest) = part.strip_prefix("write ") {
        return add_failing_write(row, rest);
    }
    if let Some(rest) = part.strip_prefix("then ") {
        return add_call(alloc, row, rest);
    }
    if let Some(folder) = part.strip_prefix("clear ") {
        row.steps
            .push(Step::Clear(String::from_str(alloc, folder)?))?;
        return Ok(());
    }
    if let Some(path) = part.strip_prefix("show ") {
        row.shown.push(String::from_str(alloc, path)?)?;
        return Ok(());
    }
    add_way(row, part)
}

/// Adds how the calls are made.
fn add_way(row: &mut Row, part: &str) -> Result<()> {
    if let Some(node) = part.strip_prefix("takes ") {
        row.way.counted = Some(u32::try_from(number(node)?)?);
        return Ok(());
    }
    match part {
        "table" => row.steps.push(Step::Table)?,
        "lanes meet" => row.way.lanes_meet = true,
        "calls meet" => row.way.calls_meet = true,
        _ => bail!("{part}: no such part"),
    }
    Ok(())
}

/// `PATH «BYTES»`.
fn add_file(alloc: Global, row: &mut Row, rest: &str) -> Result<()> {
    let (path, bytes, _) = named_text(alloc, rest)?;
    row.host.put(path.as_str(), bytes.as_bytes())?;
    Ok(())
}

/// `«SCRIPT» STATUS «STDOUT»`, and any number of ` NAME «BYTES»`.
fn add_child(alloc: Global, row: &mut Row, rest: &str) -> Result<()> {
    let (_, script, rest) = named_text(alloc, rest)?;
    let (status, printed, rest) = named_text(alloc, rest)?;
    let Ok(status) = status.as_str().parse::<u8>() else {
        bail!("{status}: no exit status");
    };
    let mut files = Vec::new(alloc);
    files.push(file(alloc, ".command.out", printed.as_str())?)?;
    let mut left = rest;
    for _ in 0..rest.len() {
        if left.is_empty() {
            break;
        }
        let (name, bytes, after) = named_text(alloc, left)?;
        files.push(file(alloc, name.as_str(), bytes.as_str())?)?;
        left = after;
    }
    let script = format!(in alloc; "{script}\n")?;
    row.host
        .add_child(script.as_bytes(), Child { status, files })?;
    Ok(())
}

fn file(alloc: Global, name: &str, bytes: &str) -> Result<(Txt, Bytes)> {
    let name = Txt::of(String::from_str(alloc, name)?);
    let bytes = Bytes::of(Vec::from_slice(alloc, bytes.as_bytes())?);
    Ok((name, bytes))
}

/// `N after BYTES`.
fn add_failing_write(row: &mut Row, rest: &str) -> Result<()> {
    let Some((write, front)) = rest.split_once(" after ") else {
        bail!("{rest}: no `after`");
    };
    row.sink.fail_at(number(write)?, number(front)?)?;
    Ok(())
}

/// What stands before a text, without blanks around it; the text; and what stands after it.
fn named_text<'a>(alloc: Global, rest: &'a str) -> Result<(String, String, &'a str)> {
    let Some((name, rest)) = rest.split_once('«') else {
        bail!("{rest}: no text");
    };
    let Some((bytes, rest)) = rest.split_once('»') else {
        bail!("{rest}: no end");
    };
    Ok((text(alloc, name.trim())?, text(alloc, bytes)?, rest.trim()))
}

fn number(digits: &str) -> Result<u64> {
    match digits.trim().parse::<u64>() {
        Ok(number) => Ok(number),
        Err(_) => bail!("{digits}: no number"),
    }
}
