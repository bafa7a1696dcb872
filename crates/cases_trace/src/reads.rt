//! Traces that are read.

use anyhow::{Context, Result, bail};
use nf_trace::{TraceFault, TraceLine, read_trace};
use std::alloc::Global;

/// What is read of a text in quotes.
pub(crate) fn read(alloc: Global, quoted: &str) -> Result<String> {
    let text = quoted.strip_prefix('"').context("no quote")?;
    let text = text.strip_suffix('"').context("no quote")?;
    let bytes = unescaped(alloc, text)?;
    match read_trace(alloc, &bytes) {
        Ok(lines) => shown(alloc, &lines),
        Err(TraceFault::NotATrace { line }) => Ok(format!(in alloc; "NotATrace line {line}")?),
        Err(TraceFault::Mem) => bail!("no memory"),
    }
}

fn shown(alloc: Global, lines: &[TraceLine]) -> Result<String> {
    let mut text = String::from_str(alloc, "lines")?;
    for line in lines {
        push_line(alloc, &mut text, line)?;
    }
    Ok(text)
}

fn push_line(alloc: Global, text: &mut String, line: &TraceLine) -> Result<()> {
    let id = line.task_id.as_str();
    let hash = line.hash.as_str();
    let name = line.name.as_str();
    let status = line.status.as_str();
    let exit = line.exit.as_str();
    let shown = format!(in alloc; " <{id}|{hash}|{name}|{status}|{exit}>")?;
    text.push_str(shown.as_str())?;
    Ok(())
}

/// The bytes that a text with escapes stands for.
fn unescaped(alloc: Global, text: &str) -> Result<Vec<u8>> {
    let mut bytes = Vec::new(alloc);
    let mut is_first = true;
    for part in text.split('\\') {
        if is_first {
            bytes.extend_from_slice(part.as_bytes())?;
            is_first = false;
        } else {
            push_escape(&mut bytes, part)?;
        }
    }
    Ok(bytes)
}

/// Appends what an escape stands for, and what follows it.
fn push_escape(bytes: &mut Vec<u8>, part: &str) -> Result<()> {
    if let Some(rest) = part.strip_prefix('t') {
        bytes.push(b'\t')?;
        bytes.extend_from_slice(rest.as_bytes())?;
    } else if let Some(rest) = part.strip_prefix('n') {
        bytes.push(b'\n')?;
        bytes.extend_from_slice(rest.as_bytes())?;
    } else {
        push_byte(bytes, part.as_bytes())?;
    }
    Ok(())
}

fn push_byte(bytes: &mut Vec<u8>, part: &[u8]) -> Result<()> {
    match part {
        [b'x', high, low, rest @ ..] => {
            let mut byte = [0u8; 1];
            if hex::decode_to_slice([*high, *low].as_slice(), &mut byte).is_err() {
                bail!("no byte");
            }
            bytes.push(byte[0])?;
            bytes.extend_from_slice(rest)?;
            Ok(())
        }
        _ => bail!("no escape"),
    }
}
