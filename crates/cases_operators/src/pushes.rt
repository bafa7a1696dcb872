//! What a row pushes.

use crate::values::value;
use anyhow::{Result, bail};
use nf_value::Value;
use std::alloc::Global;

/// An item with its port and its answer.
#[derive(Drop)]
pub(crate) struct Push {
    pub(crate) port: u32,
    pub(crate) item: Value,
    pub(crate) answer: Value,
}

/// The pushes of a text.
pub(crate) fn pushes(alloc: Global, text: &str) -> Result<Vec<Push>> {
    let mut pushes = Vec::new(alloc);
    if text.is_empty() {
        return Ok(pushes);
    }
    for given in text.split(';') {
        pushes.push(at_port(alloc, given.trim())?)?;
    }
    Ok(pushes)
}

fn at_port(alloc: Global, text: &str) -> Result<Push> {
    match text.strip_prefix('@') {
        None => answered(alloc, 0, text),
        Some(text) => match text.split_once(' ') {
            Some((port, text)) => answered(alloc, port.parse::<u32>()?, text),
            None => bail!("{text}: no item"),
        },
    }
}

fn answered(alloc: Global, port: u32, text: &str) -> Result<Push> {
    let (item, answer) = match text.split_once(" -> ") {
        Some(parts) => parts,
        None => (text, text),
    };
    Ok(Push {
        port,
        item: value(alloc, item)?,
        answer: value(alloc, answer)?,
    })
}
