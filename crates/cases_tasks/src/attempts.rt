//! Attempts at tasks, as rows name them.

ghost use Rattle.std.specs.Prelude.{◌≤◌};

use crate::files::list;
use anyhow::{Result, bail};
use nf_value::Vals;
use std::alloc::Global;

/// An attempt that a run may have.
#[derive(Drop)]
pub(crate) struct Attempt {
    /// The items that the process gets.
    pub(crate) inputs: Vals,
    /// How many tasks with equal items come before it.
    pub(crate) n: u32,
    /// Its number, from 1.
    pub(crate) number: u32,
    ghost first: { 1 ≤ number },
    ghost last: { number ≤ 101 },
}

/// The attempt that a row begins with: `INPUTS | N | NUMBER`.
pub(crate) fn first_attempt(alloc: Global, row: &str) -> Result<Attempt> {
    let inputs = list(alloc, part(row))?;
    let n = number(part(after(row)))?;
    let number = number(part(after(after(row))))?;
    numbered(inputs, n, number)
}

fn numbered(inputs: Vals, n: u32, number: u32) -> Result<Attempt> {
    if number < 1 || number > 101 {
        bail!("no attempt");
    }
    Ok(Attempt { inputs, n, number })
}

fn number(text: &str) -> Result<u32> {
    Ok(text.parse::<u32>()?)
}

/// The first part of a row.
pub(crate) fn part(row: &str) -> &str {
    match row.split_once('|') {
        Some((part, _)) => part.trim(),
        None => row.trim(),
    }
}

/// What stands after the first part of a row; nothing if there is no other part.
pub(crate) fn after(row: &str) -> &str {
    match row.split_once('|') {
        Some((_, rest)) => rest,
        None => "",
    }
}

/// What stands after the attempt that a row begins with.
pub(crate) fn after_attempt(row: &str) -> &str {
    after(after(after(row)))
}
