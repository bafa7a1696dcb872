//! Scripts that `gen` makes, and the lines that stand in place of their reports.

use anyhow::{Context, Result};
use nf_gen::{generated_line, generated_script};
use std::alloc::Global;

/// The script of two numbers, N and START, on one line.
pub(crate) fn generated(alloc: Global, numbers: &str) -> Result<String> {
    let (n, start) = two_of(numbers)?;
    let script = generated_script(alloc, n, start)?;
    Ok(format!(in alloc; "{:?}", script.as_str())?)
}

/// The line of two numbers and of a report between `<` and `>`, in which each line end is written as `\n`.
pub(crate) fn line(alloc: Global, parts: &str) -> Result<String> {
    let (numbers, rest) = parts.split_once(" <").context("no report")?;
    let (n, start) = two_of(numbers)?;
    let report = rest.strip_suffix('>').context("a report with no end")?;
    let report = report.replace(alloc, "\\n", "\n")?;
    let line = generated_line(alloc, n, start, report.as_str())?;
    Ok(format!(in alloc; "{:?}", line.as_str())?)
}

fn two_of(numbers: &str) -> Result<(u32, u64)> {
    let (n, start) = numbers.split_once(' ').context("two numbers are due")?;
    Ok((n.parse::<u32>()?, start.parse::<u64>()?))
}
