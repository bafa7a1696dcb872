//! Answers a table of questions about records and keepers. Standard input has a row a line, `QUESTION: PARTS`, with ` | ` between the parts. Each
//! row is printed with its answer. Empty lines and lines that begin with `#` are printed as they are.
#![tactic(auto)]

mod jobs;
mod keepers;
mod records;

use anyhow::{Result, bail};
use std::alloc::Global;

fn main(rt: HostRuntime) -> Result<()> {
    run(&rt)
}

fn run<R: AllocGlobal + Input + Print>(rt: &R) -> Result<()> {
    for line in rt.lines(rt.alloc()) {
        let line = line?;
        print_line(rt, line.as_str())?;
    }
    Ok(())
}

/// Prints a row and its answer.
fn print_line<R: AllocGlobal + Print>(rt: &R, line: &str) -> Result<()> {
    if line.is_empty() || line.starts_with('#') {
        println!(rt; "{line}")?;
        return Ok(());
    }
    let answer = answer(rt.alloc(), line)?;
    println!(rt; "{line} => {answer}")?;
    Ok(())
}

fn answer(alloc: Global, row: &str) -> Result<String> {
    match row.split_once(": ") {
        Some((question, parts)) => answer_to(alloc, question, parts),
        None => bail!("{row}: no question"),
    }
}

fn answer_to(alloc: Global, question: &str, parts: &str) -> Result<String> {
    match question {
        "read" => records::reading(alloc, parts),
        "fronts" => records::fronts(alloc, parts),
        "lookup" => records::looking(alloc, parts),
        "put" => keepers::putting(alloc, parts),
        "file" => keepers::filing(alloc, parts),
        "long" => keepers::filing_long(alloc, parts),
        _ => bail!("{question}: no question"),
    }
}
