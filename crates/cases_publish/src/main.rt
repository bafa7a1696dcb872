//! Answers a table of published files. Standard input has a row a line, `QUESTION: PARTS`, with ` | ` between the
//! parts.
//!
//! - `report: VIEWS | TARGETS` gives the report of these views and targets, or the first clash.
//! - `copy: STORED | TARGETS` copies the targets from the store of the folder `work`, and gives what each then holds.
//! - `failing: STORED | TARGETS` makes each call of the host fail in turn, and gives how many there are.
//!
//! VIEWS are the codes of lists (`nf_codec`), with ` & ` between them. A target is `PATH=TEXT`, with `, ` between them:
//! the file that is published at the path has the digest of the text. STORED is `TEXT=BYTES`: these bytes stand in the
//! place of the text's digest. Empty lines and lines that begin with `#` are printed as they are.
#![tactic(auto)]

mod copies;
mod parts;
mod reports;

use anyhow::{Result, bail};
use std::alloc::Global;

fn main(rt: HostRuntime) -> Result<()> {
    run(&rt)
}

fn run<R: AllocGlobal + Input + Print>(rt: &R) -> Result<()> {
    for line in rt.lines(rt.alloc()) {
        let line = line?;
        print_line(rt, line.as_str())?;
    }
    Ok(())
}

/// Prints a row and its answer.
fn print_line<R: AllocGlobal + Print>(rt: &R, line: &str) -> Result<()> {
    if line.is_empty() || line.starts_with('#') {
        println!(rt; "{line}")?;
        return Ok(());
    }
    let answer = answer(rt.alloc(), line)?;
    println!(rt; "{line} => {answer}")?;
    Ok(())
}

fn answer(alloc: Global, row: &str) -> Result<String> {
    match row.split_once(": ") {
        Some((question, parts)) => answer_to(alloc, question, parts),
        None => bail!("{row}: no question"),
    }
}

fn answer_to(alloc: Global, question: &str, row: &str) -> Result<String> {
    let (first, targets) = parts::two(row);
    let targets = parts::targets(alloc, targets)?;
    match question {
        "report" => reports::shown(alloc, first, &targets),
        "copy" => copies::shown(alloc, first, &targets),
        "failing" => copies::shown_failing(alloc, first, &targets),
        _ => bail!("{question}: no question"),
    }
}
