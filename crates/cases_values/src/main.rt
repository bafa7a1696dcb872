//! Answers a table of questions about values, jobs and files in memory. Standard input has a row a line, `QUESTION: PARTS`,
//! with ` | ` between the parts. Values stand as their codes (`nf_codec`), as `i3;` or `l2:i3;s1:a`. Each row is printed with its answer. Empty
//! lines and lines that begin with `#` are printed as they are.
#![tactic(auto)]

mod bags;
mod files;
mod jobs;
mod order;
mod values;

use anyhow::{Result, bail};
use std::alloc::Global;

fn main(rt: HostRuntime) -> Result<()> {
    run(&rt)
}

fn run<R: AllocGlobal + Input + Print>(rt: &R) -> Result<()> {
    for line in rt.lines(rt.alloc()) {
        let line = line?;
        print_line(rt, line.as_str())?;
    }
    Ok(())
}

/// Prints a row and its answer.
fn print_line<R: AllocGlobal + Print>(rt: &R, line: &str) -> Result<()> {
    if line.is_empty() || line.starts_with('#') {
        println!(rt; "{line}")?;
        return Ok(());
    }
    let answer = answer(rt.alloc(), line)?;
    println!(rt; "{line} => {answer}")?;
    Ok(())
}

fn answer(alloc: Global, row: &str) -> Result<String> {
    match row.split_once(": ") {
        Some((question, parts)) => answer_to(alloc, question, parts),
        None => bail!("{row}: no question"),
    }
}

fn answer_to(alloc: Global, question: &str, parts: &str) -> Result<String> {
    match question {
        "order" => order::order(alloc, parts),
        "sorted" => bags::sorted(alloc, parts),
        "distinct" => bags::distinct(alloc, parts),
        "count" => bags::count(alloc, parts),
        "same bag" => bags::is_same(alloc, parts),
        "job" => jobs::job(alloc, parts),
        "file" => files::file(alloc, parts),
        _ => bail!("{question}: no question"),
    }
}
