//! Writes and reads traces by a table of rows. Standard input has a row a line. `write: TASKS` has tasks with ` ; ` between them, each
//! `NAME | ATTEMPTS | STATUS`: attempts are keys of 64 hexadecimal digits, each with `=` and a tag after it or without, and commas between them;
//! `none` are none. `read: TEXT` has a text in quotes, where `\t`, `\n` and `\x` with two hexadecimal digits stand for bytes. Each row is printed
//! with the trace, or with the lines that were read. Empty lines and lines that begin with `#` are printed as they are.
#![tactic(auto)]

mod reads;
mod writes;

use anyhow::{Result, bail};
use std::alloc::Global;

fn main(rt: HostRuntime) -> Result<()> {
    run(&rt)
}

fn run<R: AllocGlobal + Input + Print>(rt: &R) -> Result<()> {
    for line in rt.lines(rt.alloc()) {
        let line = line?;
        print_line(rt, line.as_str())?;
    }
    Ok(())
}

/// Prints a row and its answer.
fn print_line<R: AllocGlobal + Print>(rt: &R, line: &str) -> Result<()> {
    if line.is_empty() || line.starts_with('#') {
        println!(rt; "{line}")?;
        return Ok(());
    }
    let answer = answer(rt.alloc(), line)?;
    println!(rt; "{line} => {answer}")?;
    Ok(())
}

fn answer(alloc: Global, row: &str) -> Result<String> {
    match row.split_once(": ") {
        Some(("write", tasks)) => writes::written(alloc, tasks),
        Some(("read", text)) => reads::read(alloc, text),
        _ => bail!("{row}: no question"),
    }
}
