//! Reads a table of command lines and parameter files. Standard input has a row a line. `words: WORDS` has words between `<` and `>`, or
//! none; `file: TEXT` the text of a parameter file; `bytes: HEX` its bytes in hexadecimal. `nested: N` is N lists in each other under the
//! key `a`, and `deep: N` the same with a number in the innermost. `over: SCRIPT | FILE | WORDS` has the parameters of three places, each
//! as a file. `gen: N START` has the numbers of a script that is made, and `line: N START <REPORT>` a report of its run too, with `\n` for
//! each line end. Each row is printed with what is read of it. Empty lines and lines that begin with `#` are printed as they are.
#![tactic(auto)]

mod files;
mod generated;
mod shown;
mod words;

use anyhow::{Result, bail};
use std::alloc::Global;

fn main(rt: HostRuntime) -> Result<()> {
    run(&rt)
}

fn run<R: AllocGlobal + Input + Print>(rt: &R) -> Result<()> {
    for line in rt.lines(rt.alloc()) {
        let line = line?;
        print_line(rt, line.as_str())?;
    }
    Ok(())
}

/// Prints a row and its answer.
fn print_line<R: AllocGlobal + Print>(rt: &R, line: &str) -> Result<()> {
    if line.is_empty() || line.starts_with('#') {
        println!(rt; "{line}")?;
        return Ok(());
    }
    let answer = answer(rt.alloc(), line)?;
    println!(rt; "{line} => {answer}")?;
    Ok(())
}

fn answer(alloc: Global, row: &str) -> Result<String> {
    match row.split_once(": ") {
        Some(("words", parts)) => words::words(alloc, parts),
        Some(("file", text)) => files::file(alloc, text.as_bytes()),
        Some(("bytes", digits)) => files::bytes(alloc, digits),
        Some(("nested", count)) => files::nested(alloc, count),
        Some(("deep", count)) => files::deep(alloc, count),
        Some(("over", parts)) => files::over(alloc, parts),
        Some(("gen", numbers)) => generated::generated(alloc, numbers),
        Some(("line", parts)) => generated::line(alloc, parts),
        _ => bail!("{row}: no question"),
    }
}
