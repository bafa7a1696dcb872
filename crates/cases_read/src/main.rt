//! Reads a table of texts. Standard input has a row a line, and each is printed with what its text is read as:
//! `tokens «TEXT»` with the tokens and their places, `expr «TEXT»` with how many of the tokens the expression takes, `script «TEXT»` with
//! how many parts the script has; or with the first fault and its place. Empty lines and lines that begin with `#` are printed as they are.
#![tactic(auto)]

mod read;
mod text;
mod tokens;

use anyhow::{Result, bail};
use std::alloc::Global;

fn main(rt: HostRuntime) -> Result<()> {
    run(&rt)
}

fn run<R: AllocGlobal + Input + Print>(rt: &R) -> Result<()> {
    for line in rt.lines(rt.alloc()) {
        let line = line?;
        print_line(rt, line.as_str())?;
    }
    Ok(())
}

/// Prints a row and what it gives.
fn print_line<R: AllocGlobal + Print>(rt: &R, line: &str) -> Result<()> {
    if line.is_empty() || line.starts_with('#') {
        println!(rt; "{line}")?;
        return Ok(());
    }
    let answer = answer(rt.alloc(), line)?;
    let answer = text::pictured(rt.alloc(), answer.as_str())?;
    println!(rt; "{line} => {answer}")?;
    Ok(())
}

/// What a row's text is read as.
fn answer(alloc: Global, row: &str) -> Result<String> {
    let Some((kind, rest)) = row.split_once(" «") else {
        bail!("{row}: no text");
    };
    let text = text::text(alloc, rest.trim_end_matches('»'))?;
    match kind {
        "tokens" => tokens::shown(alloc, text.as_str()),
        "expr" => read::expr_end(alloc, text.as_str()),
        _ => read::script_end(alloc, text.as_str()),
    }
}
