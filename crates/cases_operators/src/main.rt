//! Runs a table of operators. Standard input has a row a line, `OPERATOR OPTIONS | PUSHES`. Options are `NAME: VALUE`, with commas between them.
//! Pushes are `ITEM` or `ITEM -> ANSWER`, with semicolons between them, each after `@PORT` where its port isn't 0. Values are JSON. An item without an
//! answer is its own answer.
//!
//! The items are pushed in several orders: as they stand, backwards, and from each of them on round to the one before it. Each row is printed with
//! what came of these orders, each outcome once. An outcome is the values at each output in the order of values, or a fault with what it holds and
//! whether it came at the close. Empty lines and lines that begin with `#` are printed as they are.
#![tactic(auto)]

mod options;
mod outcomes;
mod pushes;
mod rows;
mod values;

use anyhow::{Result, bail};
use std::alloc::Global;

fn main(rt: HostRuntime) -> Result<()> {
    run(&rt)
}

fn run<R: AllocGlobal + Input + Print>(rt: &R) -> Result<()> {
    let alloc = rt.alloc();
    for line in rt.lines(alloc) {
        let line = line?;
        let line = line.as_str();
        if line.is_empty() || line.starts_with('#') {
            println!(rt; "{line}")?;
        } else {
            let answer = answer(alloc, line)?;
            println!(rt; "{line} => {answer}")?;
        }
    }
    Ok(())
}

/// What comes of a row.
fn answer(alloc: Global, row: &str) -> Result<String> {
    let (head, given) = match row.split_once('|') {
        Some(parts) => parts,
        None => bail!("{row}: no pushes"),
    };
    let (name, given_options) = match head.split_once(' ') {
        Some(parts) => parts,
        None => bail!("{row}: no blank after the operator"),
    };
    let opts = options::options(alloc, given_options.trim())?;
    let pushes = pushes::pushes(alloc, given.trim())?;
    outcomes::outcomes(alloc, name, &opts, pushes)
}
