//! Checks a table of scripts against the order rules. Standard input has the scripts, each with a line `----` after
//! it; each is printed with whether it is accepted, or the place and the rule that it breaks first. A line that begins
//! with `#` between two scripts is printed as it is.
#![tactic(auto)]

use anyhow::{Result, bail};
use nf_lexer::tokens;
use nf_order::{Accepted, OrderFault, check};
use nf_parser::script;
use std::alloc::Global;

fn main(rt: HostRuntime) -> Result<()> {
    run(&rt)
}

fn run<R: AllocGlobal + Input + Print>(rt: &R) -> Result<()> {
    let mut text = String::new(rt.alloc());
    for line in rt.lines(rt.alloc()) {
        let line = line?;
        print_line(rt, line.as_str(), &mut text)?;
    }
    Ok(())
}

/// Prints a line, and the answer to a script where it ends.
fn print_line<R: AllocGlobal + Print>(rt: &R, line: &str, text: &mut String) -> Result<()> {
    if line == "----" {
        print_answer(rt, text.as_str())?;
        text.clear();
    } else if !(text.is_empty() && line.starts_with('#')) {
        text.push_str(line)?;
        text.push_str("\n")?;
    }
    println!(rt; "{line}")?;
    Ok(())
}

/// Prints whether a script is accepted.
fn print_answer<R: AllocGlobal + Print>(rt: &R, text: &str) -> Result<()> {
    match answer(rt.alloc(), text)? {
        Ok(_) => println!(rt; "=> accepted")?,
        Err(OrderFault::Mem) => bail!("no memory"),
        Err(fault) => println!(rt; "=> {fault}")?,
    }
    Ok(())
}

/// What the check of a script answers.
fn answer(alloc: Global, text: &str) -> Result<Result<Accepted, OrderFault>> {
    let Ok(tokens) = tokens(alloc, text.as_bytes()) else {
        bail!("{text}: no tokens");
    };
    let Ok(script) = script(alloc, &tokens) else {
        bail!("{text}: no script");
    };
    Ok(check(alloc, script))
}
