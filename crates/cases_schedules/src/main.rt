//! Runs flows in many orders of their steps, to show that every order gives one report. Standard input has rows, each with a line for each
//! thing that it tells:
//!
//! - `row all: TEXT`, `row seeded: TEXT` or `row refused: TEXT` begins a row, which goes up to an empty line. `all` runs every order, of which there
//!   may be 20,000; `seeded` runs a thousand; `refused` runs twenty, each with the memory for its first step refused, for its second, and so on.
//! - `node source ITEMS`, with semicolons between the items; `node OPERATOR PORTS | OPTIONS` or `node process PORTS | OUTPUTS`. A port is the
//!   node that it reads and the output there, `3.1` or `3`, after `=` where it is a value port. Nodes count from 0.
//! - `answer NODE: ITEM -> ANSWER; ..` is the closure of an operator. An answer `!KIND` is a fault. An item that isn't there is its own answer.
//! - `errors NODE: ignore` or `errors NODE: retry TIMES` is the strategy of a process that fails.
//! - `outputs NODE: TEXT -> [VALUE, ..]; ..` is what a process emits for a standard output, with `null` where it emits nothing. A text that
//!   isn't there is emitted itself.
//! - `no job NODE: INPUTS @ATTEMPT -> KIND` is an attempt that has a fault in place of a job.
//! - `report NODE: INPUTS #N -> REPORT / ..` are the outcomes of an instance by attempts: a text, `exit STATUS`, or `bad` standard output.
//! - `resumed` lets an attempt be reused in place of a start.
//!
//! Values are JSON, and `text LENGTH` is a text of so many letters. The lines are printed as they are, and after a row each distinct report
//! once: the values that each `view` printed, in order, or why the run was stopped. Lines that begin with `#` are printed as they are.
#![tactic(auto)]

mod cases;
mod choices;
mod items;
mod lines;
mod lookup;
mod machine;
mod nodes;
mod options;
mod orders;
mod outcomes;
mod report;
mod rules;
mod steps;
mod tickets;
mod values;

use anyhow::Result;
use cases::Case;
use std::alloc::Global;

fn main(rt: HostRuntime) -> Result<()> {
    run(&rt)
}

fn run<R: AllocGlobal + Input + Print>(rt: &R) -> Result<()> {
    let alloc = rt.alloc();
    let mut case = Case::new(alloc);
    for line in rt.lines(alloc) {
        let line = line?;
        let line = line.as_str();
        if line.is_empty() {
            case = ended(rt, case)?;
        } else if !line.starts_with('#') {
            lines::add_line(alloc, &mut case, line)?;
        }
        println!(rt; "{line}")?;
    }
    let _last = ended(rt, case)?;
    Ok(())
}

/// Prints the reports of a row, if there is one, and gives the row that comes next, of which nothing is told yet.
fn ended<R: AllocGlobal + Print>(rt: &R, case: Case) -> Result<Case> {
    let alloc: Global = rt.alloc();
    if case.node(0).is_some() {
        for report in &orders::reports(alloc, &case)? {
            println!(rt; "=> {report}")?;
        }
    }
    Ok(Case::new(alloc))
}
