//! Refusals in words.

use anyhow::{Result, bail};
use nf_job::{TaskFault, TaskRefusal};
use std::alloc::Global;

/// The fault of an attempt, with its place where it has one.
pub(crate) fn refused(alloc: Global, refusal: &TaskRefusal) -> Result<String> {
    match refusal {
        TaskRefusal::Fault(fault) => faulty(alloc, fault),
        TaskRefusal::Mem => bail!("want of memory"),
    }
}

fn faulty(alloc: Global, fault: &TaskFault) -> Result<String> {
    match fault {
        TaskFault::Eval(fault) => {
            Ok(format!(in alloc; "fault, Eval {} at {}", fault.kind, fault.place)?)
        }
        fault => Ok(format!(in alloc; "fault, {fault}")?),
    }
}
