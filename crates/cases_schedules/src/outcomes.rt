//! What the tasks of a row report.

use crate::items::{list, text};
use anyhow::{Context, Result};
use nf_job::{Captured, Found, Report};
use nf_value::Vals;
use std::alloc::Global;

/// The reports of an instance of a process, by attempts from the first.
#[derive(Drop)]
pub(crate) struct Outcome {
    pub(crate) node: u32,
    pub(crate) inputs: Vals,
    /// How many takes of equal inputs came before.
    pub(crate) n: u32,
    pub(crate) reports: Vec<Report>,
}

/// The outcome that a text tells: `INPUTS #N -> REPORT / REPORT ..`.
pub(crate) fn outcome_of(alloc: Global, node: u32, given: &str) -> Result<Outcome> {
    let (instance, told) = given.split_once(" -> ").context("no report")?;
    let (inputs, n) = instance.split_once(" #").context("no number")?;
    let mut reports = Vec::new(alloc);
    for given in told.split(" / ") {
        reports.push(report(alloc, given)?)?;
    }
    Ok(Outcome {
        node,
        inputs: list(alloc, inputs)?,
        n: n.parse::<u32>()?,
        reports,
    })
}

/// A text, `exit STATUS` or `bad`.
fn report(alloc: Global, given: &str) -> Result<Report> {
    let mut report = Report {
        exit: 0,
        captured: Captured::Bad,
        found: Found::of(Vec::new(alloc)),
    };
    if let Some(status) = given.strip_prefix("exit ") {
        report.exit = status.parse::<i32>()?;
    } else if given != "bad" {
        report.captured = Captured::Text(text(alloc, given)?);
    }
    Ok(report)
}

/// The report of an attempt at an instance.
pub(crate) fn report_of<'a>(
    outcomes: &'a [Outcome],
    node: u32,
    inputs: &Vals,
    n: u32,
    attempt: u32,
) -> Option<&'a Report> {
    for outcome in outcomes {
        if outcome.node == node && outcome.n == n && outcome.inputs.items() == inputs.items() {
            return outcome
                .reports
                .as_slice()
                .get(attempt.checked_sub(1)? as usize);
        }
    }
    None
}
