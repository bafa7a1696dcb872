//! The lines of a row.

use crate::cases::{Case, Orders};
use crate::items::{fault, item, list, text};
use crate::nodes::node_of;
use crate::outcomes::outcome_of;
use crate::rules::{Answer, Handling, Refused, Strategy, Told};
use anyhow::{Context, Result, bail};
use nf_job::Emitted;
use nf_value::Value;
use std::alloc::Global;

/// Adds what a line tells.
pub(crate) fn add_line(alloc: Global, case: &mut Case, line: &str) -> Result<()> {
    if line == "resumed" {
        case.is_resumed = true;
        return Ok(());
    }
    if let Some(given) = line.strip_prefix("node ") {
        let node = node_of(alloc, given)?;
        if !case.graph.add(node)? {
            bail!("{given}: a node that doesn't fit");
        }
        return Ok(());
    }
    let (head, tail) = line.split_once(": ").context("no colon")?;
    if let Some(orders) = head.strip_prefix("row ") {
        case.orders = orders_of(orders)?;
        return Ok(());
    }
    let (what, place) = head.rsplit_once(' ').context("no node")?;
    add_rule(alloc, case, what, place.parse::<u32>()?, tail)
}

fn orders_of(name: &str) -> Result<Orders> {
    match name {
        "all" => Ok(Orders::All),
        "seeded" => Ok(Orders::Seeded),
        "refused" => Ok(Orders::Refused),
        _ => bail!("{name}: no orders"),
    }
}

/// Adds what a line tells of a node.
fn add_rule(alloc: Global, case: &mut Case, what: &str, node: u32, given: &str) -> Result<()> {
    match what {
        "answer" => add_answers(alloc, case, node, given),
        "errors" => {
            let strategy = strategy_of(given)?;
            case.rules.strategies.push(Handling { node, strategy })?;
            Ok(())
        }
        "outputs" => add_outputs(alloc, case, node, given),
        "no job" => add_refused(alloc, case, node, given),
        "report" => {
            case.outcomes.push(outcome_of(alloc, node, given)?)?;
            Ok(())
        }
        _ => bail!("{what}: no line"),
    }
}

fn add_answers(alloc: Global, case: &mut Case, node: u32, given: &str) -> Result<()> {
    for pair in given.split(';') {
        let (from, to) = pair.split_once(" -> ").context("no answer")?;
        let from = item(alloc, from.trim())?;
        let answer = match to.strip_prefix('!') {
            Some(kind) => Err(fault(kind)?),
            None => Ok(item(alloc, to)?),
        };
        case.rules.answers.push(Answer {
            node,
            item: from,
            answer,
        })?;
    }
    Ok(())
}

fn strategy_of(given: &str) -> Result<Strategy> {
    if given == "ignore" {
        return Ok(Strategy::Ignore);
    }
    let times = given.strip_prefix("retry ").context("no strategy")?;
    Ok(Strategy::Retry(times.parse::<u32>()?))
}

fn add_outputs(alloc: Global, case: &mut Case, node: u32, given: &str) -> Result<()> {
    for pair in given.split(';') {
        let (from, to) = pair.split_once(" -> ").context("no outputs")?;
        let from = text(alloc, from.trim())?;
        let values = Emitted::of(emitted(alloc, to)?);
        case.rules.outputs.push(Told {
            node,
            text: from,
            values,
        })?;
    }
    Ok(())
}

/// The outputs that a list spells: nothing where it has `null`.
fn emitted(alloc: Global, given: &str) -> Result<Vec<Option<Value>>> {
    let mut outputs = Vec::new(alloc);
    for value in list(alloc, given)?.into_items() {
        outputs.push(output(value))?;
    }
    Ok(outputs)
}

fn output(value: Value) -> Option<Value> {
    match value {
        Value::Null => None,
        value => Some(value),
    }
}

fn add_refused(alloc: Global, case: &mut Case, node: u32, given: &str) -> Result<()> {
    let (inputs, rest) = given.split_once(" @").context("no attempt")?;
    let (attempt, kind) = rest.split_once(" -> ").context("no fault")?;
    case.rules.refused.push(Refused {
        node,
        inputs: list(alloc, inputs)?,
        attempt: attempt.parse::<u32>()?,
        fault: fault(kind)?,
    })?;
    Ok(())
}
