//! What a run that is over reports.

use crate::cases::Case;
use crate::items::small;
use anyhow::{Result, bail};
use nf_bag::{OpFault, sorted};
use nf_flow::Flow;
use nf_machine::{Event, Stop};
use nf_value::{Txt, Vals, Value, text_of};
use std::alloc::Global;

/// What the deliveries of a run may cost.
const LIMIT: u64 = 67_108_864;

/// What each `view` printed, in the order of values, or why the run was stopped.
pub(crate) fn report(alloc: Global, case: &Case, flow: &Flow) -> Result<String> {
    if !flow.is_over() {
        bail!("stands still");
    }
    if let Some(stop) = flow.stop() {
        if flow.in_flight() != 0 {
            bail!("over with tickets in flight");
        }
        return stopped(alloc, stop);
    }
    let mut text = String::new(alloc);
    for place in 0..small(flow.graph().nodes().len())? {
        if case.is_view(place) {
            if !text.is_empty() {
                text.push_str(", ")?;
            }
            let answers = answers_at(alloc, flow.history(), place)?;
            let printed = printed(alloc, answers.as_slice())?;
            let printed = printed.as_str();
            let view = format!(in alloc; "{place}: {printed}")?;
            text.push_str(view.as_str())?;
        }
    }
    if text.is_empty() {
        text.push_str("nothing")?;
    }
    Ok(text)
}

/// What the closure of a node answered, in the order of the answers.
fn answers_at(alloc: Global, history: &[Event], node: u32) -> Result<Vec<Value>> {
    let mut answers = Vec::new(alloc);
    let mut takers = Vec::new(alloc);
    for event in history {
        match event {
            Event::Take { node, .. } => takers.push(*node)?,
            Event::Give {
                ticket,
                answer: Ok(answer),
            } => {
                if taker(takers.as_slice(), *ticket) == Some(node) {
                    answers.push(answer.copy()?)?;
                }
            }
            _ => {}
        }
    }
    Ok(answers)
}

/// The node that made the take of this number, of those that made takes.
fn taker(takers: &[u32], number: u32) -> Option<u32> {
    takers.get(number.checked_sub(1)? as usize).copied()
}

fn printed(alloc: Global, answers: &[Value]) -> Result<Txt> {
    let mut values = Vec::new(alloc);
    for answer in answers {
        values.push(answer.copy()?)?;
    }
    let values = sorted(Vals::of(values))?;
    Ok(text_of(alloc, &Value::List(values))?)
}

/// Why the run was stopped, with the node and what it was at.
fn stopped(alloc: Global, stop: &Stop) -> Result<String> {
    match stop {
        Stop::Charge { .. } => Ok(format!(in alloc; "stop: Charge past {LIMIT}")?),
        Stop::Op { node, fault } => {
            let held = held(alloc, fault)?;
            let held = held.as_str();
            let name = fault.copy()?;
            Ok(format!(in alloc; "stop: {name} on {held} at {node}")?)
        }
        Stop::Item { node, item, fault } => {
            let item = text_of(alloc, item)?;
            let item = item.as_str();
            let kind = fault.kind;
            Ok(format!(in alloc; "stop: {kind} on {item} at {node}")?)
        }
        Stop::Task {
            node,
            inputs,
            n,
            fault,
        } => {
            let inputs = text_of(alloc, &Value::List(inputs.copy()?))?;
            let inputs = inputs.as_str();
            let name = fault.copy()?;
            Ok(format!(in alloc; "stop: {name} of {inputs} #{n} at {node}")?)
        }
        Stop::Outside(_) => bail!("a failure outside"),
        Stop::Mem => Ok(String::from_str(alloc, "stop: Mem")?),
    }
}

fn held(alloc: Global, fault: &OpFault) -> Result<Txt> {
    match fault {
        OpFault::DuplicateKey { key } => Ok(text_of(alloc, key)?),
        OpFault::NotATuple { item } | OpFault::NotANumber { item } | OpFault::TooDeep { item } =>
            Ok(text_of(alloc, item)?),
        OpFault::Overflow { total } => Ok(Txt::of(format!(in alloc; "{total}")?)),
        OpFault::Mem => bail!("want of memory"),
    }
}
