//! What comes of a row.

ghost use Rattle.nf_bag.specs.Options.{Allows};

use crate::pushes::Push;
use crate::rows::row_of;
use anyhow::{Result, bail};
use nf_bag::{OpFault, OpOpts, Row, sorted};
use nf_operator::OpState;
use nf_value::{Mem, Txt, Vals, Value, text_of};
use std::alloc::Global;

/// Each outcome of the orders once, with ` | ` between them.
pub(crate) fn outcomes(
    alloc: Global,
    name: &str,
    opts: &OpOpts,
    mut pushes: Vec<Push>,
) -> Result<String> {
    let row = row_of(name, opts)?;
    let mut outcomes = Vec::new(alloc);
    for first in 0..pushes.len() {
        let found = outcome(alloc, row, opts, &pushes[first..], &pushes[..first])?;
        outcomes.push(found)?;
    }
    pushes.reverse();
    let found = outcome(alloc, row, opts, pushes.as_slice(), &[])?;
    outcomes.push(found)?;
    outcomes.sort()?;
    outcomes.dedup();
    joined(alloc, outcomes.as_slice())
}

fn joined(alloc: Global, texts: &[String]) -> Result<String> {
    let mut all = String::new(alloc);
    for text in texts {
        if !all.is_empty() {
            all.push_str(" | ")?;
        }
        all.push_str(text.as_str())?;
    }
    Ok(all)
}

/// What comes of these pushes.
fn outcome(alloc: Global, row: Row, opts: &OpOpts, first: &[Push], later: &[Push]) -> Result<String>
    requires { Allows row opts.now }
{
    let outs = opts.outs.max(1);
    let mut state = OpState::begin(alloc, row, opts)?;
    let mut emits = Vec::new(alloc);
    for pushes in [first, later] {
        if let Some(fault) = fed(alloc, &mut state, pushes, &mut emits, outs)? {
            return Ok(fault);
        }
    }
    closed(alloc, &mut state, emits, outs)
}

/// Pushes each item. Gives the text of the fault that ends the run, if there is one.
fn fed(
    alloc: Global,
    state: &mut OpState,
    pushes: &[Push],
    emits: &mut Vec<(u32, Value)>,
    outs: u32,
) -> Result<Option<String>> {
    for push in pushes {
        match pushed(state, push) {
            Ok(more) => add(emits, more, outs)?,
            Err(fault) => return Ok(Some(shown_fault(alloc, &fault, "")?)),
        }
    }
    Ok(None)
}

/// What the close adds to these emits, or its fault.
fn closed(
    alloc: Global,
    state: &mut OpState,
    mut emits: Vec<(u32, Value)>,
    outs: u32,
) -> Result<String> {
    match state.close() {
        Ok(more) => {
            add(&mut emits, more, outs)?;
            shown(alloc, emits.as_slice(), outs)
        }
        Err(fault) => shown_fault(alloc, &fault, " at the close"),
    }
}

/// What a push gives. Where there is no room for it, `Mem`.
fn pushed(state: &mut OpState, push: &Push) -> Result<Vec<(u32, Value)>, OpFault> {
    if !state.has_room() {
        return Err(OpFault::Mem);
    }
    let item = push.item.copy()?;
    let answer = push.answer.copy()?;
    state.push(push.port, item, answer)
}

/// Adds emits to so many outputs.
fn add(emits: &mut Vec<(u32, Value)>, more: Vec<(u32, Value)>, outs: u32) -> Result<()> {
    for emit in more {
        if emit.0 >= outs {
            bail!("an emit to no output");
        }
        emits.push(emit)?;
    }
    Ok(())
}

/// The values at each output, in the order of values.
fn shown(alloc: Global, emits: &[(u32, Value)], outs: u32) -> Result<String> {
    let mut text = String::new(alloc);
    for out in 0..outs {
        if out > 0 {
            text.push_str(", ")?;
        }
        let values = shown_output(alloc, emits, out)?;
        text.push_str(values.as_str())?;
    }
    Ok(text)
}

fn shown_output(alloc: Global, emits: &[(u32, Value)], out: u32) -> Result<Txt, Mem> {
    let mut values = Vec::new(alloc);
    for (to, value) in emits {
        if *to == out {
            values.push(value.copy()?)?;
        }
    }
    let values = sorted(Vals::of(values))?;
    text_of(alloc, &Value::List(values))
}

/// The name of a copy of a fault, with what the fault holds.
fn shown_fault(alloc: Global, fault: &OpFault, place: &str) -> Result<String> {
    let name = fault.copy()?;
    let held = held(alloc, fault)?;
    let held = held.as_str();
    Ok(format!(in alloc; "{name} on {held}{place}")?)
}

fn held(alloc: Global, fault: &OpFault) -> Result<Txt> {
    match fault {
        OpFault::DuplicateKey { key } => Ok(text_of(alloc, key)?),
        OpFault::NotATuple { item } | OpFault::NotANumber { item } | OpFault::TooDeep { item } =>
            Ok(text_of(alloc, item)?),
        OpFault::Overflow { total } => Ok(Txt::of(format!(in alloc; "{total}")?)),
        OpFault::Mem => bail!("want of memory"),
    }
}
