//! Times operators on items whose keys all differ.

use crate::took;
use anyhow::{Result, bail};
use nf_bag::{OpFault, OpOpts, Total};
use nf_opjoin::JoinState;
use nf_opstream::UniqueState;
use nf_value::{Mem, Vals, Value};
use std::alloc::Global;
use std::rt::Clock;
use std::time::Instant;

fn options() -> OpOpts {
    OpOpts {
        by: None,
        remainder: true,
        sort: false,
        flat: true,
        start: None,
        total: Total::Sum,
        outs: 0,
    }
}

/// A key for each place. Keys differ, and within each block of 1,024 they come in no order.
fn key(place: u32) -> Value {
    let block = place / 1024 * 1024;
    let within = place.wrapping_mul(389) % 1024;
    Value::Int(i64::from(block) + i64::from(within))
}

fn pair(alloc: Global, place: u32) -> Result<Value, Mem> {
    let mut items = Vec::new(alloc);
    items.push(key(place))?;
    items.push(Value::Int(i64::from(place)))?;
    Ok(Value::List(Vals::of(items)))
}

pub fn unique<R: Clock + AllocGlobal + Print + Eprint>(rt: &R, count: u32) -> Result<()> {
    let start = Instant::now(rt)?;
    let emitted = pushed_unique(rt.alloc(), count);
    took(rt, start)?;
    match emitted {
        Ok(emitted) => println!(rt; "unique {emitted}")?,
        Err(fault) => bail!("{fault}"),
    }
    Ok(())
}

pub fn join<R: Clock + AllocGlobal + Print + Eprint>(rt: &R, count: u32) -> Result<()> {
    let start = Instant::now(rt)?;
    let emitted = pushed_join(rt.alloc(), count);
    took(rt, start)?;
    match emitted {
        Ok(emitted) => println!(rt; "joined {emitted}")?,
        Err(fault) => bail!("{fault}"),
    }
    Ok(())
}

fn pushed_unique(alloc: Global, count: u32) -> Result<u64, OpFault> {
    let mut state = UniqueState::begin(alloc, &options())?;
    let mut emitted = 0u64;
    for place in 0..count {
        let emits = state.push(0, key(place), Value::Null)?;
        emitted = emitted.wrapping_add(emits.len() as u64);
    }
    let emits = state.close()?;
    Ok(emitted.wrapping_add(emits.len() as u64))
}

fn pushed_join(alloc: Global, count: u32) -> Result<u64, OpFault> {
    let mut state = JoinState::begin(alloc, &options())?;
    let mut emitted = 0u64;
    for place in 0..count {
        let emits = state.push(0, pair(alloc, place)?, Value::Null)?;
        emitted = emitted.wrapping_add(emits.len() as u64);
    }
    for place in (0..count).rev() {
        let emits = state.push(1, pair(alloc, place)?, Value::Null)?;
        emitted = emitted.wrapping_add(emits.len() as u64);
    }
    let emits = state.close()?;
    Ok(emitted.wrapping_add(emits.len() as u64))
}
