//! Times operations on a list of numbers.

use crate::took;
use anyhow::{Result, bail};
use nf_value::{Vals, Value};
use std::rt::Clock;
use std::time::Instant;

pub(crate) fn copy<R: Clock + AllocGlobal + Print + Eprint>(rt: &R, list: &Vals) -> Result<()> {
    let start = Instant::now(rt)?;
    let copied = list.copy()?;
    took(rt, start)?;
    let len = copied.len();
    println!(rt; "copied {len}")?;
    Ok(())
}

pub(crate) fn compare<R: Clock + AllocGlobal + Print + Eprint>(rt: &R, list: Vals) -> Result<()> {
    let other = Value::List(list.copy()?);
    let list = Value::List(list);
    let start = Instant::now(rt)?;
    let same = list == other;
    took(rt, start)?;
    println!(rt; "same {same}")?;
    Ok(())
}

pub(crate) fn sort<R: Clock + AllocGlobal + Print + Eprint>(rt: &R, list: Vals) -> Result<()> {
    let start = Instant::now(rt)?;
    let sorted = nf_bag::sorted(list)?;
    took(rt, start)?;
    let len = sorted.len();
    println!(rt; "sorted {len}")?;
    Ok(())
}

pub(crate) fn encode<R: Clock + AllocGlobal + Print + Eprint>(rt: &R, list: Vals) -> Result<()> {
    let list = Value::List(list);
    let start = Instant::now(rt)?;
    let code = nf_codec::encode(rt.alloc(), &list)?;
    took(rt, start)?;
    let len = code.len();
    println!(rt; "encoded {len}")?;
    Ok(())
}

pub(crate) fn decode<R: Clock + AllocGlobal + Print + Eprint>(rt: &R, list: Vals) -> Result<()> {
    let code = nf_codec::encode(rt.alloc(), &Value::List(list))?;
    let start = Instant::now(rt)?;
    let decoded = nf_codec::decode(rt.alloc(), &code);
    took(rt, start)?;
    let Ok((_, len)) = decoded else {
        bail!("the code can't be read");
    };
    println!(rt; "decoded {len}")?;
    Ok(())
}
