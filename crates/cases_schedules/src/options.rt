//! The options of a row.

use crate::values::value;
use anyhow::{Result, bail};
use nf_bag::{OpOpts, Total};
use std::alloc::Global;

/// The options that a text names. Without them there is no key, no remainder, no sorting and no initial value, `collect` opens lists, a total is the
/// sum, and there is no label.
pub(crate) fn options(alloc: Global, text: &str) -> Result<OpOpts> {
    let mut opts = OpOpts {
        by: None,
        remainder: false,
        sort: false,
        flat: true,
        start: None,
        total: Total::Sum,
        outs: 0,
    };
    if text.is_empty() {
        return Ok(opts);
    }
    for option in text.split(',') {
        match option.trim().split_once(": ") {
            Some((name, text)) => set(alloc, &mut opts, name, text)?,
            None => bail!("{option}: no option"),
        }
    }
    Ok(opts)
}

fn set(alloc: Global, opts: &mut OpOpts, name: &str, text: &str) -> Result<()> {
    match name {
        "by" => opts.by = Some(text.parse::<u32>()?),
        "remainder" => opts.remainder = text.parse::<bool>()?,
        "sort" => opts.sort = text.parse::<bool>()?,
        "flat" => opts.flat = text.parse::<bool>()?,
        "start" => opts.start = Some(value(alloc, text)?),
        "total" => opts.total = total(text)?,
        "outs" => opts.outs = text.parse::<u32>()?,
        _ => bail!("{name}: no option"),
    }
    Ok(())
}

fn total(name: &str) -> Result<Total> {
    match name {
        "sum" => Ok(Total::Sum),
        "least" => Ok(Total::Least),
        "greatest" => Ok(Total::Greatest),
        "all" => Ok(Total::All),
        "any" => Ok(Total::Any),
        _ => bail!("{name}: no total"),
    }
}
