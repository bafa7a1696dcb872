//! Reports of views and targets.

use crate::parts::{hex_of, views};
use anyhow::{Result, bail};
use nf_publish::{Clash, PublishFault, report};
use nf_tasks::Target;
use std::alloc::Global;

/// The report of these views and targets, or the first clash.
pub(crate) fn shown(alloc: Global, row: &str, targets: &[Target]) -> Result<String> {
    let views = views(alloc, row)?;
    match report(alloc, &views, targets) {
        Ok(text) => {
            let text = text.as_str();
            Ok(format!(in alloc; "{text:?}")?)
        }
        Err(PublishFault::Clash(clash)) => shown_clash(alloc, &clash),
        Err(PublishFault::Mem) => bail!("want of memory"),
    }
}

fn shown_clash(alloc: Global, clash: &Clash) -> Result<String> {
    let target = clash.target.as_str();
    let first = hex_of(alloc, &clash.first)?;
    let second = hex_of(alloc, &clash.second)?;
    Ok(format!(in alloc; "PublishClash {target} {first} {second}")?)
}
