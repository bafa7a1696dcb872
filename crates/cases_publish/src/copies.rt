//! Copies of targets from a store.

use crate::parts::{digest, hex_of, sides};
use anyhow::{Result, bail};
use nf_host::{Host, HostRefusal, MemHost, Whole, read_whole};
use nf_publish::{CopyRefusal, copy_out};
use nf_shell::stored_path;
use nf_tasks::Target;
use nf_value::Digest;
use std::alloc::Global;

/// The work folder.
const WORK: &str = "work";

/// What each target holds after the copies, or why they ended.
pub(crate) fn shown(alloc: Global, row: &str, targets: &[Target]) -> Result<String> {
    let mut host = stored(alloc, row)?;
    match copy_out(alloc, &mut host, WORK, targets) {
        Ok(()) => held(alloc, &mut host, targets),
        Err(refusal) => refused(alloc, refusal),
    }
}

/// A host whose store holds these files, with commas between them.
fn stored(alloc: Global, row: &str) -> Result<MemHost> {
    let mut host = MemHost::new(alloc);
    if row.is_empty() {
        return Ok(host);
    }
    for part in row.split(',') {
        store(alloc, &mut host, part)?;
    }
    Ok(host)
}

fn store(alloc: Global, host: &mut MemHost, part: &str) -> Result<()> {
    let (text, bytes) = sides(part)?;
    let path = stored_path(alloc, WORK, &digest(text))?;
    host.put(path.as_str(), bytes.as_bytes())?;
    Ok(())
}

fn held(alloc: Global, host: &mut MemHost, targets: &[Target]) -> Result<String> {
    let mut shown = String::new(alloc);
    for target in targets {
        if !shown.is_empty() {
            shown.push_str(", ")?;
        }
        push_held(alloc, &mut shown, host, target.name.as_str())?;
    }
    Ok(shown)
}

fn push_held(alloc: Global, shown: &mut String, host: &mut MemHost, path: &str) -> Result<()> {
    let Whole::Bytes(bytes) = read_whole(alloc, host, path, 1_000)? else {
        bail!("{path}: no file");
    };
    let Ok(text) = str::from_utf8(bytes.items()) else {
        bail!("{path}: no text");
    };
    write!(shown, "{path} {text:?}")?;
    Ok(())
}

fn refused(alloc: Global, refusal: CopyRefusal) -> Result<String> {
    match refusal {
        CopyRefusal::Damaged { due, found } => damaged(alloc, &due, &found),
        CopyRefusal::Host(HostRefusal::Failed) => Ok(String::from_str(alloc, "failed")?),
        CopyRefusal::Host(HostRefusal::Mem) => bail!("want of memory"),
    }
}

fn damaged(alloc: Global, due: &Digest, found: &Option<Digest>) -> Result<String> {
    let due = hex_of(alloc, due)?;
    match found {
        Some(found) => {
            let found = hex_of(alloc, found)?;
            Ok(format!(in alloc; "damaged, due {due}, found {found}")?)
        }
        None => Ok(format!(in alloc; "damaged, due {due}, found none")?),
    }
}

/// How many calls of the host the copies make, each of which ends them if it fails.
pub(crate) fn shown_failing(alloc: Global, row: &str, targets: &[Target]) -> Result<String> {
    for call in 0..100u64 {
        if !fails_at(alloc, row, targets, call)? {
            return Ok(format!(in alloc; "{call} calls")?);
        }
    }
    bail!("more than 100 calls")
}

/// Whether the copies fail if the host fails at this call.
fn fails_at(alloc: Global, row: &str, targets: &[Target], call: u64) -> Result<bool> {
    let mut host = stored(alloc, row)?;
    host.fail_at(call)?;
    match copy_out(alloc, &mut host, WORK, targets) {
        Ok(()) => Ok(false),
        Err(CopyRefusal::Host(HostRefusal::Failed)) => Ok(host.faults() == 1),
        Err(_) => bail!("another refusal"),
    }
}
