//! Whole files of a host in memory.

ghost use Rattle.std.specs.Prelude.{IfOk, codes};
ghost use Rattle.nf_host.specs.MemHost.{files_of};
ghost use Rattle.nf_host.specs.Whole.{IsWhole};

use crate::values::two;
use anyhow::{Result, bail};
use nf_host::{Host, HostRefusal, MemHost, Whole, read_whole};
use std::alloc::{AllocError, Global};

/// What a read of the whole file gives, within a limit, and whether the host then fails: `LENGTH | LIMIT | CALL`. The file has that many bytes, and is
/// absent where the length is `none`. The host fails at that call, counted from 0, so it fails next where the read took that many calls.
pub(crate) fn file(alloc: Global, parts: &str) -> Result<String> {
    let (len, parts) = two(parts)?;
    let (limit, call) = two(parts)?;
    let limit = limit.parse::<u64>()?;
    let call = call.parse::<u64>()?;
    match len {
        "none" => absent_file(alloc, limit, call),
        len => long_file(alloc, len.parse::<usize>()?, limit, call),
    }
}

fn absent_file(alloc: Global, limit: u64, call: u64) -> Result<String> {
    let mut host = MemHost::new(alloc);
    host.fail_at(call)?;
    read_then_next(alloc, &mut host, &[], limit)
}

fn long_file(alloc: Global, len: usize, limit: u64, call: u64) -> Result<String> {
    let bytes = counted(alloc, len)?;
    let mut host = MemHost::new(alloc);
    host.put("file", &bytes)?;
    host.fail_at(call)?;
    read_then_next(alloc, &mut host, &bytes, limit)
}

/// So many bytes, which repeat after 251.
fn counted(alloc: Global, len: usize) -> Result<Vec<u8>, AllocError> {
    let mut bytes = Vec::with_capacity(alloc, len)?;
    for i in 0..len {
        bytes.push((i % 251) as u8)?;
    }
    Ok(bytes)
}

fn read_then_next(alloc: Global, host: &mut MemHost, bytes: &[u8], limit: u64) -> Result<String> {
    let whole = whole_in_memory(alloc, host, limit)?;
    let shown = shown(&whole, bytes);
    let next = next(alloc, host)?;
    Ok(format!(in alloc; "{shown}, then {next}")?)
}

// A host in memory tells its files, so that a caller knows the whole answer.
fn whole_in_memory(alloc: Global, host: &mut MemHost, limit: u64) -> Result<Whole, HostRefusal>
    ensures { IfOk result (IsWhole (files_of host.old (codes "file")) limit) }
{
    read_whole(alloc, host, "file", limit)
}

fn shown(whole: &Whole, want: &[u8]) -> &'static str {
    match whole {
        Whole::Absent => "absent",
        Whole::TooLong => "too long",
        Whole::Bytes(bytes) if bytes.items() == want => "all its bytes",
        Whole::Bytes(_) => "other bytes",
    }
}

/// Whether the next read fails.
fn next(alloc: Global, host: &mut MemHost) -> Result<&'static str> {
    match host.read_at(alloc, "file", 0) {
        Ok(_) => Ok("a piece"),
        Err(HostRefusal::Failed) => Ok("a failure"),
        Err(HostRefusal::Mem) => bail!("no memory"),
    }
}
