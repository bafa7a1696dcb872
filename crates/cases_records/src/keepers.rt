//! Keepers in memory, one of which fails, and keepers in files.

use crate::jobs::{in_words, printing};
use anyhow::{Result, bail};
use nf_host::{Host, MemHost, Whole, read_whole};
use nf_job::Job;
use nf_keeper::{FileKeeper, FuseKeeper, Keeper, KeeperRefusal, MemKeeper, RECORD_LIMIT};
use nf_record::lookup;
use nf_value::{Bytes, Digest, Txt};
use std::alloc::Global;

/// Puts bytes at the key of the task's first attempt, and gets them, over a keeper that passes so many calls and leaves so many bytes of a put
/// that fails: `CALLS | FRONT | BYTES`, with `-` for no front. Tells both answers, the count of failures, and what is then found for the job.
pub(crate) fn putting(alloc: Global, parts: &str) -> Result<String> {
    let parts = parts.split('|').collect::<Vec<&str>>(alloc)?;
    let [calls, front, bytes] = parts.as_slice() else {
        bail!("not three parts");
    };
    let calls = calls.trim().parse::<u64>()?;
    let front = front_of(front.trim())?;
    let job = printing(alloc, 1)?;
    let mut keeper = FuseKeeper::new(MemKeeper::new(alloc), calls, front);
    let tried = tried(alloc, &mut keeper, job.key(), bytes.trim())?;
    let left = left(alloc, keeper.into_inner(), &job)?;
    Ok(format!(in alloc; "{tried}; {left}")?)
}

/// Where keepers have their files.
const FOLDER: &str = "work/.cache";

/// Puts bytes at the key of the task's first attempt, and gets them, over a keeper in files whose host fails at one call: `CALL | OLD | BYTES`, with
/// `-` for no call, and for nothing that was put before. Tells both answers, the count of failures, what another keeper of the folder then finds
/// for the job, and the file.
pub(crate) fn filing(alloc: Global, parts: &str) -> Result<String> {
    let parts = parts.split('|').collect::<Vec<&str>>(alloc)?;
    let [call, old, bytes] = parts.as_slice() else {
        bail!("not three parts");
    };
    let host = failing_host(alloc, call.trim())?;
    over_files(alloc, host, old.trim(), bytes.trim())
}

/// The same over any host.
fn over_files<H: Host + Drop>(alloc: Global, host: H, old: &str, bytes: &str) -> Result<String> {
    let job = printing(alloc, 1)?;
    let keeper = with_old(in_files(alloc, host)?, job.key(), old)?;
    put_and_found(alloc, keeper, &job, bytes)
}

fn put_and_found<H: Host + Drop>(
    alloc: Global,
    keeper: FileKeeper<H>,
    job: &Job,
    bytes: &str,
) -> Result<String> {
    let mut keeper = keeper;
    let tried = tried(alloc, &mut keeper, job.key(), bytes)?;
    let found = found_later(alloc, keeper.into_host(), job)?;
    Ok(format!(in alloc; "{tried}; {found}")?)
}

/// What another keeper of the folder finds for the job, and the file.
fn found_later<H: Host + Drop>(alloc: Global, host: H, job: &Job) -> Result<String> {
    let mut host = host;
    let file = file_of(alloc, &mut host, job.key())?;
    let left = left(alloc, in_files(alloc, host)?, job)?;
    Ok(format!(in alloc; "{left}; {file}")?)
}

/// Puts that many bytes more than a record may have over a keeper in files, and gets them: `MORE`.
pub(crate) fn filing_long(alloc: Global, more: &str) -> Result<String> {
    let len = RECORD_LIMIT as usize + more.trim().parse::<u16>()? as usize;
    let text = "x".repeat(alloc, len)?;
    long_over(alloc, MemHost::new(alloc), text.as_str())
}

fn long_over<H: Host + Drop>(alloc: Global, host: H, text: &str) -> Result<String> {
    let job = printing(alloc, 1)?;
    let mut keeper = in_files(alloc, host)?;
    tried(alloc, &mut keeper, job.key(), text)
}

fn failing_host(alloc: Global, call: &str) -> Result<MemHost> {
    let mut host = MemHost::new(alloc);
    if call != "-" {
        host.fail_at(call.parse::<u64>()?)?;
    }
    Ok(host)
}

fn in_files<H: Host + Drop>(alloc: Global, host: H) -> Result<FileKeeper<H>> {
    Ok(FileKeeper::new(alloc, host, Txt::of(String::from_str(alloc, FOLDER)?)))
}

fn with_old<K: Keeper + Drop>(keeper: K, key: &Digest, old: &str) -> Result<K> {
    let mut keeper = keeper;
    if old != "-" {
        keeper.put(key, old.as_bytes())?;
    }
    Ok(keeper)
}

/// The file of a key, and how many bytes it has.
fn file_of<H: Host>(alloc: Global, host: &mut H, key: &Digest) -> Result<String> {
    let name = hex::encode(alloc, &key.0[..])?;
    let path = format!(in alloc; "{FOLDER}/{name}")?;
    match read_whole(alloc, host, path.as_str(), RECORD_LIMIT)? {
        Whole::Absent => Ok(String::from_str(alloc, "no file")?),
        Whole::TooLong => bail!("{path} is too long"),
        Whole::Bytes(bytes) => {
            let len = bytes.items().len();
            Ok(format!(in alloc; "{len} bytes in {path}")?)
        }
    }
}

fn front_of(front: &str) -> Result<Option<usize>> {
    if front == "-" {
        return Ok(None);
    }
    Ok(Some(front.parse::<usize>()?))
}

/// A put and then a get: their answers, and how often the keeper has failed.
fn tried<K: Keeper>(alloc: Global, keeper: &mut K, key: &Digest, bytes: &str) -> Result<String> {
    let put = match keeper.put(key, bytes.as_bytes()) {
        Ok(()) => "put",
        Err(KeeperRefusal::Failed) => "put failed",
        Err(KeeperRefusal::Mem) => bail!("no memory"),
    };
    let got = match keeper.get(alloc, key) {
        Ok(held) => is_held(&held),
        Err(KeeperRefusal::Failed) => "get failed",
        Err(KeeperRefusal::Mem) => bail!("no memory"),
    };
    let failures = keeper.faults();
    Ok(format!(in alloc; "{put}, {got}, failures {failures}")?)
}

fn is_held(held: &Option<Bytes>) -> &'static str {
    match held {
        Some(_) => "got",
        None => "nothing held",
    }
}

/// How many bytes the keeper holds at the job's key, and the report that they have for the job.
fn left<K: Keeper + Drop>(alloc: Global, mut keeper: K, job: &Job) -> Result<String> {
    let Some(held) = keeper.get(alloc, job.key())? else {
        return Ok(String::from_str(alloc, "nothing left")?);
    };
    let found = lookup(alloc, Some(held.items()), None, job)?;
    let len = held.items().len();
    let found = in_words(alloc, &found)?;
    Ok(format!(in alloc; "{len} bytes left, {found}")?)
}
