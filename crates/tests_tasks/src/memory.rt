//! The lane over a host in memory.

use crate::tasks::{Ending, WORK, child_of, digest_of, end_of, job_of, report_of, store_at, txt};
use nf_host::{Digested, Host, HostRefusal, MemHost, SharedHost, Whole, read_whole};
use nf_job::{Job, Report};
use nf_lane::{Lane, Look};
use nf_shell::{
    Damage, ShellLane, found_digest, has_digest, is_in_store, is_output, job_folder, store_file,
    stored_path,
};
use nf_value::{Digest, Mem};
use std::alloc::Global;
use std::sync::Wait;
use std::test::Fail;

/// A script that reads two files and leaves two others.
const SCRIPT: &str = "cat one two | tee left.txt; date > right.txt";

/// What `.command.sh` has of it.
const SCRIPT_LINE: &str = "cat one two | tee left.txt; date > right.txt\n";

/// The files that it reads.
const STAGED: &[(&str, &str)] = &[("one", "1"), ("two", "2")];

/// What its child writes.
const WRITTEN: &[(&str, &str)] = &[
    (".command.out", "12"),
    (".command.err", ""),
    (".hidden.txt", "h"),
    ("left.txt", "12"),
    ("right.txt", "today"),
];

/// The patterns of its outputs, and the files that each finds: the two that it left, a staged file by its name, none.
const PATTERNS: &[&str] = &["*.txt", "one", "*e"];

const FOUND: &[&[(&str, &str)]] = &[
    &[("left.txt", "12"), ("right.txt", "today")],
    &[("one", "1")],
    &[],
];

/// The texts of all files that the store may have.
const TEXTS: &[&str] = &["1", "2", "12", "today"];

fn task(alloc: Global) -> Result<Job, Mem> {
    job_of(alloc, SCRIPT, STAGED, PATTERNS)
}

/// A host whose file store has the staged files, and whose child does what the script does.
fn host_of(alloc: Global) -> Result<MemHost, HostRefusal> {
    let mut host = MemHost::new(alloc);
    for (_, text) in STAGED.iter().copied() {
        store_at(alloc, &mut host, &digest_of(text), text)?;
    }
    let child = child_of(alloc, 3, WRITTEN)?;
    host.add_child(SCRIPT_LINE.as_bytes(), child)?;
    Ok(host)
}

/// How the task ends on a lane over a host, and how often the lane failed.
fn end_over<H: Host + Drop>(alloc: Global, host: H) -> Result<(Ending, u64), Mem> {
    let job = task(alloc)?;
    let work = txt(alloc, WORK)?;
    let mut lane = ShellLane::new(alloc, host, work);
    let end = end_of(alloc, &mut lane, &job, 3, "12", FOUND);
    Ok((end, lane.host().faults()))
}

#[test]
fn a_task_in_memory(rt: HostRuntime) -> Result<(), Fail> {
    let alloc = rt.alloc();
    let (end, faults) = end_over(alloc, host_of(alloc)?)?;
    assert!(rt; matches!(end, Ending::Due));
    assert_eq!(rt; faults, 0);
    Ok(())
}

/// A host as above, one of whose calls fails: the one with this number after the store was filled.
fn failing_host(alloc: Global, call: u64) -> Result<MemHost, HostRefusal> {
    let mut host = host_of(alloc)?;
    let first = host.calls();
    host.fail_at(first.saturating_add(call))?;
    Ok(host)
}

/// Whether a file of this text stands whole in its place in the file store, or not at all.
fn is_whole<H: Host>(alloc: Global, host: &mut H, text: &str) -> Result<bool, HostRefusal> {
    let path = stored_path(alloc, WORK, &digest_of(text))?;
    match read_whole(alloc, host, path.as_str(), 1024)? {
        Whole::Bytes(bytes) => Ok(bytes.items() == text.as_bytes()),
        Whole::Absent => Ok(true),
        Whole::TooLong => Ok(false),
    }
}

/// The same of each file that the store may have.
fn are_whole<H: Host>(alloc: Global, host: &mut H) -> Result<bool, HostRefusal> {
    for text in TEXTS.iter().copied() {
        if !is_whole(alloc, host, text)? {
            return Ok(false);
        }
    }
    Ok(true)
}

/// Whether a run or the look after it, one of whose calls fails, fails and counts that, and leaves whole files alone in the store.
fn fails_at<R: Wait + Copy + Drop>(rt: R, alloc: Global, call: u64) -> Result<bool, HostRefusal> {
    let host = failing_host(alloc, call)?;
    let mut handles = SharedHost::handles(rt, alloc, host, 2)?;
    let (Some(theirs), Some(mut ours)) = (handles.pop(), handles.pop()) else {
        return Ok(false);
    };
    let (end, faults) = end_over(alloc, theirs)?;
    Ok(matches!(end, Ending::Failed) && faults == 1 && are_whole(alloc, &mut ours)?)
}

/// The calls of a run and a look: the folder is cleared and made (2), the script and the input are written (4), each staged file
/// is read and written (6), the child (1), its folder, if it is gone, and its status (3), its output (1), the names (1), each output
/// is read, written and put into its place in the store (15). Then each of the three is read there (3).
const CALLS: u64 = 36;

#[test]
fn each_call_fails_in_turn(rt: HostRuntime) -> Result<(), Fail> {
    let alloc = rt.alloc();
    for call in 0..=CALLS {
        let fails = fails_at(&rt, alloc, call)?;
        assert_eq!(rt; fails, call < CALLS, "{call}");
    }
    Ok(())
}

/// Whether this is the damage of the file `two`, in whose place a file of this digest was found, or none.
fn is_of_two(damage: &Damage, found: Option<Digest>) -> bool {
    damage.name.as_str() == "two"
        && damage.due.0 == digest_of("2").0
        && are_same(damage.found, found)
}

fn are_same(first: Option<Digest>, second: Option<Digest>) -> bool {
    match first {
        Some(digest) => is_of(second, digest),
        None => second.is_none(),
    }
}

fn is_of(found: Option<Digest>, digest: Digest) -> bool {
    match found {
        Some(found) => found.0 == digest.0,
        None => false,
    }
}

/// Whether these are the damages of the file `two` alone.
fn are_of_two(damages: &[Damage], found: Option<Digest>) -> bool {
    match damages {
        [damage] => is_of_two(damage, found),
        _ => false,
    }
}

/// Whether a run over a host whose second staged file is damaged fails, and the lane tells what it found in its place.
fn tells_the_damage<H: Host + Drop>(
    alloc: Global,
    host: H,
    found: Option<Digest>,
) -> Result<bool, Mem> {
    let job = task(alloc)?;
    let work = txt(alloc, WORK)?;
    let mut lane = ShellLane::new(alloc, host, work);
    let end = end_of(alloc, &mut lane, &job, 3, "12", FOUND);
    Ok(tells_of_two(&lane, end, found))
}

fn tells_of_two<H: Host + Drop>(lane: &ShellLane<H>, end: Ending, found: Option<Digest>) -> bool {
    matches!(end, Ending::Failed) && lane.faults() == 1 && are_of_two(lane.damages(), found)
}

#[test]
fn a_damaged_file(rt: HostRuntime) -> Result<(), Fail> {
    let alloc = rt.alloc();
    let mut host = host_of(alloc)?;
    store_at(alloc, &mut host, &digest_of("2"), "3")?;
    let tells = tells_the_damage(alloc, host, Some(digest_of("3")))?;
    assert!(rt; tells);
    Ok(())
}

#[test]
fn a_lost_file(rt: HostRuntime) -> Result<(), Fail> {
    let alloc = rt.alloc();
    let mut host = MemHost::new(alloc);
    store_at(alloc, &mut host, &digest_of("1"), "1")?;
    let tells = tells_the_damage(alloc, host, None)?;
    assert!(rt; tells);
    Ok(())
}

/// The name of the file of a report that a lane misses, if it misses one.
fn is_missing<L: Lane>(alloc: Global, lane: &mut L, report: &Report, name: &str) -> bool {
    match lane.look(alloc, report) {
        Ok(Look::Gone { name: missing }) => missing.as_str() == name,
        Ok(Look::There(_)) | Err(_) => false,
    }
}

#[test]
fn a_look_for_a_lost_file(rt: HostRuntime) -> Result<(), Fail> {
    let alloc = rt.alloc();
    let report = report_of(alloc, &[("one", "1"), ("other", "3"), ("two", "2")])?;
    let work = txt(alloc, WORK)?;
    let mut lane = ShellLane::new(alloc, host_of(alloc)?, work);
    let missing = is_missing(alloc, &mut lane, &report, "other");
    assert!(rt; missing);
    Ok(())
}

/// The path of a file before it is stored, and the one at which it is copied first.
const NEW: &str = "new";

const SCRATCH: &str = "new.part";

#[test]
fn a_file_is_stored(rt: HostRuntime) -> Result<(), Fail> {
    let alloc = rt.alloc();
    let mut host = MemHost::new(alloc);
    host.put(NEW, b"today")?;
    let stored = store_file(alloc, &mut host, WORK, NEW, SCRATCH)?;
    assert_eq!(rt; stored.map_or(0, |stored| stored.len), 5);
    let there = is_in_store(alloc, &mut host, WORK, &digest_of("today"))?;
    assert!(rt; there);
    let none = store_file(alloc, &mut host, WORK, SCRATCH, NEW)?;
    assert!(rt; none.is_none());
    Ok(())
}

#[test]
fn what_is_found(rt: HostRuntime) {
    let due = digest_of("1");
    let whole = Digested::Whole {
        digest: due,
        len: 1,
    };
    assert!(rt; has_digest(whole, &due));
    assert!(rt; found_digest(whole).is_some());
}

/// The places of the digest of no bytes (FIPS 180-4).
const FOLDER: &str = "w/e3/b0c44298fc1c149afbf4c8996fb92427ae41e4649b934ca495991b7852b855";

const STORED: &str = "w/.files/e3/b0c44298fc1c149afbf4c8996fb92427ae41e4649b934ca495991b7852b855";

#[test]
fn places(rt: HostRuntime) -> Result<(), Fail> {
    let alloc = rt.alloc();
    let folder = job_folder(alloc, "w", &digest_of(""))?;
    let stored = stored_path(alloc, "w", &digest_of(""))?;
    assert_eq!(rt; folder.as_str(), FOLDER);
    assert_eq!(rt; stored.as_str(), STORED);
    Ok(())
}

#[test]
fn outputs(rt: HostRuntime) {
    assert!(rt; is_output("*.txt", &[], "a.txt"));
    assert!(rt; !is_output("*.txt", &[], ".a.txt"));
}
