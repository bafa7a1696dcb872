//! What lanes, a keeper and a sink tell of a run.

use nf_host::{MemSink, Sink};
use nf_job::{Captured, FileRefs, Found, Job, JobParts, Report, Txts, make_job};
use nf_keeper::{Keeper, MemKeeper};
use nf_lane::{Lane, Table, TableLane};
use nf_record::{Form, Record, record_text};
use nf_value::{Digest, FileRef, Mem, Txt};
use nf_watched::{WatchedKeeper, WatchedLane, WatchedSink, Watcher};
use std::alloc::Global;
use std::test::Fail;

/// The digest of the file that a task left.
const DIGEST: Digest = Digest([7u8; 32]);

fn txt(alloc: Global, text: &str) -> Result<Txt, Mem> {
    Ok(Txt::of(String::from_str(alloc, text)?))
}

/// A first attempt at a task of ALIGN.
fn job(alloc: Global) -> Result<Job, Mem> {
    let parts = JobParts {
        process: txt(alloc, "ALIGN")?,
        script: txt(alloc, "true")?,
        inputs: txt(alloc, "l0:")?,
        stdin: None,
        staged: FileRefs::of(Vec::new(alloc)),
        patterns: Txts::of(Vec::new(alloc)),
        wants_stdout: false,
        n: 0,
        attempt: 1,
    };
    make_job(alloc, parts)
}

/// A report of a task that left one file.
fn report(alloc: Global) -> Result<Report, Mem> {
    let mut files = Vec::new(alloc);
    files.push(FileRef {
        name: txt(alloc, "a.txt")?,
        digest: DIGEST,
        len: 1,
    })?;
    let mut found = Vec::new(alloc);
    found.push(FileRefs::of(files))?;
    Ok(Report {
        exit: 0,
        captured: Captured::None,
        found: Found::of(found),
    })
}

/// The bytes of the record of the job with this report.
fn record(alloc: Global, job: &Job, report: &Report) -> Result<Vec<u8>, Mem> {
    let record = Record {
        form: Form::Current,
        job: job.text().copy()?,
        report: report.copy()?,
    };
    record_text(alloc, &record)
}

fn lane(alloc: Global) -> TableLane {
    TableLane::new(Table::of(Vec::new(alloc)), Vec::new(alloc))
}

#[test]
fn a_run_is_counted(rt: HostRuntime) -> Result<(), Fail> {
    let alloc = rt.alloc();
    let watcher = Watcher::new(&rt, true);
    let table = TableLane::new(Table::of(Vec::new(alloc)), Vec::new(alloc));
    let mut lane = WatchedLane::new(table, watcher.again());
    let done = lane.run(alloc, &job(alloc)?);
    assert!(rt; done.is_ok());
    assert_eq!(rt; lane.runs(), 1);
    assert_eq!(rt; lane.faults(), 0);
    let line = watcher.line()?.ok_or("nobody watches")?;
    assert_eq!(rt; line.as_str(), "ALIGN: 1 done, 0 cached, 0 running. ");
    Ok(())
}

#[test]
fn a_report_is_counted_whose_files_are_there(rt: HostRuntime) -> Result<(), Fail> {
    let alloc = rt.alloc();
    let watcher = Watcher::new(&rt, true);
    let (job, report) = (job(alloc)?, report(alloc)?);
    let mut keeper = WatchedKeeper::new(MemKeeper::new(alloc), watcher.again());
    keeper.put(job.key(), record(alloc, &job, &report)?.as_slice())?;
    assert!(rt; keeper.get(alloc, job.key())?.is_some());
    let mut table = lane(alloc);
    table.store(DIGEST)?;
    let mut lane = WatchedLane::new(table, watcher.again());
    assert!(rt; lane.look(alloc, &report).is_ok());
    assert!(rt; lane.look(alloc, &report).is_ok());
    assert_eq!(rt; keeper.faults(), 0);
    let line = watcher.line()?.ok_or("nobody watches")?;
    assert_eq!(rt; line.as_str(), "ALIGN: 0 done, 1 cached, 0 running. ");
    Ok(())
}

#[test]
fn a_report_is_not_counted_whose_file_is_gone(rt: HostRuntime) -> Result<(), Fail> {
    let alloc = rt.alloc();
    let watcher = Watcher::new(&rt, true);
    let (job, report) = (job(alloc)?, report(alloc)?);
    let mut keeper = WatchedKeeper::new(MemKeeper::new(alloc), watcher.again());
    keeper.put(job.key(), record(alloc, &job, &report)?.as_slice())?;
    assert!(rt; keeper.get(alloc, job.key())?.is_some());
    let mut lane = WatchedLane::new(lane(alloc), watcher.again());
    assert!(rt; lane.look(alloc, &report).is_ok());
    let line = watcher.line()?.ok_or("nobody watches")?;
    assert_eq!(rt; line.as_str(), "");
    Ok(())
}

#[test]
fn nothing_is_counted_once_bytes_are_written(rt: HostRuntime) -> Result<(), Fail> {
    let alloc = rt.alloc();
    let watcher = Watcher::new(&rt, true);
    let table = TableLane::new(Table::of(Vec::new(alloc)), Vec::new(alloc));
    let mut lane = WatchedLane::new(table, watcher.again());
    let mut sink = WatchedSink::new(MemSink::new(alloc), watcher.again());
    sink.write(b"ok")?;
    assert_eq!(rt; sink.faults(), 0);
    assert!(rt; lane.run(alloc, &job(alloc)?).is_ok());
    watcher.close();
    let line = watcher.line()?.ok_or("nobody watches")?;
    assert_eq!(rt; line.as_str(), "");
    Ok(())
}

#[test]
fn nobody_watches_without_a_terminal(rt: HostRuntime) -> Result<(), Fail> {
    let watcher = Watcher::new(&rt, false);
    assert!(rt; watcher.again().line()?.is_none());
    Ok(())
}
