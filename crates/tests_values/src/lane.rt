//! Lanes over a table, over a real shell, and over processes that fail.

ghost use Rattle.std.specs.Prelude.{◌≡◌, ◌+◌, ◌<◌, ◌^◌, IfOk};
ghost use Rattle.nf_lane.specs.TableLane.{runs_of};

use crate::makers::job_parts;
use nf_job::{Captured, FileRefs, Found, Job, Report, make_job};
use nf_lane::{ChildLane, Finished, Lane, LaneRefusal, Look, Present, Table, TableLane};
use nf_value::{Digest, FileRef, Mem, Txt};
use std::alloc::{Allocator, Global};
use std::io;
use std::io::{Empty, ErrorKind, Read, Sink};
use std::process::{Child, Command, ExitStatus, OpenProcess, Processes, Stdio};
use std::test::Fail;

fn job(alloc: Global, script: &str, wants_stdout: bool) -> Result<Job, Mem> {
    let parts = job_parts(alloc, script, wants_stdout)?;
    make_job(alloc, parts)
}

const UNWANTED: i64 = -1;

const BAD: i64 = -2;

// How a job ended on a lane: its exit, and how many bytes of text it has. Two negative numbers where the lane refused.
fn outcome<L: Lane>(alloc: Global, lane: &mut L, job: &Job) -> (i32, i64)
    requires { L.runs lane.old < 2 ^ 63 }
    ensures { L.runs lane.new ≡ L.runs lane.old + 1 }
{
    match lane.run(alloc, job) {
        Ok(done) => (done.report().exit, kept_len(&done.report().captured)),
        Err(LaneRefusal::Failed) => (-1, -4),
        Err(LaneRefusal::Mem) => (-1, -5),
    }
}

const FAILED: (i32, i64) = (-1, -4);

fn kept_len(captured: &Captured) -> i64 {
    match captured {
        Captured::None => UNWANTED,
        Captured::Bad => BAD,
        Captured::Text(text) => text.as_str().len() as i64,
    }
}

fn exits(alloc: Global, exit: i32) -> Report {
    Report {
        exit,
        captured: Captured::None,
        found: Found::of(Vec::new(alloc)),
    }
}

fn table(alloc: Global, known: &Job) -> Result<Table, Mem> {
    let text = known.text().copy()?;
    let mut entries = Vec::new(alloc);
    entries.push((text, exits(alloc, 3)))?;
    Ok(Table::of(entries))
}

// How the job ends on a lane over this table.
fn table_outcome(alloc: Global, table: Table, failing: Vec<u64>, job: &Job) -> (i32, i64) {
    let mut lane = TableLane::new(table, failing);
    outcome(alloc, &mut lane, job)
}

#[test]
fn a_table_answers(rt: HostRuntime) -> Result<(), Fail> {
    let alloc = rt.alloc();
    let known = job(alloc, "a", false)?;
    let table = table(alloc, &known)?;
    let ended = table_outcome(alloc, table, Vec::new(alloc), &known);
    assert_eq!(rt; ended, (3, UNWANTED));
    Ok(())
}

const DIGEST: Digest = Digest([7; 32]);

// The report of a job that left one file, `x.txt`.
fn leaves_a_file(alloc: Global) -> Result<Report, Mem> {
    let name = Txt::of(String::from_str(alloc, "x.txt")?);
    let mut files = Vec::new(alloc);
    files.push(FileRef {
        name,
        digest: DIGEST,
        len: 3,
    })?;
    let mut found = Vec::new(alloc);
    found.push(FileRefs::of(files))?;
    Ok(Report {
        exit: 0,
        captured: Captured::None,
        found: Found::of(found),
    })
}

// A lane over a table in which the job has this report.
fn lane_of(alloc: Global, known: &Job, report: &Report) -> Result<TableLane, Mem>
    ensures { IfOk result (λ l. runs_of l ≡ 0) }
{
    let text = known.text().copy()?;
    let report = report.copy()?;
    let mut entries = Vec::new(alloc);
    entries.push((text, report))?;
    Ok(TableLane::new(Table::of(entries), Vec::new(alloc)))
}

// What a look at the report finds: `t` for its files, `g` where it misses this one.
fn looked<L: Lane>(alloc: Global, lane: &mut L, report: &Report, name: &str) -> char
    ensures { L.runs lane.new ≡ L.runs lane.old }
{
    match lane.look(alloc, report) {
        Ok(Look::There(seen)) if seen.report().exit == report.exit => 't',
        Ok(Look::Gone { name: missed }) if missed.as_str() == name => 'g',
        _ => '?',
    }
}

// What looks find before a run of the job, after it, and after its file was lost and stored again.
fn looks(
    alloc: Global,
    lane: &mut TableLane,
    known: &Job,
    report: &Report,
) -> Result<[char; 4], Mem>
    requires { runs_of lane.old ≡ 0 }
{
    let before = looked(alloc, lane, report, "x.txt");
    outcome(alloc, lane, known);
    let after = looked(alloc, lane, report, "x.txt");
    lane.lose(&DIGEST);
    let lost = looked(alloc, lane, report, "x.txt");
    lane.store(DIGEST)?;
    let stored = looked(alloc, lane, report, "x.txt");
    Ok([before, after, lost, stored])
}

#[test]
fn a_table_lane_has_files_until_they_are_lost(rt: HostRuntime) -> Result<(), Fail> {
    let alloc = rt.alloc();
    let known = job(alloc, "a", false)?;
    let report = leaves_a_file(alloc)?;
    let mut lane = lane_of(alloc, &known, &report)?;
    let found = looks(alloc, &mut lane, &known, &report)?;
    assert_eq!(rt; found, ['g', 't', 'g', 't']);
    Ok(())
}

#[test]
fn a_lane_of_children_has_no_files(rt: HostRuntime) -> Result<(), Fail> {
    let alloc = rt.alloc();
    let report = leaves_a_file(alloc)?;
    let mut lane = ChildLane::new(&rt);
    assert_eq!(rt; looked(alloc, &mut lane, &report, "x.txt"), 'g');
    Ok(())
}

fn child_outcome(
    rt: &HostRuntime,
    alloc: Global,
    script: &str,
    wants_stdout: bool,
) -> Result<(i32, i64), Mem> {
    let job = job(alloc, script, wants_stdout)?;
    let mut lane = ChildLane::new(rt);
    Ok(outcome(alloc, &mut lane, &job))
}

#[test]
fn children_end(rt: HostRuntime) -> Result<(), Fail> {
    let rows = [
        ("printf a", true, 0, 1),
        ("printf a", false, 0, UNWANTED),
        ("printf a; exit 3", true, 3, 1),
        ("false; printf a", true, 1, 0),
        ("kill -9 $$", true, 255, 0),
        ("printf '\\377'", true, 0, BAD),
        ("head -c 1048576 /dev/zero", true, 0, 1_048_576),
        ("head -c 1048577 /dev/zero; exit 4", true, 4, BAD),
        ("cat", true, 0, 0),
        (
            "readlink /proc/$$/fd/0",
            true,
            0,
            "/dev/null\n".len() as i64,
        ),
        (
            "test \"$(readlink /proc/$$/fd/2)\" = \"$(readlink /proc/$PPID/fd/2)\"",
            false,
            0,
            UNWANTED,
        ),
        ("printf \"$no_such_name\"", true, 2, 0),
        ("printf '\0'", true, FAILED.0, FAILED.1),
    ];
    for (script, wants_stdout, exit, kept) in rows {
        let ended = child_outcome(&rt, rt.alloc(), script, wants_stdout)?;
        assert_eq!(rt; ended, (exit, kept), "{script}");
    }
    Ok(())
}

// What a job printed on a lane over children.
fn printed(rt: &HostRuntime, alloc: Global, script: &str) -> Result<String, Fail> {
    let job = job(alloc, script, true)?;
    let mut lane = ChildLane::new(rt);
    let Ok(done) = lane.run(alloc, &job) else {
        return Err(Fail::from("no report"));
    };
    let Captured::Text(text) = &done.report().captured else {
        return Err(Fail::from("no text"));
    };
    Ok(String::from_str(alloc, text.as_str().trim_end())?)
}

#[test]
fn a_run_starts_one_child(rt: HostRuntime) -> Result<(), Fail> {
    let alloc = rt.alloc();
    let path = printed(&rt, alloc, "mktemp")?;
    let append = format!(in alloc; "printf x >> {path}; printf y")?;
    assert_eq!(rt; printed(&rt, alloc, append.as_str())?.as_str(), "y");
    let read = format!(in alloc; "cat {path}; rm {path}")?;
    assert_eq!(rt; printed(&rt, alloc, read.as_str())?.as_str(), "x");
    Ok(())
}

// Processes that don't start, or whose output fails after its first byte.
#[derive(Drop)]
struct Broken {
    starts: bool,
}

impl Processes for Broken {
    type Started = BrokenChild;

    fn spawn<B: Allocator + Clone>(
        &self,
        _command: &Command<B>,
        _stdin: &Stdio,
        _stdout: &Stdio,
        _stderr: &Stdio,
    ) -> io::Result<Child<BrokenChild>> {
        if !self.starts {
            return Err(io::Error::from(ErrorKind::NotFound));
        }
        let output = BrokenOutput { is_read: false };
        Ok(Child::from_parts(BrokenChild, None, Some(output), None))
    }
}

#[derive(Drop)]
struct BrokenChild;

impl OpenProcess for BrokenChild {
    type Stdin = Sink;

    type Stdout = BrokenOutput;

    type Stderr = Empty;

    fn id(&self) -> u32 {
        1
    }

    fn wait(&mut self) -> io::Result<ExitStatus> {
        Ok(ExitStatus::default())
    }
}

#[derive(Drop)]
struct BrokenOutput {
    is_read: bool,
}

impl Read for BrokenOutput {
    fn read(&mut self, room: &mut [u8]) -> io::Result<usize> {
        if self.is_read || room.is_empty() {
            return Err(io::Error::from(ErrorKind::BrokenPipe));
        }
        self.is_read = true;
        Ok(1)
    }
}

#[test]
fn failures_are_counted(rt: HostRuntime) -> Result<(), Fail> {
    let alloc = rt.alloc();
    let job = job(alloc, "printf a", true)?;
    for starts in [false, true] {
        let mut lane = ChildLane::new(Broken { starts });
        assert_eq!(rt; outcome(alloc, &mut lane, &job), FAILED);
        assert_eq!(rt; lane.faults(), 1);
        assert_eq!(rt; lane.runs(), 1);
    }
    Ok(())
}
