//! What rows ask of runs: jobs as scripts of a shell, over a host in memory.

ghost use Rattle.std.specs.Prelude.{◌<◌, ◌^◌};

use crate::attempts::{Attempt, first_attempt};
use crate::jobs::job_at;
use crate::refusals::refused;
use crate::reports::{amounts, record_of};
use crate::table::{Table, WORK};
use anyhow::{Result, bail};
use nf_builtins::Natives;
use nf_host::{MemHost, MemStart};
use nf_job::{Captured, FileRefs, Job, Report, TaskRefusal};
use nf_lane::{Finished, Lane, LaneRefusal};
use nf_shell::{Damage, ShellDone, ShellLane};
use nf_tasks::ProcessSpec;
use nf_value::{Bytes, Txt};
use std::alloc::Global;

/// `ATTEMPT`: what the folder of its job held when the child started, how it ended, and what that amounts to.
pub(crate) fn run<N: Natives>(
    alloc: Global,
    row: &str,
    process: &ProcessSpec,
    table: &Table,
    natives: &N,
) -> Result<String>
    requires { N.keeps natives.now }
{
    let attempt = first_attempt(alloc, row)?;
    let job = job_at(alloc, process, &attempt, natives);
    let ending = ending_of(alloc, job, table)?;
    told(alloc, process, &attempt, ending, natives)
}

fn ending_of(alloc: Global, job: Result<Job, TaskRefusal>, table: &Table) -> Result<Ending> {
    match job {
        Ok(job) => run_once(alloc, &job, table),
        Err(refusal) => Ok(Ending::Failed(refused(alloc, &refusal)?)),
    }
}

fn told<N: Natives>(
    alloc: Global,
    process: &ProcessSpec,
    attempt: &Attempt,
    ending: Ending,
    natives: &N,
) -> Result<String>
    requires { N.keeps natives.now }
{
    match ending {
        Ending::Ended(shown, done) => {
            let amount = amounts(alloc, process, attempt, done.report(), natives)?;
            joined(shown, amount.as_str())
        }
        Ending::Failed(shown) => Ok(shown),
    }
}

fn joined(shown: String, amount: &str) -> Result<String> {
    let mut shown = shown;
    shown.push_str("; ")?;
    shown.push_str(amount)?;
    Ok(shown)
}

/// What a run came to, in words.
#[derive(Drop)]
enum Ending {
    Ended(String, ShellDone),
    Failed(String),
}

/// Runs a job on a lane of its own.
fn run_once(alloc: Global, job: &Job, table: &Table) -> Result<Ending> {
    let work = Txt::of(String::from_str(alloc, WORK)?);
    let mut lane = ShellLane::new(alloc, table.host(alloc)?, work);
    match run_on(alloc, &mut lane, job) {
        Ok(done) => ended(alloc, job, lane.host(), done),
        Err(_) => Ok(Ending::Failed(shown_damages(alloc, lane.damages())?)),
    }
}

/// Runs a job on a lane.
fn run_on<L: Lane>(alloc: Global, lane: &mut L, job: &Job) -> Result<L::Done, LaneRefusal>
    requires { L.runs lane.old < 2 ^ 63 }
{
    lane.run(alloc, job)
}

fn ended(alloc: Global, job: &Job, host: &MemHost, done: ShellDone) -> Result<Ending> {
    let shown = shown_run(alloc, job, host, done.report())?;
    Ok(Ending::Ended(shown, done))
}

/// The folder when the child started, the report, and the number of bytes of its record.
fn shown_run(alloc: Global, job: &Job, host: &MemHost, report: &Report) -> Result<String> {
    let mut shown = shown_start(alloc, host.starts())?;
    push_report(&mut shown, report)?;
    let len = record_of(alloc, job.text().copy()?, report.copy()?)?.len();
    write!(shown, "; record of {len} bytes")?;
    Ok(shown)
}

/// The files of the one child's folder when it started.
fn shown_start(alloc: Global, starts: &[MemStart]) -> Result<String> {
    let mut shown = String::from_str(alloc, "starts with")?;
    match starts {
        [start] => push_files(&mut shown, &start.files)?,
        _ => bail!("not one child"),
    }
    Ok(shown)
}

fn push_files(shown: &mut String, files: &[(Txt, Bytes)]) -> Result<()> {
    for (name, bytes) in files {
        push_file(shown, name.as_str(), bytes.items())?;
    }
    Ok(())
}

fn push_file(shown: &mut String, name: &str, bytes: &[u8]) -> Result<()> {
    let Ok(text) = str::from_utf8(bytes) else {
        bail!("no text");
    };
    write!(shown, " {name} {text:?}")?;
    Ok(())
}

fn push_report(shown: &mut String, report: &Report) -> Result<()> {
    let exit = report.exit;
    write!(shown, "; exit {exit}")?;
    push_captured(shown, &report.captured)?;
    for files in report.found.items() {
        push_found(shown, files)?;
    }
    Ok(())
}

fn push_captured(shown: &mut String, captured: &Captured) -> Result<()> {
    match captured {
        Captured::None => Ok(()),
        Captured::Bad => Ok(shown.push_str(", says no text")?),
        Captured::Text(text) => push_said(shown, text.as_str()),
    }
}

fn push_said(shown: &mut String, text: &str) -> Result<()> {
    write!(shown, ", says {text:?}")?;
    Ok(())
}

/// The files of a pattern: each name, the number of bytes, and the first byte of the digest.
fn push_found(shown: &mut String, files: &FileRefs) -> Result<()> {
    shown.push_str(", leaves")?;
    for file in files.items() {
        let name = file.name.as_str();
        let len = file.len;
        let first = file.digest.0[0];
        write!(shown, " {name} ({len}, {first})")?;
    }
    Ok(())
}

/// The damaged files of a run that failed.
fn shown_damages(alloc: Global, damages: &[Damage]) -> Result<String> {
    let mut shown = String::from_str(alloc, "the lane fails, damaged")?;
    for damage in damages {
        let name = damage.name.as_str();
        write!(shown, " {name}")?;
    }
    Ok(shown)
}
