//! Times tasks through the lane that runs them as scripts of a shell, over the system's files. All of them stand in the folder `work` of the folder that
//! the program runs in.

ghost use Rattle.std.specs.Prelude.{◌≡◌, ◌<◌, ◌^◌, IfOk};

use crate::took;
use anyhow::{Result, bail};
use nf_host::{Digested, FILE_LIMIT, FsHost, Host, digest_file, write_file};
use nf_job::{FileRefs, Job, JobParts, Txts, make_job};
use nf_lane::{Finished, Lane};
use nf_shell::{ShellLane, store_file};
use nf_value::{FileRef, Mem, Txt};
use sha2::{Digest as Hasher, Sha256};
use std::alloc::{AllocError, Global};
use std::process::Processes;
use std::rt::{Clock, Files};
use std::time::Instant;

/// The work folder.
const WORK: &str = "work";

/// A file of the folder that the program runs in.
const BIG: &str = "big";

/// How many children are started while memory is held.
const CHILDREN: u32 = 200;

/// Runs COUNT tasks one after another, each of which writes a number into a file that is its output. Making the jobs isn't timed.
pub fn tasks<R: Clock + Files + Processes + AllocGlobal + Print + Eprint>(
    rt: &R,
    count: u32,
) -> Result<()> {
    let jobs = numbered(rt.alloc(), count)?;
    let start = Instant::now(rt)?;
    let found = run_all(rt, &jobs)?;
    took(rt, start)?;
    print_outputs(rt, found)
}

/// Runs a task with COUNT staged files, whose pattern matches them and the file that the script leaves.
pub fn staged<R: Clock + Files + Processes + AllocGlobal + Print + Eprint>(
    rt: &R,
    count: u32,
) -> Result<()> {
    let alloc = rt.alloc();
    let files = stored_files(alloc, &mut FsHost::new(rt), count)?;
    time_run(rt, &job(alloc, "ls | wc -l > count.txt", files, "*")?)
}

/// Runs a task whose script leaves COUNT files, which one pattern matches.
pub fn outputs<R: Clock + Files + Processes + AllocGlobal + Print + Eprint>(
    rt: &R,
    count: u32,
) -> Result<()> {
    let alloc = rt.alloc();
    let script = format!(in alloc; "seq {count} | split -l 1 -a 4 -d - file")?;
    time_run(rt, &job(alloc, script.as_str(), Vec::new(alloc), "file*")?)
}

/// Digests COUNT texts, each as that of the output of a task.
pub fn digests<R: Clock + AllocGlobal + Print + Eprint>(rt: &R, count: u32) -> Result<()> {
    let start = Instant::now(rt)?;
    let sum = sum_of_digests(rt.alloc(), count)?;
    took(rt, start)?;
    println!(rt; "sum {sum}")?;
    Ok(())
}

/// Stores the file `big`.
pub fn store<R: Clock + Files + Processes + AllocGlobal + Print + Eprint>(rt: &R) -> Result<()> {
    let start = Instant::now(rt)?;
    let len = stored_len(rt.alloc(), &mut FsHost::new(rt))?;
    took(rt, start)?;
    println!(rt; "bytes {len}")?;
    Ok(())
}

/// Reads the file `big` and digests it.
pub fn digest<R: Clock + Files + Processes + AllocGlobal + Print + Eprint>(rt: &R) -> Result<()> {
    let start = Instant::now(rt)?;
    let len = digested_len(rt.alloc(), &mut FsHost::new(rt))?;
    took(rt, start)?;
    println!(rt; "bytes {len}")?;
    Ok(())
}

/// Starts children while COUNT MiB of memory are held.
pub fn children<R: Clock + Files + Processes + AllocGlobal + Print + Eprint>(
    rt: &R,
    count: u32,
) -> Result<()> {
    let alloc = rt.alloc();
    let held = memory(alloc, count)?;
    let job = job(alloc, "true", Vec::new(alloc), "none")?;
    let start = Instant::now(rt)?;
    run_often(rt, &job)?;
    took(rt, start)?;
    println!(rt; "held {}", held.len())?;
    Ok(())
}

/// Times one run of a job.
fn time_run<R: Clock + Files + Processes + AllocGlobal + Print + Eprint>(
    rt: &R,
    job: &Job,
) -> Result<()> {
    let start = Instant::now(rt)?;
    let found = run(rt, job)?;
    took(rt, start)?;
    print_outputs(rt, found)
}

fn print_outputs<R: Print>(rt: &R, found: usize) -> Result<()> {
    println!(rt; "outputs {found}")?;
    Ok(())
}

/// Runs these jobs, and gives how many files their outputs have.
fn run_all<R: Files + Processes + AllocGlobal>(rt: &R, jobs: &[Job]) -> Result<usize> {
    let mut found = 0usize;
    for job in jobs {
        found = found.saturating_add(run(rt, job)?);
    }
    Ok(found)
}

fn run_often<R: Files + Processes + AllocGlobal>(rt: &R, job: &Job) -> Result<()> {
    for _ in 0..CHILDREN {
        run(rt, job)?;
    }
    Ok(())
}

/// Runs a job on a lane of its own, and gives how many files its output has.
fn run<R: Files + Processes + AllocGlobal>(rt: &R, job: &Job) -> Result<usize> {
    let alloc = rt.alloc();
    let work = Txt::of(String::from_str(alloc, WORK)?);
    let mut lane = ShellLane::new(alloc, FsHost::new(rt), work);
    found_by(alloc, &mut lane, job)
}

fn found_by<L: Lane>(alloc: Global, lane: &mut L, job: &Job) -> Result<usize>
    requires { L.runs lane.old < 2 ^ 63 }
{
    let done = lane.run(alloc, job)?;
    match done.report().found.items() {
        [files, ..] => Ok(files.items().len()),
        [] => Ok(0),
    }
}

/// Memory that was written, so that the system has given it.
fn memory(alloc: Global, count: u32) -> Result<Vec<Vec<u8>>, AllocError> {
    let mut held = Vec::with_capacity(alloc, count as usize)?;
    for _ in 0..count {
        held.push(vec![in alloc; 1u8; 1_048_576]?)?;
    }
    Ok(held)
}

fn sum_of_digests(alloc: Global, count: u32) -> Result<u32, AllocError> {
    let mut sum = 0u32;
    for number in 0..count {
        let text = format!(in alloc; "{number}")?;
        sum = sum.saturating_add(u32::from(Sha256::digest(text.as_bytes())[0]));
    }
    Ok(sum)
}

/// How many bytes the file `big` has, which is stored.
fn stored_len<H: Host>(alloc: Global, host: &mut H) -> Result<u64> {
    host.make_dir(WORK)?;
    match store_file(alloc, host, WORK, BIG, "work/new")? {
        Some(stored) => Ok(stored.len),
        None => bail!("no file"),
    }
}

fn digested_len<H: Host>(alloc: Global, host: &mut H) -> Result<u64> {
    match digest_file(alloc, host, BIG, FILE_LIMIT)? {
        Digested::Whole { len, .. } => Ok(len),
        Digested::Absent | Digested::TooLong => bail!("no file"),
    }
}

/// As many stored files.
fn stored_files<H: Host>(alloc: Global, host: &mut H, count: u32) -> Result<Vec<FileRef>> {
    host.make_dir(WORK)?;
    let mut files = Vec::with_capacity(alloc, count as usize)?;
    for number in 0..count {
        files.push(stored(alloc, host, number)?)?;
    }
    Ok(files)
}

/// A stored file of a few bytes.
fn stored<H: Host>(alloc: Global, host: &mut H, number: u32) -> Result<FileRef> {
    let text = format!(in alloc; "file {number}")?;
    write_file(alloc, host, "work/new", text.as_bytes())?;
    match store_file(alloc, host, WORK, "work/new", "work/copy")? {
        Some(stored) => Ok(FileRef {
            name: Txt::of(format!(in alloc; "in{number}")?),
            digest: stored.digest,
            len: stored.len,
        }),
        None => bail!("no file"),
    }
}

/// As many jobs, each of which writes its number.
fn numbered(alloc: Global, count: u32) -> Result<Vec<Job>> {
    let mut jobs = Vec::with_capacity(alloc, count as usize)?;
    for number in 0..count {
        let script = format!(in alloc; "printf {number} > out.txt")?;
        jobs.push(job(alloc, script.as_str(), Vec::new(alloc), "*.txt")?)?;
    }
    Ok(jobs)
}

fn job(alloc: Global, script: &str, staged: Vec<FileRef>, pattern: &str) -> Result<Job, Mem> {
    let mut patterns = Vec::new(alloc);
    patterns.push(txt(alloc, pattern)?)?;
    let parts = parts_of(alloc, script, FileRefs::of(staged), Txts::of(patterns))?;
    make_job(alloc, parts)
}

fn parts_of(alloc: Global, script: &str, staged: FileRefs, patterns: Txts) -> Result<JobParts, Mem>
    ensures { IfOk result (λ p. p.attempt ≡ 1) }
{
    let process = txt(alloc, "P")?;
    let script = txt(alloc, script)?;
    let inputs = txt(alloc, "l0:")?;
    Ok(JobParts {
        process,
        script,
        inputs,
        stdin: None,
        staged,
        patterns,
        wants_stdout: true,
        n: 0,
        attempt: 1,
    })
}

fn txt(alloc: Global, text: &str) -> Result<Txt, Mem> {
    Ok(Txt::of(String::from_str(alloc, text)?))
}
