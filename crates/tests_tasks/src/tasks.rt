//! Jobs with staged files and outputs, and what is expected of their reports.

ghost use Rattle.std.specs.Prelude.{◌≡◌, ◌<◌, ◌^◌, IfOk};

use nf_host::{Child, Host, HostRefusal, write_file};
use nf_job::{Captured, FileRefs, Found, Job, JobParts, Report, Txts, make_job};
use nf_lane::{Finished, Lane, Look};
use nf_shell::stored_path;
use nf_value::{Bytes, Digest, FileRef, Mem, Txt};
use sha2::{Digest as Hasher, Sha256};
use std::alloc::Global;

/// The work folder of a test.
pub const WORK: &str = "nf_shell_test";

/// The text as one of a job.
pub fn txt(alloc: Global, text: &str) -> Result<Txt, Mem> {
    Ok(Txt::of(String::from_str(alloc, text)?))
}

/// The digest of a text.
pub fn digest_of(text: &str) -> Digest {
    Digest(Sha256::digest(text.as_bytes()))
}

/// A file of this name that has this text.
pub fn file_of(alloc: Global, name: &str, text: &str) -> Result<FileRef, Mem> {
    Ok(FileRef {
        name: txt(alloc, name)?,
        digest: digest_of(text),
        len: text.len() as u64,
    })
}

/// Files by their names and texts.
fn files_of(alloc: Global, texts: &[(&str, &str)]) -> Result<FileRefs, Mem> {
    let mut files = Vec::new(alloc);
    for (name, text) in texts.iter().copied() {
        files.push(file_of(alloc, name, text)?)?;
    }
    Ok(FileRefs::of(files))
}

/// A report of these files, by their names and texts, for one pattern.
pub fn report_of(alloc: Global, texts: &[(&str, &str)]) -> Result<Report, Mem> {
    let mut lists = Vec::new(alloc);
    lists.push(files_of(alloc, texts)?)?;
    Ok(Report {
        exit: 0,
        captured: Captured::None,
        found: Found::of(lists),
    })
}

/// The job of a script with these staged files, by their names and texts, and these patterns of outputs. It reads `in`, and its
/// standard output is wanted.
pub fn job_of(
    alloc: Global,
    script: &str,
    staged: &[(&str, &str)],
    patterns: &[&str],
) -> Result<Job, Mem> {
    let files = files_of(alloc, staged)?;
    let mut texts = Vec::new(alloc);
    for pattern in patterns.iter().copied() {
        texts.push(txt(alloc, pattern)?)?;
    }
    let parts = parts_of(alloc, script, files, Txts::of(texts))?;
    make_job(alloc, parts)
}

fn parts_of(alloc: Global, script: &str, staged: FileRefs, patterns: Txts) -> Result<JobParts, Mem>
    ensures { IfOk result (λ p. p.attempt ≡ 1) }
{
    let process = txt(alloc, "P")?;
    let script = txt(alloc, script)?;
    let inputs = txt(alloc, "l0:")?;
    let stdin = txt(alloc, "in")?;
    Ok(JobParts {
        process,
        script,
        inputs,
        stdin: Some(stdin),
        staged,
        patterns,
        wants_stdout: true,
        n: 0,
        attempt: 1,
    })
}

/// Puts a file of this text where the file store has the file of this digest.
pub fn store_at<H: Host>(
    alloc: Global,
    host: &mut H,
    digest: &Digest,
    text: &str,
) -> Result<(), HostRefusal> {
    let path = stored_path(alloc, WORK, digest)?;
    if let Some((folder, _)) = path.as_str().rsplit_once('/') {
        host.make_dir(folder)?;
    }
    write_file(alloc, host, path.as_str(), text.as_bytes())
}

/// What a child does: it writes these files, by their names and texts, and ends with this status.
pub fn child_of(alloc: Global, status: u8, files: &[(&str, &str)]) -> Result<Child, Mem> {
    let mut written = Vec::new(alloc);
    for (name, text) in files.iter().copied() {
        let name = txt(alloc, name)?;
        let bytes = Bytes::of(Vec::from_slice(alloc, text.as_bytes())?);
        written.push((name, bytes))?;
    }
    Ok(Child {
        status,
        files: written,
    })
}

/// How a task ended on a lane.
#[derive(Clone, Copy)]
pub enum Ending {
    /// As due, and the lane has the files of its report.
    Due,
    /// Otherwise than due.
    Other,
    /// The lane failed, or there was no memory.
    Failed,
}

/// How a job ends on a lane. It is due to end with this status, this text and these files for each pattern.
pub fn end_of<L: Lane>(
    alloc: Global,
    lane: &mut L,
    job: &Job,
    exit: i32,
    said: &str,
    found: &[&[(&str, &str)]],
) -> Ending
    requires { L.runs lane.old < 2 ^ 63 }
{
    match lane.run(alloc, job) {
        Ok(done) => {
            let report = done.report();
            if report.exit == exit && has_said(report, said) && has_found(report, found) {
                looked(alloc, lane, report)
            } else {
                Ending::Other
            }
        }
        Err(_) => Ending::Failed,
    }
}

fn looked<L: Lane>(alloc: Global, lane: &mut L, report: &Report) -> Ending {
    match lane.look(alloc, report) {
        Ok(Look::There(_)) => Ending::Due,
        Ok(Look::Gone { .. }) => Ending::Other,
        Err(_) => Ending::Failed,
    }
}

/// Whether the standard output is this text.
fn has_said(report: &Report, text: &str) -> bool {
    match &report.captured {
        Captured::Text(said) => said.as_str() == text,
        Captured::None | Captured::Bad => false,
    }
}

/// Whether a report has exactly these files for each pattern, by their names and texts.
fn has_found(report: &Report, want: &[&[(&str, &str)]]) -> bool {
    let found = report.found.items();
    if found.len() != want.len() {
        return false;
    }
    for (files, list) in found.iter().zip(want) {
        if !are_files(files.items(), list) {
            return false;
        }
    }
    true
}

fn are_files(files: &[FileRef], want: &[(&str, &str)]) -> bool {
    if files.len() != want.len() {
        return false;
    }
    for (file, (name, text)) in files.iter().zip(want.iter().copied()) {
        let digest = digest_of(text);
        if file.name.as_str() != name
            || file.digest.0 != digest.0
            || file.len != text.len() as u64
        {
            return false;
        }
    }
    true
}
