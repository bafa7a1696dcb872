//! Jobs: their texts and their folders.

use crate::values::list;
use anyhow::{Result, bail};
use nf_job::{FileRefs, Job, JobParts, Txts, inputs_code, make_job, work_name};
use nf_value::{Digest, Txt, Value};
use std::alloc::Global;

/// The text and the folder of a job, and then of its form before there were attempts:
/// `PROCESS | SCRIPT | INPUTS | FILES | PATTERNS | WANTS STDOUT | NUMBER | ATTEMPT`.
pub(crate) fn job(alloc: Global, parts: &str) -> Result<String> {
    let job = made(alloc, job_parts(alloc, parts)?)?;
    let newest = named(alloc, job.text(), job.key())?;
    match job.old() {
        Some(old) => {
            let old = named(alloc, old.text(), old.key())?;
            Ok(format!(in alloc; "{newest}; before attempts {old}")?)
        }
        None => Ok(newest),
    }
}

fn made(alloc: Global, parts: JobParts) -> Result<Job> {
    if parts.attempt < 1 || parts.attempt > 101 {
        bail!("no attempt");
    }
    Ok(make_job(alloc, parts)?)
}

fn job_parts(alloc: Global, parts: &str) -> Result<JobParts> {
    let parts = parts.split('|').collect::<Vec<&str>>(alloc)?;
    let [
        process,
        script,
        inputs,
        staged,
        patterns,
        stdout,
        n,
        attempt,
    ] = parts.as_slice()
    else {
        bail!("not eight parts");
    };
    Ok(JobParts {
        process: text(alloc, process.trim())?,
        script: text(alloc, script.trim())?,
        inputs: inputs_code(alloc, &list(alloc, inputs.trim())?)?,
        stdin: None,
        staged: files(alloc, staged.trim())?,
        patterns: texts(alloc, patterns.trim())?,
        wants_stdout: stdout.trim().parse::<bool>()?,
        n: n.trim().parse::<u32>()?,
        attempt: attempt.trim().parse::<u32>()?,
    })
}

fn text(alloc: Global, text: &str) -> Result<Txt> {
    Ok(Txt::of(String::from_str(alloc, text)?))
}

fn files(alloc: Global, code: &str) -> Result<FileRefs> {
    let values = list(alloc, code)?;
    let mut files = Vec::new(alloc);
    for value in values.items() {
        match value {
            Value::File(file) => files.push(file.file().copy()?)?,
            _ => bail!("{code}: no files"),
        }
    }
    Ok(FileRefs::of(files))
}

fn texts(alloc: Global, code: &str) -> Result<Txts> {
    let values = list(alloc, code)?;
    let mut texts = Vec::new(alloc);
    for value in values.items() {
        match value {
            Value::Text(text) => texts.push(text.copy()?)?,
            _ => bail!("{code}: no texts"),
        }
    }
    Ok(Txts::of(texts))
}

/// A text with the name of its key's folder.
fn named(alloc: Global, text: &Txt, key: &Digest) -> Result<String> {
    let mut name = [0u8; 65];
    work_name(key, &mut name);
    let text = text.as_str();
    match str::from_utf8(&name) {
        Ok(name) => Ok(format!(in alloc; "{text} in {name}")?),
        Err(_) => bail!("no name"),
    }
}
