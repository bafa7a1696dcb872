//! The job that the rows look up, and its reports in words.

use anyhow::{Result, bail};
use nf_job::{Captured, FileRefs, Job, JobParts, Report, Txts, inputs_code, make_job};
use nf_value::{Txt, Vals, Value};
use std::alloc::Global;

/// An attempt at the task of the process P with the script `printf a` and the one input `a`. Its standard output is wanted.
pub(crate) fn printing(alloc: Global, attempt: u32) -> Result<Job> {
    if attempt < 1 || attempt > 101 {
        bail!("no attempt");
    }
    let mut inputs = Vec::new(alloc);
    inputs.push(Value::Text(text(alloc, "a")?))?;
    let parts = JobParts {
        process: text(alloc, "P")?,
        script: text(alloc, "printf a")?,
        inputs: inputs_code(alloc, &Vals::of(inputs))?,
        stdin: None,
        staged: FileRefs::of(Vec::new(alloc)),
        patterns: Txts::of(Vec::new(alloc)),
        wants_stdout: true,
        n: 0,
        attempt,
    };
    Ok(make_job(alloc, parts)?)
}

fn text(alloc: Global, text: &str) -> Result<Txt> {
    Ok(Txt::of(String::from_str(alloc, text)?))
}

/// A report in words, or `none`.
pub(crate) fn in_words(alloc: Global, report: &Option<Report>) -> Result<String> {
    match report {
        Some(report) => words(alloc, report),
        None => Ok(String::from_str(alloc, "none")?),
    }
}

/// The exit status, the standard output, and the names of the files that each pattern found.
pub(crate) fn words(alloc: Global, report: &Report) -> Result<String> {
    let exit = report.exit;
    let mut words = format!(in alloc; "exit {exit}, ")?;
    push_output(&mut words, &report.captured)?;
    for files in report.found.items() {
        push_names(&mut words, files)?;
    }
    Ok(words)
}

fn push_output(words: &mut String, captured: &Captured) -> Result<()> {
    match captured {
        Captured::None => words.push_str("no output")?,
        Captured::Bad => words.push_str("bad output")?,
        Captured::Text(text) => {
            words.push_str("output ")?;
            words.push_str(text.as_str())?;
        }
    }
    Ok(())
}

fn push_names(words: &mut String, files: &FileRefs) -> Result<()> {
    words.push_str(", files")?;
    for file in files.items() {
        words.push(' ')?;
        words.push_str(file.name.as_str())?;
    }
    Ok(())
}
