//! What rows ask of inputs and jobs.

use crate::attempts::{Attempt, after_attempt, first_attempt};
use crate::files::{list, push_names, push_texts};
use crate::refusals::refused;
use anyhow::Result;
use nf_builtins::Natives;
use nf_job::{Job, TaskRefusal};
use nf_tasks::laws::attempts_are_told_apart;
use nf_tasks::{Bound, ProcessSpec, bind, job as job_of, parts, staged, tag as tag_of};
use nf_value::{Mem, Txt, Vals};
use std::alloc::Global;

/// `INPUTS`: what the inputs take, and the names of the files that are staged.
pub(crate) fn inputs(alloc: Global, row: &str, process: &ProcessSpec) -> Result<String> {
    let inputs = list(alloc, row.trim())?;
    match bind(alloc, process, &inputs) {
        Ok(bound) => {
            let mut shown = shown_bound(alloc, &bound)?;
            push_staged(alloc, &mut shown, process, &inputs)?;
            Ok(shown)
        }
        Err(refusal) => refused(alloc, &refusal),
    }
}

fn shown_bound(alloc: Global, bound: &Bound) -> Result<String> {
    let mut shown = String::from_str(alloc, "takes")?;
    push_texts(alloc, &mut shown, bound.values.items())?;
    push_stdin(&mut shown, &bound.stdin)?;
    Ok(shown)
}

fn push_stdin(shown: &mut String, stdin: &Option<Txt>) -> Result<()> {
    if let Some(text) = stdin {
        let text = text.as_str();
        write!(shown, ", stdin {text:?}")?;
    }
    Ok(())
}

fn push_staged(
    alloc: Global,
    shown: &mut String,
    process: &ProcessSpec,
    inputs: &Vals,
) -> Result<()> {
    match staged(alloc, process, inputs) {
        Ok(files) => push_names(shown, files.items()),
        Err(refusal) => push_refusal(alloc, shown, &refusal),
    }
}

fn push_refusal(alloc: Global, shown: &mut String, refusal: &TaskRefusal) -> Result<()> {
    let text = refused(alloc, refusal)?;
    shown.push_str(", ")?;
    shown.push_str(text.as_str())?;
    Ok(())
}

/// `ATTEMPT`: the tag of an attempt that has a job.
pub(crate) fn tag<N: Natives>(
    alloc: Global,
    row: &str,
    process: &ProcessSpec,
    natives: &N,
) -> Result<String>
    requires { N.keeps natives.now }
{
    let attempt = first_attempt(alloc, row)?;
    shown_tagged(alloc, tagged(alloc, process, &attempt, natives))
}

/// The tag of an attempt, or why it has no job.
fn tagged<N: Natives>(
    alloc: Global,
    process: &ProcessSpec,
    attempt: &Attempt,
    natives: &N,
) -> Result<Result<Option<Txt>, Mem>, TaskRefusal>
    requires { N.keeps natives.now }
{
    let inputs = &attempt.inputs;
    match parts(alloc, process, inputs, 0, attempt.number, natives) {
        Ok(_) => Ok(tag_of(alloc, process, inputs, attempt.number, natives)),
        Err(refusal) => Err(refusal),
    }
}

fn shown_tagged(
    alloc: Global,
    tagged: Result<Result<Option<Txt>, Mem>, TaskRefusal>,
) -> Result<String> {
    match tagged {
        Ok(tag) => shown_tag(alloc, &tag?),
        Err(refusal) => refused(alloc, &refusal),
    }
}

fn shown_tag(alloc: Global, tag: &Option<Txt>) -> Result<String> {
    match tag {
        Some(text) => {
            let text = text.as_str();
            Ok(format!(in alloc; "{text:?}")?)
        }
        None => Ok(String::from_str(alloc, "no tag")?),
    }
}

/// `ATTEMPT`: the text of its job.
pub(crate) fn job<N: Natives>(
    alloc: Global,
    row: &str,
    process: &ProcessSpec,
    natives: &N,
) -> Result<String>
    requires { N.keeps natives.now }
{
    let attempt = first_attempt(alloc, row)?;
    shown_job(alloc, job_at(alloc, process, &attempt, natives))
}

/// The job of an attempt, or why it has none.
pub(crate) fn job_at<N: Natives>(
    alloc: Global,
    process: &ProcessSpec,
    attempt: &Attempt,
    natives: &N,
) -> Result<Job, TaskRefusal>
    requires { N.keeps natives.now }
{
    job_of(
        alloc,
        process,
        &attempt.inputs,
        attempt.n,
        attempt.number,
        natives,
    )
}

fn shown_job(alloc: Global, job: Result<Job, TaskRefusal>) -> Result<String> {
    match job {
        Ok(job) => Ok(String::from_str(alloc, job.text().as_str())?),
        Err(refusal) => refused(alloc, &refusal),
    }
}

/// `ATTEMPT | ATTEMPT`: whether both have one text.
pub(crate) fn apart<N: Natives>(
    alloc: Global,
    row: &str,
    process: &ProcessSpec,
    natives: &N,
) -> Result<String>
    requires { N.keeps natives.now }
{
    let first = first_attempt(alloc, row)?;
    let second = first_attempt(alloc, after_attempt(row))?;
    let job = job_at(alloc, process, &first, natives);
    let other = job_at(alloc, process, &second, natives);
    compared(alloc, job, &first.inputs, other, &second.inputs)
}

/// Whether the jobs of two attempts with these inputs have one text.
fn compared(
    alloc: Global,
    job: Result<Job, TaskRefusal>,
    inputs: &Vals,
    other: Result<Job, TaskRefusal>,
    others: &Vals,
) -> Result<String> {
    match job {
        Ok(job) => beside(alloc, &job, inputs, other, others),
        Err(refusal) => refused(alloc, &refusal),
    }
}

fn beside(
    alloc: Global,
    job: &Job,
    inputs: &Vals,
    other: Result<Job, TaskRefusal>,
    others: &Vals,
) -> Result<String> {
    match other {
        Ok(other) => both(alloc, job, inputs, &other, others),
        Err(refusal) => refused(alloc, &refusal),
    }
}

fn both(alloc: Global, job: &Job, inputs: &Vals, other: &Job, others: &Vals) -> Result<String> {
    told_apart(alloc, job, inputs, other, others)?;
    Ok(String::from_str(alloc, texts_in_words(job, other))?)
}

/// Calls the law, whose contract callers of this function don't see.
fn told_apart(
    alloc: Global,
    job: &Job,
    inputs: &Vals,
    other: &Job,
    others: &Vals,
) -> Result<(), Mem> {
    attempts_are_told_apart(alloc, job, inputs, other, others)
}

fn texts_in_words(job: &Job, other: &Job) -> &'static str {
    if job.text().as_str() == other.text().as_str() {
        "one text"
    } else {
        "two texts"
    }
}
