//! What rows ask of reports.

use crate::attempts::{Attempt, after, after_attempt, first_attempt, part};
use crate::files::{found, push_texts};
use crate::jobs::job_at;
use crate::refusals::refused;
use anyhow::{Context, Result, bail};
use nf_builtins::Natives;
use nf_job::{Captured, Emitted, Job, Outputs, Report, TaskRefusal};
use nf_record::{Form, Record, record_text};
use nf_tasks::{ProcessSpec, Target, Targets, emit_of, targets};
use nf_value::{Txt, Value};
use std::alloc::Global;
use std::slice;

/// `ATTEMPT | EXIT | CAPTURED | FOUND`: what the report amounts to, and what it publishes.
pub(crate) fn report<N: Natives>(
    alloc: Global,
    row: &str,
    process: &ProcessSpec,
    natives: &N,
) -> Result<String>
    requires { N.keeps natives.now }
{
    let attempt = first_attempt(alloc, row)?;
    let report = report_of(alloc, after_attempt(row))?;
    amounts(alloc, process, &attempt, &report, natives)
}

/// What a report of an attempt amounts to, and what it publishes.
pub(crate) fn amounts<N: Natives>(
    alloc: Global,
    process: &ProcessSpec,
    attempt: &Attempt,
    report: &Report,
    natives: &N,
) -> Result<String>
    requires { N.keeps natives.now }
{
    let outputs = outputs_at(alloc, process, attempt, report, natives);
    let targets = targets_at(alloc, process, attempt, report, natives);
    shown_amount(alloc, outputs, targets)
}

fn outputs_at<N: Natives>(
    alloc: Global,
    process: &ProcessSpec,
    attempt: &Attempt,
    report: &Report,
    natives: &N,
) -> Result<Outputs, TaskRefusal>
    requires { N.keeps natives.now }
{
    emit_of(
        alloc,
        process,
        &attempt.inputs,
        attempt.number,
        report,
        natives,
    )
}

fn targets_at<N: Natives>(
    alloc: Global,
    process: &ProcessSpec,
    attempt: &Attempt,
    report: &Report,
    natives: &N,
) -> Result<Targets, TaskRefusal>
    requires { N.keeps natives.now }
{
    targets(
        alloc,
        process,
        &attempt.inputs,
        attempt.number,
        report,
        natives,
    )
}

fn shown_amount(
    alloc: Global,
    outputs: Result<Outputs, TaskRefusal>,
    targets: Result<Targets, TaskRefusal>,
) -> Result<String> {
    match outputs {
        Ok(outputs) => with_targets(shown_outputs(alloc, &outputs)?, targets),
        Err(refusal) => refused(alloc, &refusal),
    }
}

fn with_targets(shown: String, targets: Result<Targets, TaskRefusal>) -> Result<String> {
    let mut shown = shown;
    match targets {
        Ok(targets) => push_targets(&mut shown, targets.items())?,
        Err(_) => bail!("outputs, but no targets"),
    }
    Ok(shown)
}

fn push_targets(shown: &mut String, targets: &[Target]) -> Result<()> {
    for target in targets {
        push_target(shown, target)?;
    }
    Ok(())
}

/// A file that is published, with the first byte of its digest.
fn push_target(shown: &mut String, target: &Target) -> Result<()> {
    let name = target.name.as_str();
    let first = target.digest.0[0];
    write!(shown, ", publishes {name} ({first})")?;
    Ok(())
}

/// `ATTEMPT | EXIT | CAPTURED | FOUND`: the record of the attempt's job and the report, after its number of bytes.
pub(crate) fn record<N: Natives>(
    alloc: Global,
    row: &str,
    process: &ProcessSpec,
    natives: &N,
) -> Result<String>
    requires { N.keeps natives.now }
{
    let attempt = first_attempt(alloc, row)?;
    let job = job_at(alloc, process, &attempt, natives);
    recorded(alloc, job, after_attempt(row))
}

fn recorded(alloc: Global, job: Result<Job, TaskRefusal>, row: &str) -> Result<String> {
    match job {
        Ok(job) => shown_record(alloc, job.text().copy()?, row),
        Err(_) => bail!("no job"),
    }
}

fn shown_record(alloc: Global, job: Txt, row: &str) -> Result<String> {
    let report = report_of(alloc, row)?;
    let bytes = record_of(alloc, job, report)?;
    shown_bytes(alloc, bytes)
}

fn shown_bytes(alloc: Global, bytes: Vec<u8>) -> Result<String> {
    let len = bytes.len();
    let Ok(text) = String::from_utf8(bytes) else {
        bail!("no text");
    };
    Ok(format!(in alloc; "{len} bytes, {text}")?)
}

/// The record of a job and its report.
pub(crate) fn record_of(alloc: Global, job: Txt, report: Report) -> Result<Vec<u8>> {
    let form = Form::Current;
    Ok(record_text(alloc, &Record { form, job, report })?)
}

/// The report of an exit status, what was captured, and the lists of files.
fn report_of(alloc: Global, row: &str) -> Result<Report> {
    let exit = part(row).parse::<i32>()?;
    let captured = captured_of(alloc, part(after(row)))?;
    let found = found(alloc, part(after(after(row))))?;
    Ok(Report {
        exit,
        captured,
        found,
    })
}

/// `none`, `bad`, or a text in double quotes, in which `\n` stands for a line end.
fn captured_of(alloc: Global, text: &str) -> Result<Captured> {
    match text {
        "none" => Ok(Captured::None),
        "bad" => Ok(Captured::Bad),
        text => Ok(Captured::Text(unquoted(alloc, text)?)),
    }
}

/// The text that stands in double quotes, in which `\n` stands for a line end.
pub(crate) fn unquoted(alloc: Global, text: &str) -> Result<Txt> {
    let text = text.strip_prefix('"').context("no quote")?;
    let text = text.strip_suffix('"').context("no quote")?;
    Ok(Txt::of(text.replace(alloc, "\\n", "\n")?))
}

fn shown_outputs(alloc: Global, outputs: &Outputs) -> Result<String> {
    match outputs {
        Outputs::Emits(emitted) => shown_values(alloc, emitted),
        Outputs::Ignored => Ok(String::from_str(alloc, "ignored")?),
        Outputs::Again => Ok(String::from_str(alloc, "again")?),
        Outputs::Failed(fault) => Ok(format!(in alloc; "failed, {fault}")?),
    }
}

/// The values of the outputs, each after `emits`, and `nothing` for an output that emits nothing.
fn shown_values(alloc: Global, emitted: &Emitted) -> Result<String> {
    let mut shown = String::from_str(alloc, "emits")?;
    for value in emitted.items() {
        push_value(alloc, &mut shown, value)?;
    }
    Ok(shown)
}

fn push_value(alloc: Global, shown: &mut String, value: &Option<Value>) -> Result<()> {
    match value {
        Some(value) => push_texts(alloc, shown, slice::from_ref(value)),
        None => Ok(shown.push_str(" nothing")?),
    }
}
