//! `Echo`: rules that ask nothing of anybody.

ghost use Rattle.std.specs.Prelude.{◌≡◌, ◌≤◌, IfOk, OnOk};
ghost use Rattle.nf_value.specs.Plain.{list, plains_of};
ghost use Rattle.nf_job.specs.Sizes.{IsFit};
ghost use Rattle.nf_steps.specs.Echo.{after_failure, echo_outputs, echo_parts};

use nf_job::{
    Captured, Emitted, FileRefs, Job, JobParts, Outputs, Report, TaskRefusal, Txts, inputs_code,
    make_job,
};
use nf_stored::Rules;
use nf_value::{EvalRefusal, Mem, Txt, Vals, Value};
use std::alloc::Global;

/// Rules that ask nothing of anybody (own): an operator's closure gives each item back, and a task emits the text that it printed. A task
/// that printed none fails: its first attempt is tried again, and a later one is ignored.
#[derive(Debug, Clone, Copy, Drop)]
pub struct Echo;

impl Rules for Echo {
    ghost use Rattle.nf_steps.specs.Echo.{echo_are_rules, echo_rules};

    ghost meaning = { λ e. echo_rules };

    ghost keeps = { λ e. Unit {0} };

    fn gives(&self, _alloc: Global, _node: u32, item: &Value) -> Result<Value, EvalRefusal> {
        Ok(item.copy()?)
    }

    fn job(
        &self,
        alloc: Global,
        _node: u32,
        inputs: &Vals,
        n: u32,
        attempt: u32,
    ) -> Result<Job, TaskRefusal> {
        Ok(echo_job(alloc, inputs, n, attempt)?)
    }

    fn outputs(
        &self,
        alloc: Global,
        _node: u32,
        _inputs: &Vals,
        attempt: u32,
        report: &Report,
    ) -> Result<Outputs, TaskRefusal> {
        Ok(outputs_of(alloc, attempt, &report.captured)?)
    }

    ghost proper = { λ e. echo_are_rules };
}

/// The job of an attempt: the script `true` with these inputs, whatever its process.
///
/// # Errors
///
/// `Mem` if there is no memory for it.
pub fn echo_job(alloc: Global, inputs: &Vals, n: u32, attempt: u32) -> Result<Job, Mem>
    requires first { 1 ≤ attempt }
    requires last { attempt ≤ 101 }
    ensures parts { IfOk result (λ j. j ≡ echo_parts inputs.now n attempt) }
    ensures fit { OnOk result (IsFit (list (plains_of inputs.now))) }
{
    let parts = parts(alloc, inputs, n, attempt)?;
    make_job(alloc, parts)
}

/// The parts of the job of an attempt.
fn parts(alloc: Global, inputs: &Vals, n: u32, attempt: u32) -> Result<JobParts, Mem>
    ensures parts { IfOk result (λ p. p ≡ echo_parts inputs.now n attempt) }
    ensures fit { OnOk result (IsFit (list (plains_of inputs.now))) }
{
    Ok(JobParts {
        process: txt(alloc, "P")?,
        script: txt(alloc, "true")?,
        inputs: inputs_code(alloc, inputs)?,
        stdin: None,
        staged: FileRefs::of(Vec::new(alloc)),
        patterns: Txts::of(Vec::new(alloc)),
        wants_stdout: false,
        n,
        attempt,
    })
}

fn txt(alloc: Global, text: &str) -> Result<Txt, Mem>
    ensures { IfOk result (λ t. t ≡ text.now) }
{
    Ok(Txt::of(String::from_str(alloc, text)?))
}

/// What an attempt that printed this comes to.
fn outputs_of(alloc: Global, attempt: u32, captured: &Captured) -> Result<Outputs, Mem>
    ensures { IfOk result (λ o. o ≡ echo_outputs attempt captured.now) }
{
    match captured {
        Captured::None => Ok(after_failure(attempt)),
        Captured::Bad => Ok(after_failure(attempt)),
        Captured::Text(text) => {
            let value = Value::Text(text.copy()?);
            Ok(Outputs::Emits(Emitted::of(vec![in alloc; Some(value)]?)))
        }
    }
}

/// What becomes of an attempt that failed.
fn after_failure(attempt: u32) -> Outputs
    ensures { result ≡ after_failure attempt }
{
    match attempt {
        0 | 1 => Outputs::Again,
        _ => Outputs::Ignored,
    }
}
