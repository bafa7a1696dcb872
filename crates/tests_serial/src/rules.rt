//! The rules of a small graph.

ghost use Rattle.std.specs.Prelude.{◌≡◌, ◌≤◌, IfOk, OnOk};
ghost use Rattle.nf_value.specs.Plain.{list, plains_of};
ghost use Rattle.nf_value.specs.View.{plain_of};
ghost use Rattle.nf_job.specs.Sizes.{IsFit};
ghost use Rattle.nf_stored.specs.Answers.{AnswersItem, AnswersTask};
ghost use Rattle.nf_stored.specs.Attempts.{TellsApart};
ghost use Rattle.tests_serial.specs.Small.{small_answer, small_job, small_outputs, small_parts, small_rules, status_of};

use nf_job::{
    Emitted, FileRefs, Job, JobParts, Outputs, Report, TaskFault, TaskRefusal, Txts, inputs_code,
    make_job,
};
use nf_stored::Rules;
use nf_stored::laws::texts_tell_apart;
use nf_value::{EvalFault, EvalKind, EvalRefusal, Mem, Place, Txt, Vals, Value};
use std::alloc::Global;

/// Node 1 gives each item back. Node 2 is a process: its first attempt is tried again, and a later one emits its status.
#[derive(Drop)]
pub(crate) struct Small;

impl Rules for Small {
    ghost use Rattle.tests_serial.specs.Small.{small_are_rules, small_rules};

    ghost meaning = { λ _. small_rules };

    ghost keeps = { λ _. Unit {0} };

    fn gives(&self, _alloc: Global, node: u32, item: &Value) -> Result<Value, EvalRefusal> {
        small_answer(node, item)
    }

    fn job(
        &self,
        alloc: Global,
        node: u32,
        inputs: &Vals,
        n: u32,
        attempt: u32,
    ) -> Result<Job, TaskRefusal> {
        small_job(alloc, node, inputs, n, attempt)
    }

    fn outputs(
        &self,
        alloc: Global,
        node: u32,
        inputs: &Vals,
        attempt: u32,
        report: &Report,
    ) -> Result<Outputs, TaskRefusal> {
        small_outputs(alloc, node, inputs, attempt, report)
    }

    ghost proper = { λ _. small_are_rules };
}

/// The jobs of these rules tell attempts apart.
pub(crate) fn small_tells_apart()
    ensures { TellsApart small_rules }
{
    texts_tell_apart();
}

const NO_CLOSURE: EvalFault = EvalFault {
    kind: EvalKind::NoMethod,
    place: Place { line: 1, col: 1 },
};

fn small_answer(node: u32, item: &Value) -> Result<Value, EvalRefusal>
    ensures { AnswersItem (small_answer node (plain_of item.now)) result }
{
    match node {
        1 => Ok(item.copy()?),
        _ => Err(EvalRefusal::Fault(NO_CLOSURE)),
    }
}

fn small_parts(alloc: Global, inputs: &Vals, n: u32, attempt: u32) -> Result<JobParts, Mem>
    ensures parts { IfOk result (λ p. p ≡ small_parts inputs.now n attempt) }
    ensures fit { OnOk result (IsFit (list (plains_of inputs.now))) }
{
    Ok(JobParts {
        process: txt(alloc, "P")?,
        script: txt(alloc, "true")?,
        inputs: inputs_code(alloc, inputs)?,
        stdin: None,
        staged: FileRefs::of(Vec::new(alloc)),
        patterns: Txts::of(Vec::new(alloc)),
        wants_stdout: false,
        n,
        attempt,
    })
}

fn small_job(
    alloc: Global,
    node: u32,
    inputs: &Vals,
    n: u32,
    attempt: u32,
) -> Result<Job, TaskRefusal>
    requires first { 1 ≤ attempt }
    requires last { attempt ≤ 101 }
    ensures answer { AnswersTask (small_job node inputs.now n attempt) result }
    ensures fit { OnOk result (IsFit (list (plains_of inputs.now))) }
{
    match node {
        2 => {
            let parts = small_parts(alloc, inputs, n, attempt)?;
            Ok(make_job(alloc, parts)?)
        }
        _ => Err(TaskRefusal::Fault(TaskFault::BadStdout)),
    }
}

fn small_outputs(
    alloc: Global,
    node: u32,
    inputs: &Vals,
    attempt: u32,
    report: &Report,
) -> Result<Outputs, TaskRefusal>
    ensures { AnswersTask (small_outputs node inputs.now attempt report.now) result }
{
    match node {
        2 => Ok(status_of(alloc, attempt, report)?),
        _ => Err(TaskRefusal::Fault(TaskFault::BadStdout)),
    }
}

fn status_of(alloc: Global, attempt: u32, report: &Report) -> Result<Outputs, Mem>
    ensures { IfOk result (λ o. o ≡ status_of attempt report.now) }
{
    match attempt {
        0 | 1 => Ok(Outputs::Again),
        _ => {
            let status = Value::Int(i64::from(report.exit));
            Ok(Outputs::Emits(Emitted::of(vec![in alloc; Some(status)]?)))
        }
    }
}

fn txt(alloc: Global, text: &str) -> Result<Txt, Mem>
    ensures { IfOk result (λ t. t ≡ text.now) }
{
    Ok(Txt::of(String::from_str(alloc, text)?))
}
