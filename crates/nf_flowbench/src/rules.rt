//! Rules that ask nothing of anybody.

ghost use Rattle.std.specs.Prelude.{◌≡◌, ◌≤◌, IfOk, OnOk};
ghost use Rattle.nf_value.specs.Plain.{list, plains_of};
ghost use Rattle.nf_job.specs.Sizes.{IsFit};
ghost use Rattle.nf_stored.specs.Answers.{AnswersTask};
ghost use Rattle.nf_stored.specs.Attempts.{TellsApart};
ghost use Rattle.nf_flowbench.specs.Through.{job_at, outputs_at, parts_of, through_rules};

use nf_job::{
    Emitted, FileRefs, Job, JobParts, Outputs, Report, TaskFault, TaskRefusal, Txts, inputs_code,
    make_job,
};
use nf_stored::Rules;
use nf_stored::laws::texts_tell_apart;
use nf_value::{EvalRefusal, Mem, Txt, Vals, Value};
use std::alloc::Global;

/// Closures give each item back, and a task of node 1 emits its exit status. No other node has tasks.
#[derive(Drop)]
pub(crate) struct Through;

impl Rules for Through {
    ghost use Rattle.nf_flowbench.specs.Through.{through_are_rules, through_rules};

    ghost meaning = { λ _. through_rules };

    ghost keeps = { λ _. Unit {0} };

    fn gives(&self, _alloc: Global, _node: u32, item: &Value) -> Result<Value, EvalRefusal> {
        Ok(item.copy()?)
    }

    fn job(
        &self,
        alloc: Global,
        node: u32,
        inputs: &Vals,
        n: u32,
        attempt: u32,
    ) -> Result<Job, TaskRefusal> {
        job_at(alloc, node, inputs, n, attempt)
    }

    fn outputs(
        &self,
        alloc: Global,
        node: u32,
        _inputs: &Vals,
        _attempt: u32,
        report: &Report,
    ) -> Result<Outputs, TaskRefusal> {
        outputs_at(alloc, node, report)
    }

    ghost proper = { λ _. through_are_rules };
}

/// The jobs of these rules tell attempts apart.
pub(crate) fn tells_apart()
    ensures { TellsApart through_rules }
{
    texts_tell_apart();
}

fn job_at(alloc: Global, node: u32, inputs: &Vals, n: u32, attempt: u32) -> Result<Job, TaskRefusal>
    requires first { 1 ≤ attempt }
    requires last { attempt ≤ 101 }
    ensures answer { AnswersTask (job_at node inputs.now n attempt) result }
    ensures fit { OnOk result (IsFit (list (plains_of inputs.now))) }
{
    match node {
        1 => {
            let parts = parts(alloc, inputs, n, attempt)?;
            Ok(make_job(alloc, parts)?)
        }
        _ => Err(TaskRefusal::Fault(TaskFault::BadStdout)),
    }
}

fn parts(alloc: Global, inputs: &Vals, n: u32, attempt: u32) -> Result<JobParts, Mem>
    ensures parts { IfOk result (λ p. p ≡ parts_of inputs.now n attempt) }
    ensures fit { OnOk result (IsFit (list (plains_of inputs.now))) }
{
    Ok(JobParts {
        process: txt(alloc, "P")?,
        script: txt(alloc, "true")?,
        inputs: inputs_code(alloc, inputs)?,
        stdin: None,
        staged: FileRefs::of(Vec::new(alloc)),
        patterns: Txts::of(Vec::new(alloc)),
        wants_stdout: false,
        n,
        attempt,
    })
}

fn outputs_at(alloc: Global, node: u32, report: &Report) -> Result<Outputs, TaskRefusal>
    ensures { AnswersTask (outputs_at node report.now) result }
{
    match node {
        1 => {
            let status = Value::Int(i64::from(report.exit));
            Ok(Outputs::Emits(Emitted::of(vec![in alloc; Some(status)]?)))
        }
        _ => Err(TaskRefusal::Fault(TaskFault::BadStdout)),
    }
}

fn txt(alloc: Global, text: &str) -> Result<Txt, Mem>
    ensures { IfOk result (λ t. t ≡ text.now) }
{
    Ok(Txt::of(String::from_str(alloc, text)?))
}
