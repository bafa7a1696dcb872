//! The tasks of a process's node.

ghost use Rattle.std.specs.Prelude.{◌≡◌, ◌≤◌, OnOk};
ghost use Rattle.nf_value.specs.Plain.{list, plains_of};
ghost use Rattle.nf_job.specs.Sizes.{IsFit};
ghost use Rattle.nf_job.specs.declared.fault.TaskRefusal.TheVariants as refusal;
ghost use Rattle.nf_tasks.specs.Judged.{Answers};
ghost use Rattle.nf_tasks.specs.Memory.{program};
ghost use Rattle.nf_bodies.specs.Bodies.{job_of, no_process, outputs_of, published_of};

use crate::body::NodeBody;
use nf_builtins::Natives;
use nf_job::{Job, Outputs, Report, TaskFault, TaskRefusal};
use nf_tasks::{Targets, emit_of, job, targets};
use nf_value::{EvalFault, EvalKind, Place, Vals};
use std::alloc::Global;

impl NodeBody {
    /// The job of an attempt at a task of a process's node (Nextflow reference documentation, "Process"). `number` is how many tasks with
    /// equal inputs come before it, from 0. The numbers, lengths and counts in the inputs of a task that has a job fit 64 bits.
    ///
    /// # Errors
    ///
    /// `Fault` exactly if the attempt has no job, with the first reason; a node that is no process's has none. `Mem` for want of memory.
    pub fn job<N: Natives>(
        &self,
        alloc: Global,
        inputs: &Vals,
        number: u32,
        attempt: u32,
        natives: &N,
    ) -> Result<Job, TaskRefusal>
        requires kept { N.keeps natives.now }
        requires first { 1 ≤ attempt }
        requires last { attempt ≤ 101 }
        ensures answer { Answers (job_of (program (N.titles natives.now) (N.answer natives.now)) self.now
            inputs.now number attempt) result }
        ensures fit { OnOk result (IsFit (list (plains_of inputs.now))) }
    {
        match self {
            NodeBody::Process(spec) => job(alloc, spec, inputs, number, attempt, natives),
            _ => Err(no_process()),
        }
    }

    /// What the report of an attempt at a task of a process's node amounts to.
    ///
    /// # Errors
    ///
    /// `Fault` exactly if the attempt has no job, with the same reason, or if the report doesn't fail and an output or a directive
    /// `publishDir` has no value, with the first such fault. `Mem` for want of memory.
    pub fn outputs<N: Natives>(
        &self,
        alloc: Global,
        inputs: &Vals,
        attempt: u32,
        report: &Report,
        natives: &N,
    ) -> Result<Outputs, TaskRefusal>
        requires { N.keeps natives.now }
        ensures { Answers (outputs_of (program (N.titles natives.now) (N.answer natives.now)) self.now
            inputs.now attempt report.now) result }
    {
        match self {
            NodeBody::Process(spec) => emit_of(alloc, spec, inputs, attempt, report, natives),
            _ => Err(no_process()),
        }
    }

    /// The files that the report of an attempt at a task publishes (Nextflow reference documentation, "Process", "publishDir"). A failing
    /// report publishes nothing.
    ///
    /// # Errors
    ///
    /// As for [`outputs`](NodeBody::outputs).
    pub fn targets<N: Natives>(
        &self,
        alloc: Global,
        inputs: &Vals,
        attempt: u32,
        report: &Report,
        natives: &N,
    ) -> Result<Targets, TaskRefusal>
        requires { N.keeps natives.now }
        ensures { Answers (published_of (program (N.titles natives.now) (N.answer natives.now)) self.now
            inputs.now attempt report.now) result }
    {
        match self {
            NodeBody::Process(spec) => targets(alloc, spec, inputs, attempt, report, natives),
            _ => Err(no_process()),
        }
    }
}

/// A node that is no process's has no task.
pub(crate) fn no_process() -> TaskRefusal
    ensures { result ≡ refusal.Fault no_process }
{
    TaskRefusal::Fault(TaskFault::Eval(EvalFault {
        kind: EvalKind::WrongKind,
        place: Place { line: 0, col: 0 },
    }))
}
