//! The job of an attempt at a task.

ghost use Rattle.std.specs.Prelude.{◌≡◌, ◌≤◌, IfOk, IsOk, Ok, OnOk};
ghost use Rattle.nf_value.specs.Plain.{list, plains_of};
ghost use Rattle.nf_job.specs.Sizes.{IsFit};
ghost use Rattle.nf_tasks.specs.Judged.{Answers};
ghost use Rattle.nf_tasks.specs.Memory.{process_of, program};
ghost use Rattle.nf_tasks.specs.Prepared.{parts_of, staged_of, tag_at};

use crate::failure::wants_stdout;
use crate::inputs::bind;
use crate::prepared::{prepare, seen_by, tag_text, unclashing};
use crate::process::ProcessSpec;
use nf_builtins::Natives;
use nf_job::{FileRefs, Job, JobParts, TaskRefusal, inputs_code, make_job};
use nf_value::{Mem, Txt, Vals};
use std::alloc::Global;

/// The files that are put into a task's folder, in the order of the inputs.
///
/// # Errors
///
/// `Fault` exactly if an input has no item of its shape, as for [`bind`](crate::bind), or else if a file's name stood before: then
/// StageClash with the first such name. `Mem` if there is no memory.
pub fn staged(alloc: Global, spec: &ProcessSpec, inputs: &Vals) -> Result<FileRefs, TaskRefusal>
    ensures { Answers (staged_of spec.now.inputs.items inputs.now) result }
{
    let bound = bind(alloc, spec, inputs)?;
    unclashing(alloc, bound.staged)
}

/// The text of a task's `tag` (Nextflow reference documentation, "Process", "tag"), or nothing where the process has none.
///
/// # Errors
///
/// `Mem` if there is no memory for it.
pub fn tag<N: Natives>(
    alloc: Global,
    spec: &ProcessSpec,
    inputs: &Vals,
    attempt: u32,
    natives: &N,
) -> Result<Option<Txt>, Mem>
    requires kept { N.keeps natives.now }
    requires job { IsOk (parts_of (process_of (program (N.titles natives.now) (N.answer natives.now)) spec.now)
        inputs.now 0 attempt) }
    ensures { IfOk result
        (λ t. tag_at (process_of (program (N.titles natives.now) (N.answer natives.now)) spec.now) inputs.now attempt
        ≡ Ok t) }
{
    match tag_at(alloc, spec, inputs, attempt, natives) {
        Ok(tag) => Ok(tag),
        // An attempt that has a job has no fault here.
        Err(_) => Err(Mem),
    }
}

fn tag_at<N: Natives>(
    alloc: Global,
    spec: &ProcessSpec,
    inputs: &Vals,
    attempt: u32,
    natives: &N,
) -> Result<Option<Txt>, TaskRefusal>
    requires { N.keeps natives.now }
    ensures { Answers (tag_at (process_of (program (N.titles natives.now) (N.answer natives.now)) spec.now)
        inputs.now attempt) result }
{
    let bound = bind(alloc, spec, inputs)?;
    let seen = seen_by(alloc, spec, &bound.values, attempt, natives)?;
    tag_text(alloc, &spec.tag, &seen, natives)
}

/// The parts of the job of an attempt at a task. `n` is how many tasks with equal inputs come before it, from 0; `attempt` counts from 1.
/// Of inputs that have a job all numbers, lengths and counts fit 64 bits.
///
/// # Errors
///
/// `Fault` exactly if the attempt has no job, with the first fault in this order: the inputs, `cpus`, `tag`, a clash of staged files, the
/// script, the patterns of outputs (own). `Mem` if there is no memory.
pub fn parts<N: Natives>(
    alloc: Global,
    spec: &ProcessSpec,
    inputs: &Vals,
    n: u32,
    attempt: u32,
    natives: &N,
) -> Result<JobParts, TaskRefusal>
    requires { N.keeps natives.now }
    ensures parts { Answers (parts_of (process_of (program (N.titles natives.now) (N.answer natives.now)) spec.now)
        inputs.now n attempt) result }
    ensures fit { OnOk result (IsFit (list (plains_of inputs.now))) }
{
    let prepared = prepare(alloc, spec, inputs, attempt, natives)?;
    let process = spec.name.copy()?;
    let code = inputs_code(alloc, inputs)?;
    let wants_stdout = wants_stdout(&spec.outputs);
    Ok(JobParts {
        process,
        script: prepared.script,
        inputs: code,
        stdin: prepared.stdin,
        staged: prepared.staged,
        patterns: prepared.patterns,
        wants_stdout,
        n,
        attempt,
    })
}

/// The job of an attempt at a task, made of its [`parts`]. The attempt is from 1 to 101. Of inputs that have a job all numbers, lengths and
/// counts fit 64 bits.
///
/// # Errors
///
/// As for [`parts`].
pub fn job<N: Natives>(
    alloc: Global,
    spec: &ProcessSpec,
    inputs: &Vals,
    n: u32,
    attempt: u32,
    natives: &N,
) -> Result<Job, TaskRefusal>
    requires kept { N.keeps natives.now }
    requires first { 1 ≤ attempt }
    requires last { attempt ≤ 101 }
    ensures parts { Answers (parts_of (process_of (program (N.titles natives.now) (N.answer natives.now)) spec.now)
        inputs.now n attempt) result }
    ensures fit { OnOk result (IsFit (list (plains_of inputs.now))) }
{
    let parts = parts(alloc, spec, inputs, n, attempt, natives)?;
    Ok(make_job(alloc, parts)?)
}
