//! The attempts at a task that a trace may show.

ghost use Rattle.std.specs.Prelude.{◌≡◌, ◌≤◌, [], ◌∷◌, ◌++◌, Result, Ok, Err, IfOk, IsOk, OnOk};
ghost use Rattle.nf_bodies.specs.Bodies.{body_in, job_of, rules_of};
ghost use Rattle.nf_graph.specs.Rules.{last_attempt};
ghost use Rattle.nf_job.specs.declared.fault.TaskFault.{TaskFault};
ghost use Rattle.nf_job.specs.declared.parts.JobParts.{JobParts};
ghost use Rattle.nf_stored.specs.Answers.{AnswersTask};
ghost use Rattle.nf_tasks.specs.Memory.{program};
ghost use Rattle.nf_traced.specs.Traced.{IsJobIfAny, attempt_by, attempts_to, nodes_of, tag_in};

use crate::taken::Taken;
use nf_bodies::{NodeBody, NodeInfo, NodeRules};
use nf_builtins::Natives;
use nf_job::{Job, TaskRefusal};
use nf_stored::Rules;
use nf_tasks::tag;
use nf_trace::Attempt;
use nf_value::{Mem, Txt, Vals};
use std::alloc::Global;

/// The attempts that a task reached and that have a job, in their order.
pub(crate) fn attempts<N: Natives>(
    alloc: Global,
    infos: &[NodeInfo],
    natives: &N,
    taken: &Taken,
    inputs: &Vals,
) -> Result<Vec<Attempt>, Mem>
    requires kept { N.keeps natives.now }
    requires few { taken.now.reached ≤ last_attempt }
    ensures { IfOk result (λ v. v.items ≡ attempts_to
        (nodes_of (program (N.titles natives.now) (N.answer natives.now)) infos.now)
        taken.now inputs.now taken.now.reached) }
{
    let mut attempts = Vec::new(alloc);
    for number in 0..taken.reached {
        push_attempt(
            alloc,
            &mut attempts,
            infos,
            natives,
            taken,
            inputs,
            number + 1,
        )?;
    }
    Ok(attempts)
}

/// Adds the attempt of this number, if it has a job.
fn push_attempt<N: Natives>(
    alloc: Global,
    attempts: &mut Vec<Attempt>,
    infos: &[NodeInfo],
    natives: &N,
    taken: &Taken,
    inputs: &Vals,
    number: u32,
) -> Result<(), Mem>
    requires kept { N.keeps natives.now }
    requires first { 1 ≤ number }
    requires last { number ≤ last_attempt }
    ensures { let n = program (N.titles natives.now) (N.answer natives.now) in
        OnOk result (attempts.new.items ≡ attempts.old.items
        ++ attempt_by ((rules_of n infos.now).job taken.now.node inputs.now taken.now.n number)
        (tag_in n (body_in infos.now taken.now.node) inputs.now number)) }
{
    let Some(job) = job_at(alloc, infos, natives, taken, inputs, number)? else {
        return Ok(());
    };
    let tag = tag_at(alloc, infos, natives, taken, inputs, number)?;
    attempts.push(attempt_of(&job, tag))?;
    Ok(())
}

fn attempt_of(job: &Job, tag: Option<Txt>) -> Attempt
    ensures { result ∷ [] ≡ attempt_by (Ok job.now) tag }
{
    Attempt {
        key: *job.key(),
        tag,
    }
}

/// The job of the attempt of this number, if it has one.
fn job_at<N: Natives>(
    alloc: Global,
    infos: &[NodeInfo],
    natives: &N,
    taken: &Taken,
    inputs: &Vals,
    number: u32,
) -> Result<Option<Job>, Mem>
    requires kept { N.keeps natives.now }
    requires first { 1 ≤ number }
    requires last { number ≤ last_attempt }
    ensures { IfOk result (IsJobIfAny
        ((rules_of (program (N.titles natives.now) (N.answer natives.now)) infos.now).job
        taken.now.node inputs.now taken.now.n number)) }
{
    let rules = NodeRules::new(infos, natives);
    match rules.job(alloc, taken.node, inputs, taken.n, number) {
        Ok(job) => Ok(Some(job)),
        Err(refusal) => no_job(refusal),
    }
}

/// An attempt that is refused has no job.
fn no_job(refusal: TaskRefusal) -> Result<Option<Job>, Mem>
    ensures { (due : Result JobParts TaskFault) → AnswersTask due (Err refusal) → IfOk result (IsJobIfAny due) }
{
    match refusal {
        TaskRefusal::Fault(_) => Ok(None),
        TaskRefusal::Mem => Err(Mem),
    }
}

/// The tag of the attempt of this number, which has a job.
fn tag_at<N: Natives>(
    alloc: Global,
    infos: &[NodeInfo],
    natives: &N,
    taken: &Taken,
    inputs: &Vals,
    number: u32,
) -> Result<Option<Txt>, Mem>
    requires kept { N.keeps natives.now }
    requires job { IsOk ((rules_of (program (N.titles natives.now) (N.answer natives.now)) infos.now).job
        taken.now.node inputs.now taken.now.n number) }
    ensures { IfOk result (λ t. t ≡ tag_in (program (N.titles natives.now) (N.answer natives.now))
        (body_in infos.now taken.now.node) inputs.now number) }
{
    match infos.get(taken.node as usize) {
        Some(info) => tag_of(alloc, &info.body, natives, taken.n, inputs, number),
        None => Ok(None),
    }
}

/// The tag of an attempt at a task of a node's, which has a job. `n` is how many tasks with equal inputs come before it.
fn tag_of<N: Natives>(
    alloc: Global,
    body: &NodeBody,
    natives: &N,
    n: u32,
    inputs: &Vals,
    number: u32,
) -> Result<Option<Txt>, Mem>
    requires kept { N.keeps natives.now }
    requires job { IsOk
        (job_of (program (N.titles natives.now) (N.answer natives.now)) body.now inputs.now n number) }
    ensures { IfOk result (λ t. t ≡
        tag_in (program (N.titles natives.now) (N.answer natives.now)) body.now inputs.now number) }
{
    match body {
        NodeBody::Process(spec) => tag(alloc, spec, inputs, number, natives),
        _ => Ok(None),
    }
}
