//! What the report of an attempt publishes.

ghost use Rattle.std.specs.Prelude.{◌≡◌, IfOk, Err, List};
ghost use Rattle.nf_bodies.specs.Bodies.{body_in, published_of};
ghost use Rattle.nf_tasks.specs.Judged.{Answers, Judged};
ghost use Rattle.nf_tasks.specs.Memory.{program};
ghost use Rattle.nf_tasks.specs.declared.target_list.Target.{Target as PublishedFile};
ghost use Rattle.nf_published.specs.Published.{publishing_of};
ghost use Rattle.nf_published.specs.Reading.{judged_targets, may_publish_body};

use crate::reading::Tried;
use nf_bodies::{NodeBody, NodeInfo};
use nf_builtins::Natives;
use nf_job::{Report, TaskRefusal};
use nf_tasks::Targets;
use nf_value::{Mem, Vals};
use std::alloc::Global;

/// Whether a report of a task of the node may publish a file: no process without a directive `publishDir` does.
pub(crate) fn may_publish(infos: &[NodeInfo], node: u32) -> bool
    ensures { result ≡ may_publish_body (body_in infos.now node) }
{
    match infos.get(node as usize) {
        Some(info) => may_publish_body(&info.body),
        None => false,
    }
}

fn may_publish_body(body: &NodeBody) -> bool
    ensures { result ≡ may_publish_body body.now }
{
    match body {
        NodeBody::Process(spec) => !spec.publishes.is_empty(),
        _ => false,
    }
}

/// The files that a report publishes whose task stands so, and has these inputs; none if its publishing has a fault.
pub(crate) fn targets_at<N: Natives>(
    alloc: Global,
    infos: &[NodeInfo],
    natives: &N,
    tried: Tried,
    inputs: &Vals,
    report: &Report,
) -> Result<Targets, Mem>
    requires { N.keeps natives.now }
    ensures { let n = program (N.titles natives.now) (N.answer natives.now) in
        IfOk result (λ ts. ts ≡
        judged_targets (publishing_of n infos.now tried.node inputs.now tried.attempt report.now)) }
{
    match infos.get(tried.node as usize) {
        Some(info) => targets_by(alloc, &info.body, natives, inputs, tried.attempt, report),
        None => Ok(Targets::of(Vec::new(alloc))),
    }
}

fn targets_by<N: Natives>(
    alloc: Global,
    body: &NodeBody,
    natives: &N,
    inputs: &Vals,
    attempt: u32,
    report: &Report,
) -> Result<Targets, Mem>
    requires { N.keeps natives.now }
    ensures { let n = program (N.titles natives.now) (N.answer natives.now) in
        IfOk result (λ ts. ts ≡ judged_targets (published_of n body.now inputs.now attempt report.now)) }
{
    match body.targets(alloc, inputs, attempt, report, natives) {
        Ok(targets) => Ok(targets),
        Err(refusal) => no_targets(alloc, refusal),
    }
}

/// A fault publishes nothing.
fn no_targets(alloc: Global, refusal: TaskRefusal) -> Result<Targets, Mem>
    ensures { (due : Judged (List PublishedFile)) → Answers due (Err refusal)
        → IfOk result (λ ts. ts ≡ judged_targets due) }
{
    match refusal {
        TaskRefusal::Fault(_) => Ok(Targets::of(Vec::new(alloc))),
        TaskRefusal::Mem => Err(Mem),
    }
}
