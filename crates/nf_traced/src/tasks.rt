//! The tasks of a run as its trace shows them, and the trace's text.

ghost use Rattle.std.specs.Prelude.{◌≡◌, ◌≤◌, ◌++◌, IfOk, OnOk};
ghost use Rattle.nf_flow.specs.Questions.{inputs_in};
ghost use Rattle.nf_graph.specs.Rules.{last_attempt};
ghost use Rattle.nf_plan.specs.Plans.{name_in};
ghost use Rattle.nf_tasks.specs.Memory.{program};
ghost use Rattle.nf_trace.specs.Line.{trace_of};
ghost use Rattle.nf_trace.specs.Task.{lines_from};
ghost use Rattle.nf_traced.specs.Takes.{IsProperRun};
ghost use Rattle.nf_traced.specs.Traced.{nodes_of, task_by, task_of, traced_of};

use crate::attempts::attempts;
use crate::taken::{Taken, takes};
use nf_bodies::NodeInfo;
use nf_builtins::Natives;
use nf_flow::Flow;
use nf_trace::{Attempts, TracedTask, trace_text};
use nf_value::{Mem, Txt, Vals};
use std::alloc::Global;

/// The trace of a run (own; Nextflow documentation, "Tracing & visualisation", "Trace file"), also of one that stopped: the
/// text of [`traced`]. Its lines have the numbers of the tasks that processes took, from 1; a task without a job has no line.
///
/// # Errors
///
/// `Mem` if there is no memory for it.
pub fn trace<N: Natives>(
    alloc: Global,
    infos: &[NodeInfo],
    natives: &N,
    flow: &Flow,
) -> Result<Txt, Mem>
    requires kept { N.keeps natives.now }
    requires run { IsProperRun flow.now }
    ensures { IfOk result (λ t. t ≡ trace_of (lines_from 1 (traced_of
        (nodes_of (program (N.titles natives.now) (N.answer natives.now)) infos.now) flow.now))) }
{
    let tasks = traced(alloc, infos, natives, flow)?;
    trace_text(alloc, tasks.as_slice())
}

/// The tasks that the processes of a run took, in the order of its history (own). `infos` is what is known of the nodes of its
/// plan. A task has the path of its process's call, the attempts that it reached and that have a job, each with its key and
/// its tag, and the status after its ticket's last event; a task that is given up after a failed attempt is `Aborted`.
///
/// Takes time that grows with the history, and for each attempt that of making its job.
///
/// # Errors
///
/// `Mem` if there is no memory for them.
pub fn traced<N: Natives>(
    alloc: Global,
    infos: &[NodeInfo],
    natives: &N,
    flow: &Flow,
) -> Result<Vec<TracedTask>, Mem>
    requires kept { N.keeps natives.now }
    requires run { IsProperRun flow.now }
    ensures { IfOk result (λ v. v.items ≡ traced_of
        (nodes_of (program (N.titles natives.now) (N.answer natives.now)) infos.now) flow.now) }
{
    let takes = takes(alloc, flow)?;
    let mut tasks = Vec::new(alloc);
    for taken in &takes {
        push_task(alloc, &mut tasks, infos, natives, flow, taken)?;
    }
    Ok(tasks)
}

/// Adds the task of a take, if it is one of a process.
fn push_task<N: Natives>(
    alloc: Global,
    tasks: &mut Vec<TracedTask>,
    infos: &[NodeInfo],
    natives: &N,
    flow: &Flow,
    taken: &Taken,
) -> Result<(), Mem>
    requires kept { N.keeps natives.now }
    requires few { taken.now.reached ≤ last_attempt }
    ensures { OnOk result (tasks.new.items ≡ tasks.old.items
        ++ task_by (nodes_of (program (N.titles natives.now) (N.answer natives.now)) infos.now)
        taken.now (inputs_in flow.now taken.now.ticket)) }
{
    let Some(inputs) = flow.inputs_of(taken.ticket)? else {
        return Ok(());
    };
    tasks.push(task(alloc, infos, natives, taken, &inputs)?)?;
    Ok(())
}

fn task<N: Natives>(
    alloc: Global,
    infos: &[NodeInfo],
    natives: &N,
    taken: &Taken,
    inputs: &Vals,
) -> Result<TracedTask, Mem>
    requires kept { N.keeps natives.now }
    requires few { taken.now.reached ≤ last_attempt }
    ensures { IfOk result (λ t. t ≡ task_of
        (nodes_of (program (N.titles natives.now) (N.answer natives.now)) infos.now) taken.now inputs.now) }
{
    let name = name_at(alloc, infos, taken.node)?;
    let attempts = attempts(alloc, infos, natives, taken, inputs)?;
    Ok(TracedTask {
        name,
        attempts: Attempts::of(attempts),
        status: taken.status,
    })
}

/// The name of the node at a place.
fn name_at(alloc: Global, infos: &[NodeInfo], node: u32) -> Result<Txt, Mem>
    ensures { IfOk result (λ t. t ≡ name_in infos.now node) }
{
    match infos.get(node as usize) {
        Some(info) => info.name.copy(),
        None => Ok(Txt::of(String::new(alloc))),
    }
}
