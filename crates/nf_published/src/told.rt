//! `published`: the files that a run published.

ghost use Rattle.std.specs.Prelude.{◌≡◌, IfOk};
ghost use Rattle.nf_machine.specs.History.{IsHistory};
ghost use Rattle.nf_flow.specs.Seen.{events_of, plain_of};
ghost use Rattle.nf_tasks.specs.Memory.{program};
ghost use Rattle.nf_bodies.specs.Bodies.{rules_of};
ghost use Rattle.nf_published.specs.Published.{published_of_run};

use crate::reading::Reading;
use nf_bodies::NodeInfo;
use nf_builtins::Natives;
use nf_flow::Flow;
use nf_tasks::Targets;
use nf_value::Mem;
use std::alloc::Global;

/// The files that a run published (own; Nextflow reference documentation, "Process", "publishDir"): in the order of its
/// history, for each report that decides a task of a process, the files that this report publishes. `infos` is what is known
/// of the nodes of its plan. Of a run that ended well these are the files that its graph means, whatever the order of its
/// events (`laws`).
///
/// Takes time that grows with the history, and for each task of a process with a directive `publishDir` that of judging the
/// task's last report.
///
/// # Errors
///
/// `Mem` if there is no memory for them.
pub fn published<N: Natives>(
    alloc: Global,
    infos: &[NodeInfo],
    natives: &N,
    flow: &Flow,
) -> Result<Targets, Mem>
    requires kept { N.keeps natives.now }
    requires lawful { IsHistory (plain_of flow.now)
        (rules_of (program (N.titles natives.now) (N.answer natives.now)) infos.now) (events_of flow.now) }
    ensures { IfOk result (λ ts. ts ≡
        published_of_run (program (N.titles natives.now) (N.answer natives.now)) infos.now flow.now) }
{
    nf_bodies::laws::nodes_are_rules();
    let mut reading = Reading::begin(alloc)?;
    let history = flow.history();
    for event in history {
        reading.event(alloc, infos, natives, flow, event)?;
    }
    Ok(Targets::of(reading.targets))
}
