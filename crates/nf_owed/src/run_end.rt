//! `end_of_run`: what a finished run comes to.

ghost use Rattle.std.specs.Prelude.{◌≡◌, ◌⊎◌, true, map, IfOk};
ghost use Rattle.nf_flow.specs.Seen.{events_of, plain_of, state_of};
ghost use Rattle.nf_machine.specs.History.{IsHistory, is_over};
ghost use Rattle.nf_bodies.specs.Bodies.{rules_of};
ghost use Rattle.nf_plan.specs.declared.builder.PlanBuilder.{PlanBuilder};
ghost use Rattle.nf_plan.specs.Plans.{is_view_row};
ghost use Rattle.nf_shown.specs.Shown.{IsLawfulRun};
ghost use Rattle.nf_tasks.specs.Memory.{program};
ghost use Rattle.nf_ends.specs.declared.end.End.TheVariants as end;
ghost use Rattle.nf_owed.specs.Run.{run_of};
ghost use Rattle.nf_owed.specs.Finished.{ComesTo, GivesFinished, GivesOutput, IsRunOf, end_in, is_view_node, node_of};

use crate::finished::Finished;
use nf_bag::Row;
use nf_bodies::NodeInfo;
use nf_builtins::Natives;
use nf_ends::{End, Output, end_of_stop, summary};
use nf_flow::Flow;
use nf_graph::{Node, NodeKind};
use nf_machine::Stop;
use nf_publish::report;
use nf_published::published;
use nf_shown::views;
use nf_tasks::Target;
use nf_value::{Mem, Place, Txt};
use std::alloc::Global;

/// What a finished run comes to (own): if it ended well, the report of its views and of the files that it published, the
/// line after it, and these files; else the end that names why it stopped. `infos` is what is known of the nodes of its plan.
///
/// The report and the files are those of what the script means under the reports that the run's tasks gave, and that meaning
/// has no fault. An end names a task, an item or an operator only with a fault that it has in that meaning.
///
/// # Errors
///
/// The end of a run that stopped. `PublishClash` exactly if the run ended well and a target has two contents: with the first
/// such target in the order of bytes, and the two least of its digests. `Mem` also if there is no memory for the files, the
/// report or a copy of the stop's values.
pub fn end_of_run<N: Natives>(
    alloc: Global,
    infos: &[NodeInfo],
    natives: &N,
    flow: &Flow,
) -> Result<Finished, End>
    requires kept { N.keeps natives.now }
    requires lawful { IsHistory (plain_of flow.now)
        (rules_of (program (N.titles natives.now) (N.answer natives.now)) infos.now) (events_of flow.now) }
    requires over { is_over (plain_of flow.now) (state_of flow.now) ≡ true }
    ensures { let n = program (N.titles natives.now) (N.answer natives.now) in
        (b : PlanBuilder) → IsRunOf n b infos.now flow.now → ComesTo (run_of n b) flow.now.history result }
{
    nf_machine::laws::every_order();
    nf_machine::laws::own_outcomes();
    nf_graph::laws::well_made();
    nf_meaning::laws::by_bags();
    nf_shown::laws::printed_as_meant();
    nf_published::laws::published_as_meant();
    match flow.stop() {
        Some(stop) => Err(stopped(alloc, infos, stop)),
        None => report_and_files(alloc, infos, natives, flow),
    }
}

/// The end of a run that stopped.
fn stopped(alloc: Global, infos: &[NodeInfo], stop: &Stop) -> End
    ensures { (result ≡ end_in infos.now stop.now) ⊎ (result ≡ end.Mem) }
{
    match end_at(alloc, infos, stop) {
        Ok(end) => end,
        Err(Mem) => End::Mem,
    }
}

fn end_at(alloc: Global, infos: &[NodeInfo], stop: &Stop) -> Result<End, Mem>
    ensures { IfOk result (λ e. e ≡ end_in infos.now stop.now) }
{
    match infos.get(node_of(stop)) {
        Some(info) => end_of_stop(stop, &info.name, info.place),
        None => end_of_stop(
            stop,
            &Txt::of(String::new(alloc)),
            Place { line: 0, col: 0 },
        ),
    }
}

/// The node that a stop tells of. A stop from outside tells of none.
fn node_of(stop: &Stop) -> usize
    ensures { result ≡ node_of stop.now }
{
    match stop {
        Stop::Op { node, .. } | Stop::Item { node, .. } | Stop::Task { node, .. } => *node as usize,
        Stop::Charge { .. } | Stop::Outside(_) | Stop::Mem => 0,
    }
}

/// What a run comes to that isn't stopped.
fn report_and_files<N: Natives>(
    alloc: Global,
    infos: &[NodeInfo],
    natives: &N,
    flow: &Flow,
) -> Result<Finished, End>
    requires kept { N.keeps natives.now }
    requires lawful { IsHistory (plain_of flow.now)
        (rules_of (program (N.titles natives.now) (N.answer natives.now)) infos.now) (events_of flow.now) }
    ensures { GivesFinished (program (N.titles natives.now) (N.answer natives.now)) infos.now flow.now result }
{
    let targets = published(alloc, infos, natives, flow)?;
    let output = output(alloc, flow, targets.items())?;
    Ok(Finished { output, targets })
}

/// What is written of a run that published these files: its report, and the line after it.
fn output(alloc: Global, flow: &Flow, targets: &[Target]) -> Result<Output, End>
    requires { IsLawfulRun flow.now }
    ensures { GivesOutput flow.now targets.now result }
{
    let are_views = are_views(alloc, flow.graph().nodes())?;
    let lists = views(alloc, flow, are_views.as_slice())?;
    let text = report(alloc, lists.as_slice(), targets)?;
    let line = summary(alloc, flow.history())?;
    Ok(Output::Report {
        report: text,
        summary: line,
    })
}

/// For each node whether it is a view.
fn are_views(alloc: Global, nodes: &[Node]) -> Result<Vec<bool>, Mem>
    ensures { IfOk result (λ v. v.items ≡ map is_view_node nodes.now) }
{
    let mut views = Vec::new(alloc);
    for node in nodes {
        views.push(is_view(node))?;
    }
    Ok(views)
}

fn is_view(node: &Node) -> bool
    ensures { result ≡ is_view_node node.now }
{
    match &node.kind {
        NodeKind::Op { row, .. } => is_view_row(row),
        NodeKind::Source { .. } | NodeKind::Process { .. } => false,
    }
}

fn is_view_row(row: &Row) -> bool
    ensures { result ≡ is_view_row row.now }
{
    match row {
        Row::View => true,
        _ => false,
    }
}
