//! What rules answer for a ticket.

ghost use Rattle.std.specs.Prelude.{◌≡◌, true, IfSome, Result};
ghost use Rattle.nf_value.specs.Plain.{Plain};
ghost use Rattle.nf_value.specs.declared.fault.EvalFault.{EvalFault};
ghost use Rattle.nf_job.specs.declared.fault.TaskFault.{TaskFault};
ghost use Rattle.nf_job.specs.declared.emitted.Outputs.{Outputs};
ghost use Rattle.nf_graph.specs.Node.{node_at};
ghost use Rattle.nf_graph.specs.WellMade.{plain_graph, plain_kind};
ghost use Rattle.nf_machine.specs.Event.{answer_of};
ghost use Rattle.nf_machine.specs.Legal.{IsOperatorKind, IsProcessKind};
ghost use Rattle.nf_stored.specs.Answers.{AnswersItem, AnswersTask};
ghost use Rattle.nf_steps.specs.Steps.{IsAnswered, IsJudged, IsOutcome, IsTask};

use nf_flight::Ticket;
use nf_flow::Flow;
use nf_graph::{Node, NodeKind};
use nf_job::{Outputs, Report, TaskFault, TaskRefusal};
use nf_stored::Rules;
use nf_value::{EvalFault, EvalRefusal, Value};
use std::alloc::Global;

/// The answer of an operator's closure to the ticket's item, if the ticket is an operator's and there is memory.
pub(crate) fn answer<R: Rules>(
    alloc: Global,
    flow: &Flow,
    rules: &R,
    ticket: &Ticket,
) -> Option<Result<Value, EvalFault>>
    requires { R.keeps rules.now }
    ensures { IfSome result (IsAnswered (R.meaning rules.now) flow.now ticket.now) }
{
    if !is_operator(flow.graph().nodes(), ticket.node()) {
        return None;
    }
    let [item] = ticket.inputs().items() else {
        return None;
    };
    answered(rules.gives(alloc, ticket.node(), item))
}

/// The answer without its want of memory.
fn answered(answer: Result<Value, EvalRefusal>) -> Option<Result<Value, EvalFault>>
    ensures { (due : Result Plain EvalFault) → AnswersItem due answer → IfSome result (λ a. answer_of a ≡ due) }
{
    match answer {
        Ok(value) => Some(Ok(value)),
        Err(EvalRefusal::Fault(fault)) => Some(Err(fault)),
        Err(EvalRefusal::Mem) => None,
    }
}

/// Whether the ticket's attempt has a job.
///
/// # Errors
///
/// `Fault` if it has a fault in place of one; `Mem` if the ticket isn't a process's, or if there is no memory.
pub(crate) fn judge<R: Rules>(
    alloc: Global,
    flow: &Flow,
    rules: &R,
    ticket: &Ticket,
) -> Result<(), TaskRefusal>
    requires { R.keeps rules.now }
    ensures { IsJudged (R.meaning rules.now) flow.now ticket.now result }
{
    let attempt = ticket.attempt();
    if !is_task(flow, ticket) || attempt == 0 || attempt > 101 {
        return Err(TaskRefusal::Mem);
    }
    let _job = rules.job(alloc, ticket.node(), ticket.inputs(), ticket.n(), attempt)?;
    Ok(())
}

/// Whether the ticket is one of a process.
pub fn is_task(flow: &Flow, ticket: &Ticket) -> bool
    ensures { result ≡ true → IsTask flow.now ticket.now }
{
    is_process(flow.graph().nodes(), ticket.node())
}

/// What the rules make of a report of the ticket's attempt, if the ticket is a process's and there is memory.
pub(crate) fn outcome<R: Rules>(
    alloc: Global,
    flow: &Flow,
    rules: &R,
    ticket: &Ticket,
    report: &Report,
) -> Option<Result<Outputs, TaskFault>>
    requires { R.keeps rules.now }
    ensures { IfSome result (IsOutcome (R.meaning rules.now) flow.now ticket.now report.now) }
{
    if !is_task(flow, ticket) {
        return None;
    }
    judged(rules.outputs(
        alloc,
        ticket.node(),
        ticket.inputs(),
        ticket.attempt(),
        report,
    ))
}

/// The answer without its want of memory.
fn judged(answer: Result<Outputs, TaskRefusal>) -> Option<Result<Outputs, TaskFault>>
    ensures { (due : Result Outputs TaskFault) → AnswersTask due answer → IfSome result (λ outs. outs ≡ due) }
{
    match answer {
        Ok(outputs) => Some(Ok(outputs)),
        Err(TaskRefusal::Fault(fault)) => Some(Err(fault)),
        Err(TaskRefusal::Mem) => None,
    }
}

/// Whether the node at a place is an operator.
fn is_operator(nodes: &[Node], node: u32) -> bool
    ensures { result ≡ true → IsOperatorKind (node_at (plain_graph nodes.now) node).kind }
{
    match nodes.get(node as usize) {
        Some(node) => has_operator(&node.kind),
        None => false,
    }
}

fn has_operator(kind: &NodeKind) -> bool
    ensures { result ≡ true → IsOperatorKind (plain_kind kind.now) }
{
    match kind {
        NodeKind::Op { .. } => true,
        NodeKind::Source { .. } => false,
        NodeKind::Process { .. } => false,
    }
}

/// Whether the node at a place is a process.
fn is_process(nodes: &[Node], node: u32) -> bool
    ensures { result ≡ true → IsProcessKind (node_at (plain_graph nodes.now) node).kind }
{
    match nodes.get(node as usize) {
        Some(node) => has_process(&node.kind),
        None => false,
    }
}

fn has_process(kind: &NodeKind) -> bool
    ensures { result ≡ true → IsProcessKind (plain_kind kind.now) }
{
    match kind {
        NodeKind::Process { .. } => true,
        NodeKind::Source { .. } => false,
        NodeKind::Op { .. } => false,
    }
}
