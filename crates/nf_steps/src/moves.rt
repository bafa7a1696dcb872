//! The moves of a run.

ghost use Rattle.std.specs.Prelude.{◌≡◌, None, IfOk, IfSome, OnOk, OnErr};
ghost use Rattle.nf_machine.specs.declared.event.Event.TheVariants as e;
ghost use Rattle.nf_machine.specs.Legal.{CloseIsLegal};
ghost use Rattle.nf_nodes.specs.Ready.{IsLegalMove};
ghost use Rattle.nf_nodes.specs.Steps.{MayPass, MayTake};
ghost use Rattle.nf_flow.specs.Seen.{begun, grown, plain_of, state_of, take_of};
ghost use Rattle.nf_flow.specs.Questions.{IsFlying};
ghost use Rattle.nf_steps.specs.Run.{IsRun, Stay};
ghost use Rattle.nf_steps.specs.Steps.{event_by};

use crate::leaves::room_or_halt;
use nf_flight::Ticket;
use nf_flow::Flow;
use nf_graph::Graph;
use nf_machine::Move;
use nf_stored::Rules;
use nf_stored::laws::are_rules;
use nf_value::Mem;
use std::alloc::Global;

/// A run of a graph under rules, before its first event.
///
/// # Errors
///
/// `Mem` if there is no memory for it.
pub fn begin<R: Rules>(alloc: Global, graph: Graph, rules: &R) -> Result<Flow, Mem>
    ensures begun { IfOk result (λ f. f ≡ begun graph) }
    ensures run { IfOk result (IsRun (R.meaning rules.now)) }
{
    are_rules(rules);
    Flow::begin(alloc, graph)
}

/// A legal move, if there is one. Takes no memory.
pub fn next_move(flow: &Flow) -> Option<Move>
    ensures { IfSome result (IsLegalMove flow.now.graph (state_of flow.now)) }
{
    flow.ready()
}

/// Stops a run for want of memory, if it isn't stopped. Takes no memory.
pub fn halt<R: Rules>(flow: &mut Flow, rules: &R)
    requires run { IsRun (R.meaning rules.now) flow.old }
    ensures run { IsRun (R.meaning rules.now) flow.new }
    ensures flying { Stay flow.old None flow.new }
{
    let _ = rules;
    if !flow.is_stopped() {
        flow.halt_for_memory();
    }
}

/// A legal move. A Take gives its ticket.
///
/// # Errors
///
/// `Mem` if there is no memory for it. The run is stopped then, by Halt.
pub fn go<R: Rules>(flow: &mut Flow, rules: &R, step: Move) -> Result<Option<Ticket>, Mem>
    requires run { IsRun (R.meaning rules.now) flow.old }
    requires legal { IsLegalMove flow.old.graph (state_of flow.old) step }
    ensures ok { OnOk result (flow.new ≡ grown flow.old (event_by flow.old step)) }
    ensures err { OnErr result (flow.new ≡ grown flow.old e.Halt) }
    ensures run { IsRun (R.meaning rules.now) flow.new }
    ensures ticket { IfOk result (λ o. IfSome o (IsFlying flow.new)) }
{
    match step {
        Move::Pass { port } => {
            pass(flow, rules, port)?;
            Ok(None)
        }
        Move::Take { node, port, place } => {
            let ticket = take(flow, rules, node, port, place)?;
            Ok(Some(ticket))
        }
        Move::Close { node } => {
            close(flow, rules, node)?;
            Ok(None)
        }
    }
}

fn pass<R: Rules>(flow: &mut Flow, rules: &R, port: u32) -> Result<(), Mem>
    requires run { IsRun (R.meaning rules.now) flow.old }
    requires legal { MayPass flow.old.graph (state_of flow.old) port }
    ensures ok { OnOk result (flow.new ≡ grown flow.old (e.Pass port)) }
    ensures err { OnErr result (flow.new ≡ grown flow.old e.Halt) }
    ensures run { IsRun (R.meaning rules.now) flow.new }
{
    let _ = rules;
    room_or_halt(flow)?;
    flow.pass(port)
}

fn take<R: Rules>(
    flow: &mut Flow,
    rules: &R,
    node: u32,
    port: u32,
    place: u32,
) -> Result<Ticket, Mem>
    requires run { IsRun (R.meaning rules.now) flow.old }
    requires legal { MayTake flow.old.graph (state_of flow.old) node port place }
    ensures ok { OnOk result (flow.new ≡ grown flow.old (take_of flow.old node port place)) }
    ensures err { OnErr result (flow.new ≡ grown flow.old e.Halt) }
    ensures run { IsRun (R.meaning rules.now) flow.new }
    ensures ticket { IfOk result (IsFlying flow.new) }
{
    let _ = rules;
    room_or_halt(flow)?;
    flow.take(node, port, place)
}

fn close<R: Rules>(flow: &mut Flow, rules: &R, node: u32) -> Result<(), Mem>
    requires run { IsRun (R.meaning rules.now) flow.old }
    requires legal { CloseIsLegal (plain_of flow.old) (state_of flow.old) node }
    ensures ok { OnOk result (flow.new ≡ grown flow.old (e.Close node)) }
    ensures err { OnErr result (flow.new ≡ grown flow.old e.Halt) }
    ensures run { IsRun (R.meaning rules.now) flow.new }
{
    let _ = rules;
    room_or_halt(flow)?;
    flow.close(node)
}
