//! `serial`: the rest of a run on one lane, on one thread.

ghost use Rattle.std.specs.Prelude.{◌≡◌, ◌⊎◌, ◌<◌, ◌+◌, ◌^◌, true, IfOk, MatchBool, Result};
ghost use Rattle.nf_graph.specs.WellMade.{plain_node};
ghost use Rattle.nf_flow.specs.Seen.{events_of, plain_of, state_of};
ghost use Rattle.nf_machine.specs.Event.{answer_of};
ghost use Rattle.nf_machine.specs.History.{IsHistory, is_over};
ghost use Rattle.nf_machine.specs.Legal.{CloseIsLegal, IsOperatorKind};
ghost use Rattle.nf_flow.specs.Ready.{IsReady};
ghost use Rattle.nf_flow.specs.Steps.{MayPass, MayTake};
ghost use Rattle.nf_stored.specs.Answers.{AnswersItem};
ghost use Rattle.nf_value.specs.Plain.{Plain};
ghost use Rattle.nf_value.specs.declared.fault.EvalFault.{EvalFault};
ghost use Rattle.nf_core.specs.Calls.{IsAnswered};
ghost use Rattle.nf_core.specs.Opening.{IsLane};
ghost use Rattle.nf_serial.specs.Serial.{CanServe, Goes, GoesAlone, HasItem, HasTask, IsIdle, IsLegalMove, Later, Serves, lane_now, work_of};

use crate::measure::{ends, falls, few_left};
use crate::one_task::{lost, task};
use nf_core::{Fixed, RunState};
use nf_flight::Ticket;
use nf_graph::{Node, NodeKind};
use nf_keeper::Keeper;
use nf_lane::Lane;
use nf_machine::{Move, Stop};
use nf_stored::Rules;
use nf_value::{EvalFault, EvalRefusal, Mem, Value};

/// Runs the rest of a run on one lane, up to its end (own). Nothing is in flight when it begins, and the run is over when it returns. It
/// takes on what other lanes left. The history grows by legal events: the lane runs once for each Start among them, and it is blamed for a
/// stop only if its count of faults rose.
pub fn serial<L: Lane, K: Keeper, J: Fixed, R: Rules>(
    run: &mut RunState<L, K, J>,
    lane: &mut L,
    rules: &R,
)
    requires rules { R.meaning rules.now ≡ J.facts.rules }
    requires keeps { R.keeps rules.now }
    requires idle { IsIdle run.old }
    requires lane { IsLane J.facts (L.world lane.old) (L.store lane.old) }
    requires runs { L.runs lane.old < 2 ^ 62 + 2 ^ 35 }
    ensures over { is_over (plain_of run.new) (state_of run.new) ≡ true }
    ensures idle { IsIdle run.new }
    ensures lawful { IsHistory (plain_of run.new) J.facts.rules (events_of run.new) }
    ensures goes { Goes run.old run.new
        (lane_now (L.runs lane.old) (L.faults lane.old) (L.world lane.old) (L.store lane.old))
        (lane_now (L.runs lane.new) (L.faults lane.new) (L.world lane.new) (L.store lane.new)) }
    // The lane's world is the same, and its store has lost nothing.
    ensures later { Later (lane_now (L.runs lane.old) (L.faults lane.old) (L.world lane.old) (L.store lane.old))
        (lane_now (L.runs lane.new) (L.faults lane.new) (L.world lane.new) (L.store lane.new)) }
    ensures lane { IsLane J.facts (L.world lane.new) (L.store lane.new) }
{
    few_left(run);
    while let Some(step) = next_move(run) {
        turn(run, lane, rules, step);
    }
    ends(run);
    run.holds();
}

// A legal move, if there is one.
fn next_move<L: Lane, K: Keeper, J: Fixed>(run: &RunState<L, K, J>) -> Option<Move>
    ensures { IsReady run.now.graph (state_of run.now) result }
{
    run.flow().ready()
}

// One move, and all that follows of its ticket.
fn turn<L: Lane, K: Keeper, J: Fixed, R: Rules>(
    run: &mut RunState<L, K, J>,
    lane: &mut L,
    rules: &R,
    step: Move,
)
    requires rules { R.meaning rules.now ≡ J.facts.rules }
    requires keeps { R.keeps rules.now }
    requires idle { IsIdle run.old }
    requires legal { IsLegalMove run.old step }
    requires lane { CanServe J.facts run.old
        (lane_now (L.runs lane.old) (L.faults lane.old) (L.world lane.old) (L.store lane.old)) }
    ensures idle { IsIdle run.new }
    ensures less { work_of run.new < work_of run.old }
    ensures serves { Serves J.facts run.old run.new
        (lane_now (L.runs lane.old) (L.faults lane.old) (L.world lane.old) (L.store lane.old))
        (lane_now (L.runs lane.new) (L.faults lane.new) (L.world lane.new) (L.store lane.new)) }
{
    match step {
        Move::Pass { port } => pass(run, port),
        Move::Close { node } => close(run, node),
        Move::Take { node, port, place } => take(run, lane, rules, node, port, place),
    }
}

// A Pass.
fn pass<L: Lane, K: Keeper, J: Fixed>(run: &mut RunState<L, K, J>, port: u32)
    requires idle { IsIdle run.old }
    requires legal { MayPass run.old.graph (state_of run.old) port }
    ensures idle { IsIdle run.new }
    ensures goes { GoesAlone run.old run.new }
{
    let _ = run.pass(port);
    falls(run);
}

// A Close.
fn close<L: Lane, K: Keeper, J: Fixed>(run: &mut RunState<L, K, J>, node: u32)
    requires idle { IsIdle run.old }
    requires legal { CloseIsLegal (plain_of run.old) (state_of run.old) node }
    ensures idle { IsIdle run.new }
    ensures goes { GoesAlone run.old run.new }
{
    let _ = run.close(node);
    falls(run);
}

// A Take, and all that follows of its ticket.
fn take<L: Lane, K: Keeper, J: Fixed, R: Rules>(
    run: &mut RunState<L, K, J>,
    lane: &mut L,
    rules: &R,
    node: u32,
    port: u32,
    place: u32,
)
    requires rules { R.meaning rules.now ≡ J.facts.rules }
    requires keeps { R.keeps rules.now }
    requires idle { IsIdle run.old }
    requires legal { MayTake run.old.graph (state_of run.old) node port place }
    requires lane { CanServe J.facts run.old
        (lane_now (L.runs lane.old) (L.faults lane.old) (L.world lane.old) (L.store lane.old)) }
    ensures idle { IsIdle run.new }
    ensures less { work_of run.new < work_of run.old }
    ensures serves { Serves J.facts run.old run.new
        (lane_now (L.runs lane.old) (L.faults lane.old) (L.world lane.old) (L.store lane.old))
        (lane_now (L.runs lane.new) (L.faults lane.new) (L.world lane.new) (L.store lane.new)) }
{
    let taken = run.take(node, port, place);
    falls(run);
    let Ok(ticket) = taken else {
        return;
    };
    serve(run, lane, rules, ticket);
}

// All that follows of a ticket: the answer to an operator's item, or the attempts of a task.
fn serve<L: Lane, K: Keeper, J: Fixed, R: Rules>(
    run: &mut RunState<L, K, J>,
    lane: &mut L,
    rules: &R,
    ticket: Ticket,
)
    requires rules { R.meaning rules.now ≡ J.facts.rules }
    requires keeps { R.keeps rules.now }
    requires ticket { HasItem run.old ticket ⊎ HasTask run.old ticket }
    requires lane { CanServe J.facts run.old
        (lane_now (L.runs lane.old) (L.faults lane.old) (L.world lane.old) (L.store lane.old)) }
    ensures idle { IsIdle run.new }
    ensures serves { Serves J.facts run.old run.new
        (lane_now (L.runs lane.old) (L.faults lane.old) (L.world lane.old) (L.store lane.old))
        (lane_now (L.runs lane.new) (L.faults lane.new) (L.world lane.new) (L.store lane.new)) }
{
    let nodes = run.flow().graph().nodes();
    let node = ticket.node();
    if is_operator(&nodes[node as usize]) {
        answer(run, rules, ticket);
        return;
    }
    task(run, lane, rules, ticket);
}

fn is_operator(node: &Node) -> bool
    ensures { MatchBool result (IsOperatorKind (plain_node node.now).kind) (IsOperatorKind (plain_node node.now).kind → ⊥) }
{
    match node.kind {
        NodeKind::Source { .. } => false,
        NodeKind::Op { .. } => true,
        NodeKind::Process { .. } => false,
    }
}

// Enters the rules' answer to the item of an operator's ticket.
fn answer<L: Lane, K: Keeper, J: Fixed, R: Rules>(
    run: &mut RunState<L, K, J>,
    rules: &R,
    ticket: Ticket,
)
    requires rules { R.meaning rules.now ≡ J.facts.rules }
    requires keeps { R.keeps rules.now }
    requires ticket { HasItem run.old ticket }
    ensures idle { IsIdle run.new }
    ensures goes { GoesAlone run.old run.new }
{
    let Ok(answer) = answer_to(run, rules, &ticket) else {
        lost(run, ticket, Stop::Mem);
        return;
    };
    run.give(ticket, rules, answer);
    falls(run);
}

// The rules' answer to the item of an operator's ticket.
fn answer_to<L: Lane, K: Keeper, J: Fixed, R: Rules>(
    run: &RunState<L, K, J>,
    rules: &R,
    ticket: &Ticket,
) -> Result<Result<Value, EvalFault>, Mem>
    requires rules { R.meaning rules.now ≡ J.facts.rules }
    requires keeps { R.keeps rules.now }
    requires ticket { HasItem run.now ticket.now }
    ensures { IfOk result (IsAnswered J.facts.rules run.now ticket.now) }
{
    let items = ticket.inputs().items();
    settled(rules.gives(run.alloc(), ticket.node(), &items[0]))
}

// The answer without its want of memory.
fn settled(answer: Result<Value, EvalRefusal>) -> Result<Result<Value, EvalFault>, Mem>
    ensures { (due : Result Plain EvalFault) → AnswersItem due answer → IfOk result (λ a. answer_of a ≡ due) }
{
    match answer {
        Ok(value) => Ok(Ok(value)),
        Err(EvalRefusal::Fault(fault)) => Ok(Err(fault)),
        Err(EvalRefusal::Mem) => Err(Mem),
    }
}
