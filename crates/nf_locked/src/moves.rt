//! Moves of a run, and the tickets that they make.

ghost use Rattle.std.specs.Prelude.{◌<◌, length, MatchBool};
ghost use Rattle.nf_flow.specs.Seen.{plain_of, state_of, take_of};
ghost use Rattle.nf_graph.specs.WellMade.{plain_node};
ghost use Rattle.nf_locked.specs.Entered.{Halts, Makes, MakesMove, MakesTake, Steps};
ghost use Rattle.nf_locked.specs.Leaves.{IsOn, IsTaken};
ghost use Rattle.nf_locked.specs.Locked.{IsWork};
ghost use Rattle.nf_machine.specs.Legal.{CloseIsLegal, IsOperatorKind};
ghost use Rattle.nf_machine.specs.declared.event.Event.TheVariants as e;
ghost use Rattle.nf_flow.specs.Ready.{IsReady, IsReadyAt};
ghost use Rattle.nf_flow.specs.Steps.{MayPass, MayTake};
ghost use Rattle.nf_serial.specs.Serial.{IsLegalMove};

use crate::handed::copy_of;
use crate::locked::Locked;
use crate::work::Work;
use nf_core::{Fixed, RunState};
use nf_flight::Ticket;
use nf_graph::{Node, NodeKind};
use nf_keeper::Keeper;
use nf_lane::Lane;
use nf_machine::{Move, Stop};
use std::sync::ledger::Ledger;

/// Stops the run for want of memory, if it isn't stopped.
pub(crate) fn halt<L: Lane, K: Keeper, J: Fixed>(run: &mut RunState<L, K, J>)
    ensures { Halts run.old run.new }
{
    if !run.flow().is_stopped() {
        run.halt_for_memory();
    }
}

// What there is to do of a ticket that a node took.
fn work_of<L: Lane, K: Keeper, J: Fixed>(run: &RunState<L, K, J>, ticket: Ticket) -> Work
    requires { IsTaken J.facts ticket }
    ensures work { IsWork J.facts result }
    ensures on { IsOn ticket result }
{
    run.holds();
    let nodes = run.flow().graph().nodes();
    let node = ticket.node();
    if is_operator(&nodes[node as usize]) {
        return Work::Item { ticket };
    }
    Work::Task { ticket }
}

fn is_operator(node: &Node) -> bool
    ensures { MatchBool result (IsOperatorKind (plain_node node.now).kind) (IsOperatorKind (plain_node node.now).kind → ⊥) }
{
    matches!(node.kind, NodeKind::Op { .. })
}

impl<L: Lane, K: Keeper, J: Fixed, B: Ledger, F: Ledger> Locked<L, K, J, B, F> {
    /// Makes a move, if there is one: a Pass before a Take, a Take before a Close. The ticket of a Take stays out with
    /// the lane.
    pub fn step(&mut self, index: usize) -> Work
        requires { index < length J.facts.lanes }
        ensures work { IsWork J.facts result }
        ensures makes { Steps (IsReady self.old.graph (state_of self.old)) self.old result self.new }
    {
        match self.run.flow().ready() {
            Some(next) => self.turn(index, next),
            None => Work::Nothing,
        }
    }

    /// Stops the run for want of memory, if it isn't stopped. Takes no memory.
    pub fn halt(&mut self)
        ensures { Halts self.old self.new }
    {
        let Locked { run, .. } = self;
        halt(run);
    }

    /// A Take of the node, if one is legal. Its ticket stays out with the lane.
    pub fn step_at(&mut self, index: usize, node: u32) -> Work
        requires { index < length J.facts.lanes }
        ensures work { IsWork J.facts result }
        ensures makes { Steps (IsReadyAt self.old.graph (state_of self.old) node) self.old result self.new }
    {
        match self.run.flow().ready_at(node) {
            Some(next) => self.turn(index, next),
            None => Work::Nothing,
        }
    }

    // A move.
    fn turn(&mut self, index: usize, next: Move) -> Work
        requires lane { index < length J.facts.lanes }
        requires legal { IsLegalMove self.old next }
        ensures work { IsWork J.facts result }
        ensures makes { Makes self.old next result self.new }
    {
        match next {
            Move::Pass { port } => self.pass(port),
            Move::Close { node } => self.close(node),
            Move::Take { node, port, place } => self.take(index, node, port, place),
        }
    }

    // A Pass.
    fn pass(&mut self, port: u32) -> Work
        requires { MayPass self.old.graph (state_of self.old) port }
        ensures work { IsWork J.facts result }
        ensures makes { MakesMove self.old (e.Pass port) result self.new }
    {
        let Locked { run, .. } = self;
        let _ = run.pass(port);
        Work::Moved
    }

    // A Close.
    fn close(&mut self, node: u32) -> Work
        requires { CloseIsLegal (plain_of self.old) (state_of self.old) node }
        ensures work { IsWork J.facts result }
        ensures makes { MakesMove self.old (e.Close node) result self.new }
    {
        let Locked { run, .. } = self;
        let _ = run.close(node);
        Work::Moved
    }

    // A Take.
    fn take(&mut self, index: usize, node: u32, port: u32, place: u32) -> Work
        requires lane { index < length J.facts.lanes }
        requires legal { MayTake self.old.graph (state_of self.old) node port place }
        ensures work { IsWork J.facts result }
        ensures makes { MakesTake self.old (take_of self.old node port place) result self.new }
    {
        let Locked { run, out, .. } = self;
        run.holds();
        let tickets = &mut out[index];
        let Ok(()) = tickets.reserve(1) else {
            halt(run);
            return Work::Nothing;
        };
        let Ok(ticket) = run.take(node, port, place) else {
            return Work::Nothing;
        };
        let Ok(copy) = copy_of(&ticket) else {
            run.give_up(ticket, Some(Stop::Mem));
            return Work::Nothing;
        };
        tickets.push_reserved(ticket);
        work_of(run, copy)
    }
}
