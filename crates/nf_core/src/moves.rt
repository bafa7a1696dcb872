//! What one holding does with moves and with operators' tickets.

ghost use Rattle.std.specs.Prelude.{◌≡◌, ◌⊎◌, is_none, true, IfOk, OnOk, OnErr};
ghost use Rattle.nf_machine.specs.declared.event.Event.TheVariants as e;
ghost use Rattle.nf_machine.specs.Legal.{CloseIsLegal};
ghost use Rattle.nf_flight.specs.Ticket.{number_of};
ghost use Rattle.nf_flow.specs.Seen.{grown, plain_of, state_of, take_of};
ghost use Rattle.nf_flow.specs.Questions.{IsFlying};
ghost use Rattle.nf_flow.specs.Steps.{MayPass, MayTake};

use crate::fixed::Fixed;
use crate::leaves::{can_go_on, give_back};
use crate::run_state::RunState;
use nf_flight::Ticket;
use nf_keeper::Keeper;
use nf_lane::Lane;
use nf_stored::Rules;
use nf_value::{EvalFault, Mem, Value};

impl<L: Lane, K: Keeper, J: Fixed> RunState<L, K, J> {
    ghost use Rattle.nf_core.specs.Calls.{GivesUp, IsAnswered};

    /// The next item that a port's producer emitted passes to the port.
    ///
    /// # Errors
    ///
    /// `Mem` if there is no memory for it. The run is stopped then, by Halt.
    pub fn pass(&mut self, port: u32) -> Result<(), Mem>
        requires { MayPass self.old.graph (state_of self.old) port }
        ensures ok { OnOk result (self.new ≡ grown self.old (e.Pass port)) }
        ensures err { OnErr result (self.new ≡ grown self.old e.Halt) }
    {
        let RunState { flow, .. } = self;
        let Ok(()) = flow.make_room() else {
            flow.halt_for_memory();
            return Err(Mem);
        };
        flow.pass(port)
    }

    /// A node takes, and gives the ticket.
    ///
    /// # Errors
    ///
    /// `Mem` if there is no memory for it. The run is stopped then, by Halt.
    pub fn take(&mut self, node: u32, port: u32, place: u32) -> Result<Ticket, Mem>
        requires { MayTake self.old.graph (state_of self.old) node port place }
        ensures ok { OnOk result (self.new ≡ grown self.old (take_of self.old node port place)) }
        ensures ticket { IfOk result (IsFlying self.new) }
        ensures number { IfOk result (λ t. number_of t ≡ (state_of self.old).next) }
        ensures err { OnErr result (self.new ≡ grown self.old e.Halt) }
    {
        let RunState { flow, .. } = self;
        let Ok(()) = flow.make_room() else {
            flow.halt_for_memory();
            return Err(Mem);
        };
        flow.take(node, port, place)
    }

    /// Nothing more comes to a node.
    ///
    /// # Errors
    ///
    /// `Mem` if there is no memory for it. The run is stopped then, by Halt.
    pub fn close(&mut self, node: u32) -> Result<(), Mem>
        requires { CloseIsLegal (plain_of self.old) (state_of self.old) node }
        ensures ok { OnOk result (self.new ≡ grown self.old (e.Close node)) }
        ensures err { OnErr result (self.new ≡ grown self.old e.Halt) }
    {
        let RunState { flow, .. } = self;
        let Ok(()) = flow.make_room() else {
            flow.halt_for_memory();
            return Err(Mem);
        };
        flow.close(node)
    }

    /// Enters the rules' answer for the item of an operator's ticket. Where the run is stopped or there is no memory, the ticket is given up.
    pub fn give<R: Rules>(&mut self, ticket: Ticket, rules: &R, answer: Result<Value, EvalFault>)
        requires rules { R.meaning rules.now ≡ J.facts.rules }
        requires ticket { IsFlying self.old ticket }
        requires answer { IsAnswered J.facts.rules self.old ticket answer }
        ensures { (self.new ≡ grown self.old (e.Give (number_of ticket) answer)) ⊎ GivesUp self.old ticket self.new }
    {
        let RunState { flow, .. } = self;
        if !can_go_on(flow) {
            give_back(flow, ticket);
            return;
        }
        let _ = flow.give(ticket, rules, answer);
    }

    /// Stops a run that isn't stopped, where there is no memory and no ticket is at hand. Takes no memory.
    pub fn halt_for_memory(&mut self)
        requires { is_none (state_of self.old).stop ≡ true }
        ensures { self.new ≡ grown self.old e.Halt }
    {
        self.flow.halt_for_memory();
    }
}
