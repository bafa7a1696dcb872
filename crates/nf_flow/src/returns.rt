//! What a caller does with a ticket that came back: Give, Reuse and Finish.

ghost use Rattle.std.specs.Prelude.{◌≡◌, ◌∷◌, [], IfOk, IfSome, OnOk, OnErr};
ghost use Rattle.nf_value.specs.View.{plain_of};
ghost use Rattle.nf_machine.specs.declared.event.Event.TheVariants as e;
ghost use Rattle.nf_flight.specs.Ticket.{inputs_of, number_of};
ghost use Rattle.nf_flow.specs.Questions.{HasOneInput};

use crate::ends::come_back;
use crate::flow::Flow;
use crate::laws;
use nf_flight::Ticket;
use nf_job::{Outputs, Report, TaskFault};
use nf_machine::{Event, Stop};
use nf_stored::Rules;
use nf_value::{EvalFault, Mem, Value};

impl Flow {
    ghost use Rattle.nf_flow.specs.Seen.{Allows, HasRoom, grown, lost};
    ghost use Rattle.nf_flow.specs.Questions.{ComesBack, IsFlying};

    /// The operator's closure answered to the ticket's item. The item and the answer are pushed, and what the operator emits for them is
    /// appended; the run stops where the closure or the operator failed.
    ///
    /// # Errors
    ///
    /// `Mem` if there is no memory for it. The event is then Abort with the cause Mem.
    pub fn give<R: Rules>(
        &mut self,
        ticket: Ticket,
        rules: &R,
        answer: Result<Value, EvalFault>,
    ) -> Result<(), Mem>
        requires room { HasRoom self.old }
        requires ticket { IsFlying self.old ticket }
        requires legal { Allows (R.meaning rules.now) self.old (e.Give (number_of ticket) answer) }
        ensures ok { OnOk result (self.new ≡ grown self.old (e.Give (number_of ticket) answer)) }
        ensures err { OnErr result (self.new ≡ grown self.old (lost (number_of ticket))) }
    {
        laws::numbers_are_small();
        laws::operators_take_one_item();
        let _ = rules;
        let nodes = self.graph.nodes();
        let number = ticket.number();
        let node = ticket.node();
        let port = ticket.port();
        let item = sole_input(ticket);
        let answer = match answer {
            Ok(answer) => answer,
            Err(fault) => {
                self.parts.flights.leave(number);
                self.log.add(
                    Event::Give {
                        ticket: number,
                        answer: Err(fault),
                    },
                    Some(Stop::Item { node, item, fault }),
                );
                return Ok(());
            }
        };
        let Ok(kept) = answer.copy() else {
            self.parts.flights.leave(number);
            return Err(self.log.lose(number));
        };
        let Ok(stop) = self.parts.give(nodes, number, node, port, item, answer) else {
            return Err(self.log.lose(number));
        };
        self.log.add(
            Event::Give {
                ticket: number,
                answer: Ok(kept),
            },
            stop,
        );
        Ok(())
    }

    /// A record of the ticket's attempt is taken in place of a start: as `finish`, with what the record tells.
    ///
    /// # Errors
    ///
    /// `Mem` if there is no memory for it. The event is then Abort with the cause Mem.
    pub fn reuse<R: Rules>(
        &mut self,
        ticket: Ticket,
        rules: &R,
        report: Report,
        outs: Result<Outputs, TaskFault>,
    ) -> Result<Option<Ticket>, Mem>
        requires room { HasRoom self.old }
        requires ticket { IsFlying self.old ticket }
        requires legal { Allows (R.meaning rules.now) self.old (e.Reuse (number_of ticket) report outs) }
        ensures ok { OnOk result (self.new ≡ grown self.old (e.Reuse (number_of ticket) report outs)) }
        ensures ticket { IfOk result (ComesBack ticket outs) }
        ensures flying { IfOk result (λ o. IfSome o (IsFlying self.new)) }
        ensures err { OnErr result (self.new ≡ grown self.old (lost (number_of ticket))) }
    {
        laws::numbers_are_small();
        let _ = rules;
        let number = ticket.number();
        let is_stopped = self.log.stop.is_stopped();
        let nodes = self.graph.nodes();
        let Ok(stop) = self.parts.end(nodes, &ticket, &outs, is_stopped) else {
            return Err(self.log.lose(number));
        };
        let back = come_back(ticket, &outs);
        self.log.add(
            Event::Reuse {
                ticket: number,
                report,
                outs,
            },
            stop,
        );
        Ok(back)
    }

    /// The ticket's attempt ended. Its outputs are appended, or the run stops with its fault if it isn't stopped; if the task is tried
    /// again, its ticket comes back for the next attempt.
    ///
    /// # Errors
    ///
    /// `Mem` if there is no memory for it. The event is then Abort with the cause Mem.
    pub fn finish<R: Rules>(
        &mut self,
        ticket: Ticket,
        rules: &R,
        report: Report,
        outs: Result<Outputs, TaskFault>,
    ) -> Result<Option<Ticket>, Mem>
        requires room { HasRoom self.old }
        requires ticket { IsFlying self.old ticket }
        requires legal { Allows (R.meaning rules.now) self.old (e.Finish (number_of ticket) report outs) }
        ensures ok { OnOk result (self.new ≡ grown self.old (e.Finish (number_of ticket) report outs)) }
        ensures ticket { IfOk result (ComesBack ticket outs) }
        ensures flying { IfOk result (λ o. IfSome o (IsFlying self.new)) }
        ensures err { OnErr result (self.new ≡ grown self.old (lost (number_of ticket))) }
    {
        laws::numbers_are_small();
        let _ = rules;
        let number = ticket.number();
        let is_stopped = self.log.stop.is_stopped();
        let nodes = self.graph.nodes();
        let Ok(stop) = self.parts.end(nodes, &ticket, &outs, is_stopped) else {
            return Err(self.log.lose(number));
        };
        let back = come_back(ticket, &outs);
        self.log.add(
            Event::Finish {
                ticket: number,
                report,
                outs,
            },
            stop,
        );
        Ok(back)
    }
}

/// The one input of an operator's ticket.
fn sole_input(ticket: Ticket) -> Value
    requires { HasOneInput ticket }
    ensures { inputs_of ticket ≡ plain_of result ∷ [] }
{
    let mut items = ticket.into_inputs().into_items();
    let Some(item) = items.pop() else {
        unreachable!()
    };
    item
}
