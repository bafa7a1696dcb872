//! The moves of a run: Pass, Take and Close.

ghost use Rattle.std.specs.Prelude.{◌≡◌, IfOk, OnOk, OnErr};
ghost use Rattle.nf_machine.specs.declared.event.Event.TheVariants as e;
ghost use Rattle.nf_flight.specs.Ticket.{number_of};

use crate::flow::Flow;
use crate::laws;
use nf_flight::Ticket;
use nf_machine::Event;
use nf_value::Mem;

impl Flow {
    ghost use Rattle.nf_flow.specs.Seen.{HasRoom, MayAdd, take_of, grown, state_of};
    ghost use Rattle.nf_flow.specs.Questions.{IsFlying};

    /// The next item that the port's producer emitted passes to the port, and waits there. Where the charge passes the limit it doesn't
    /// wait, and the run stops.
    ///
    /// # Errors
    ///
    /// `Mem` if there is no memory for it. The event is then Halt.
    pub fn pass(&mut self, port: u32) -> Result<(), Mem>
        requires room { HasRoom self.old }
        requires legal { MayAdd self.old (e.Pass port) }
        ensures ok { OnOk result (self.new ≡ grown self.old (e.Pass port)) }
        ensures err { OnErr result (self.new ≡ grown self.old e.Halt) }
    {
        laws::numbers_are_small();
        let nodes = self.graph.nodes();
        let Ok(stop) = self.parts.pass(nodes, port) else {
            return Err(self.log.halt());
        };
        self.log.add(Event::Pass { port }, stop);
        Ok(())
    }

    /// An operator takes the item at a place of a port, or a process the inputs of an instance, with the item at that place of its queue
    /// port if it has one. Gives the ticket.
    ///
    /// # Errors
    ///
    /// `Mem` if there is no memory for it. The event is then Halt.
    pub fn take(&mut self, node: u32, port: u32, place: u32) -> Result<Ticket, Mem>
        requires room { HasRoom self.old }
        requires legal { MayAdd self.old (take_of self.old node port place) }
        ensures ok { OnOk result (self.new ≡ grown self.old (take_of self.old node port place)) }
        ensures ticket { IfOk result (IsFlying self.new) }
        ensures number { IfOk result (λ t. number_of t ≡ (state_of self.old).next) }
        ensures err { OnErr result (self.new ≡ grown self.old e.Halt) }
    {
        laws::numbers_are_small();
        let nodes = self.graph.nodes();
        let Ok(ticket) = self.parts.take(self.alloc, nodes, node, port, place) else {
            return Err(self.log.halt());
        };
        let number = ticket.number();
        let Ok(()) = self.log.keep(&nodes[node as usize], ticket.inputs()) else {
            self.parts.flights.leave(number);
            return Err(self.log.halt());
        };
        self.log.add(
            Event::Take {
                node,
                port,
                place,
                ticket: number,
                n: ticket.n(),
            },
            None,
        );
        Ok(ticket)
    }

    /// Nothing more comes to the node: an operator emits what it emits at its end, or the run stops with its fault.
    ///
    /// # Errors
    ///
    /// `Mem` if there is no memory for it. The event is then Halt.
    pub fn close(&mut self, node: u32) -> Result<(), Mem>
        requires room { HasRoom self.old }
        requires legal { MayAdd self.old (e.Close node) }
        ensures ok { OnOk result (self.new ≡ grown self.old (e.Close node)) }
        ensures err { OnErr result (self.new ≡ grown self.old e.Halt) }
    {
        laws::numbers_are_small();
        let nodes = self.graph.nodes();
        let Ok(stop) = self.parts.close(self.alloc, nodes, node) else {
            return Err(self.log.halt());
        };
        self.log.add(Event::Close { node }, stop);
        Ok(())
    }
}
