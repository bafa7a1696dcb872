//! `Flow`: the state of a run, and its history.

ghost use Rattle.std.specs.Prelude.{◌≡◌, true, is_none, IfOk, OnOk, OnErr};
ghost use Rattle.nf_machine.specs.declared.event.Event.TheVariants as e;

use crate::log::Log;
use crate::parts::Parts;
use crate::stopped::Stopped;
use nf_flight::{KeptInputs, Ticket};
use nf_graph::Graph;
use nf_machine::{Cause, Event, Stop};
use nf_value::Mem;
use std::alloc::Global;
use std::marker::Model;

/// A run over a graph (own): its state, and the history that led to it. Contracts see the graph, the history and for how many events
/// there is room.
pub struct Flow {
    pub(crate) alloc: Global,
    pub(crate) graph: Graph,
    pub(crate) parts: Parts,
    pub(crate) log: Log,
}

impl Drop for Flow {
    fn drop(self) {
        let Flow {
            alloc: _,
            graph: _,
            parts: _,
            log: _,
        } = self;
    }
}

impl Model for Flow {
    ghost use Rattle.std.specs.Coded.{codes};
    ghost use Rattle.nf_graph.specs.contracts.node.Node as n;
    ghost use Rattle.nf_machine.specs.contracts.event.Event as e;
    ghost use Rattle.nf_flow.specs.Seen.{Seen};
    ghost use Rattle.nf_flow.specs.Flow.{IsFlow, seen};

    ghost Value = { Seen };

    ghost coded = { Prim.hlevel (codes, n.the_row.coded, e.the_row.coded) };

    ghost view = { λ f. seen f.graph f.log };

    ghost invariant = { λ f. IsFlow f.graph f.parts f.log };
}

impl Flow {
    ghost use Rattle.nf_flow.specs.Seen.{HasRoom, MayAdd, begun, grown, roomy, state_of};
    ghost use Rattle.nf_flow.specs.Questions.{IsFlying};
    ghost use Rattle.nf_flow.specs.Stopped.{IsNamedIfAny};
    ghost use Rattle.nf_flight.specs.Ticket.{number_of};

    /// A run before its first event. It keeps a place for the one Halt.
    ///
    /// # Errors
    ///
    /// `Mem` if there is no memory for it.
    pub fn begin(alloc: Global, graph: Graph) -> Result<Flow, Mem>
        ensures { IfOk result (λ f. f ≡ begun graph) }
    {
        let parts = Parts::begin(alloc, &graph)?;
        let history = Vec::with_capacity(alloc, 1)?;
        let log = Log {
            history,
            inputs: KeptInputs::new(alloc),
            stop: Stopped::No,
            room: 0,
        };
        Ok(Flow {
            alloc,
            graph,
            parts,
            log,
        })
    }

    /// Makes room for the next event and, if that is a Take, for the Abort of its ticket.
    ///
    /// # Errors
    ///
    /// `Mem` if there is no memory for it. Nothing is changed then.
    pub fn make_room(&mut self) -> Result<(), Mem>
        ensures ok { OnOk result (self.new ≡ roomy self.old) }
        ensures err { OnErr result (self.new ≡ self.old) }
    {
        let places = self.parts.flights.in_flight() + 3;
        self.log.history.reserve(places)?;
        self.log.room = 1;
        Ok(())
    }

    /// The ticket's attempt starts. Takes no memory.
    pub fn start(&mut self, ticket: &Ticket, cause: Cause)
        requires room { HasRoom self.old }
        requires ticket { IsFlying self.old ticket.now }
        requires legal { MayAdd self.old (e.Start (number_of ticket.now) cause) }
        ensures { self.new ≡ grown self.old (e.Start (number_of ticket.now) cause) }
    {
        nf_nodes::laws::tickets_change();
        let number = ticket.number();
        self.parts.flights.start(number);
        self.log.add(
            Event::Start {
                ticket: number,
                cause,
            },
            None,
        );
    }

    /// The ticket is given up. Takes no memory, and needs no room.
    pub fn abort(&mut self, ticket: Ticket, cause: Option<Stop>)
        requires ticket { IsFlying self.old ticket }
        requires named { IsNamedIfAny cause }
        requires legal { MayAdd self.old (e.Abort (number_of ticket) cause) }
        ensures { self.new ≡ grown self.old (e.Abort (number_of ticket) cause) }
    {
        let number = ticket.number();
        self.parts.flights.leave(number);
        self.log.abort(number, cause);
    }

    /// Stops a run that isn't stopped, where there is no memory and no ticket is at hand. Takes no memory, and needs no room.
    pub fn halt_for_memory(&mut self)
        requires { is_none (state_of self.old).stop ≡ true }
        ensures { self.new ≡ grown self.old e.Halt }
    {
        let _ = self.log.halt();
    }

    /// The events in their order, without the run.
    pub fn into_history(self) -> Vec<Event>
        ensures { result.items ≡ self.history }
    {
        let Flow {
            alloc: _,
            graph: _,
            parts: _,
            log,
        } = self;
        log.into_history()
    }
}
