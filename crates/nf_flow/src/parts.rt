//! `Parts`: the state of a run, but for why it stopped; and what Pass, Take and Close make of it.

ghost use Rattle.std.specs.Prelude.{◌≡◌, ◌<◌, ◌+◌, ◌^◌, nat_lt, None, IfOk, MatchResult};
ghost use Rattle.nf_value.specs.View.{plain_of};
ghost use Rattle.nf_graph.specs.Meaning.{cost};
ghost use Rattle.nf_graph.specs.WellMade.{plain_graph};
ghost use Rattle.nf_machine.specs.Event.{close, halt, pass};
ghost use Rattle.nf_machine.specs.State.{State, opening};
ghost use Rattle.nf_machine.specs.Step.{limit};
ghost use Rattle.nf_machine.specs.Legal.{CloseIsLegal, PassIsLegal};
ghost use Rattle.nf_opstream.specs.Fault.{fault_of};
ghost use Rattle.nf_nodes.specs.Places.{place_in};
ghost use Rattle.nf_nodes.specs.Steps.{MayTake};
ghost use Rattle.nf_bounds.specs.Bounds.{IsBounded};
ghost use Rattle.nf_flow.specs.Stopped.{IsNamedFault};

use nf_bag::OpFault;
use nf_flight::{Flights, Ticket};
use nf_graph::{Graph, Node};
use nf_machine::Stop;
use nf_nodes::Nodes;
use nf_value::{Mem, Value, weight};
use std::alloc::Global;

/// The state of a run, but for why it stopped.
#[derive(Drop)]
pub(crate) struct Parts {
    pub(crate) nodes: Nodes,
    pub(crate) flights: Flights,
    /// How many nodes aren't closed.
    pub(crate) open_nodes: usize,
    /// What the deliveries cost so far.
    pub(crate) charge: u64,
}

impl Parts {
    ghost use Rattle.nf_flow.specs.Parts.{Happens, IsParts, Stands, StandsToTake, Takes, site};

    /// Those of a run before its first event.
    pub(crate) fn begin(alloc: Global, graph: &Graph) -> Result<Parts, Mem>
        ensures { IfOk result (IsParts graph.now (opening (plain_graph graph.now))) }
    {
        let flights = Flights::begin(alloc, graph.nodes().len())?;
        let nodes = Nodes::begin(alloc, graph, &flights)?;
        let open_nodes = nodes.open_nodes();
        Ok(Parts {
            nodes,
            flights,
            open_nodes,
            charge: 0,
        })
    }

    /// An item passes to the port of a number. Answers the stop if the charge passes the limit; the item doesn't wait then.
    pub(crate) fn pass(&mut self, nodes: &[Node], port: u32) -> Result<Option<Stop>, Mem>
        requires { Stands nodes.now self.old (pass (place_in nodes.now port).node (place_in nodes.now port).port) }
        ensures { (s : State) → IsParts nodes.now s self.old → IsBounded (plain_graph nodes.now) s
            → PassIsLegal (plain_graph nodes.now) s (place_in nodes.now port).node (place_in nodes.now port).port
            → Happens nodes.now s (pass (place_in nodes.now port).node (place_in nodes.now port).port) halt result self.new }
    {
        nf_nodes::laws::tickets_change();
        let item = self.nodes.next_item(nodes, port);
        let sum = self.charge + delivery_cost(item);
        if is_past_limit(sum) {
            return Ok(Some(Stop::Charge { sum }));
        }
        let item = item.copy()?;
        self.nodes.receive(nodes, &self.flights, port, item)?;
        self.charge = sum;
        Ok(None)
    }

    /// A node takes the item at a place of a port, or the inputs of an instance. Answers the ticket.
    pub(crate) fn take(
        &mut self,
        alloc: Global,
        nodes: &[Node],
        node: u32,
        port: u32,
        place: u32,
    ) -> Result<Ticket, Mem>
        requires { StandsToTake nodes.now self.old node port place }
        ensures { (s : State) → IsParts nodes.now s self.old → MayTake nodes.now s node port place
            → Takes nodes.now s (site node port place) result self.new }
    {
        let taken = self.nodes.take(alloc, nodes, node, port, place)?;
        let number = self.flights.add(node)?;
        Ok(Ticket::new(number, node, port, taken.inputs, taken.n))
    }

    /// Nothing more comes to the node. Answers the stop if its operator fails.
    pub(crate) fn close(
        &mut self,
        alloc: Global,
        nodes: &[Node],
        node: u32,
    ) -> Result<Option<Stop>, Mem>
        requires { Stands nodes.now self.old (close node) }
        ensures { (s : State) → IsParts nodes.now s self.old → CloseIsLegal (plain_graph nodes.now) s node
            → Happens nodes.now s (close node) halt result self.new }
    {
        let Err(fault) = self.nodes.close(alloc, nodes, &self.flights, node) else {
            self.open_nodes -= 1;
            return Ok(None);
        };
        let fault = named(fault)?;
        self.open_nodes -= 1;
        Ok(Some(Stop::Op { node, fault }))
    }
}

/// What all deliveries of a run may cost.
const LIMIT: u64 = 67_108_864;

/// What each delivery costs beside the item's weight.
const DELIVERY: u64 = 64;

/// Whether the charge is past the limit.
fn is_past_limit(sum: u64) -> bool
    ensures { result ≡ nat_lt limit sum }
{
    sum > LIMIT
}

/// What a delivery of the item costs.
fn delivery_cost(item: &Value) -> u64
    ensures value { result ≡ cost (plain_of item.now) }
    ensures small { result < 2 ^ 63 + 65 }
{
    DELIVERY + weight(item)
}

/// The fault, unless it is want of memory.
pub(crate) fn named(fault: OpFault) -> Result<OpFault, Mem>
    ensures { MatchResult result (λ f. (f ≡ fault) × IsNamedFault fault) (λ m. fault_of fault ≡ None) }
{
    match fault {
        OpFault::Mem => Err(Mem),
        fault => Ok(fault),
    }
}
