//! `Flights`: the takes in flight, by their numbers.

ghost use Rattle.std.specs.Prelude.{◌≡◌, ◌==◌, ◌+◌, ◌<◌, ◌^◌, [], ◌∷◌, ◌++◌, ℕ, List, Some, None, true, false, suc, length, count_by, slice_index_or, IfOk, OnOk, OnErr};
ghost use Rattle.nf_machine.specs.Report.{Report};
ghost use Rattle.nf_machine.specs.State.{Ticket};
ghost use Rattle.nf_machine.specs.Step.{ticket_at, with_ticket, without};

use crate::flight::Flight;
use nf_value::Mem;
use std::alloc::Global;

/// The takes in flight (own). A take is found by its number without a walk, and it is told how many there are, of each node too.
pub struct Flights {
    /// What is kept of each take that was made, by its number from 1; nothing once it came back.
    takes: Vec<Option<Flight>>,
    /// How many of each node are in flight.
    of_nodes: Vec<usize>,
    /// How many are in flight.
    count: usize,
}

impl Drop for Flights {
    fn drop(self) {
        let Flights {
            takes: _,
            of_nodes: _,
            count: _,
        } = self;
    }
}

impl Flights {
    ghost use Rattle.nf_flight.specs.Flights.{HasAttempts, HasTickets, IsFlights, IsFlying, next_of, nodes_of};

    /// The takes before the first, of so many nodes.
    ///
    /// # Errors
    ///
    /// `Mem` if there is no memory for it.
    pub fn begin(alloc: Global, nodes: usize) -> Result<Flights, Mem>
        ensures nodes { IfOk result (λ c. nodes_of c ≡ nodes) }
        ensures flights { IfOk result (IsFlights 1 []) }
    {
        let of_nodes = zeros(alloc, nodes)?;
        Ok(Flights {
            takes: Vec::new(alloc),
            of_nodes,
            count: 0,
        })
    }

    /// How many takes are in flight.
    pub fn in_flight(&self) -> usize
        ensures { (next : ℕ) (tickets : List Ticket) → IsFlights next tickets self.now → result ≡ length tickets }
    {
        self.count
    }

    /// How many takes of a node are in flight.
    pub fn of_node(&self, node: u32) -> usize
        requires { node < nodes_of self.now }
        ensures { (next : ℕ) (tickets : List Ticket) → IsFlights next tickets self.now
            → result ≡ count_by (λ k. k.node == node) tickets }
    {
        self.of_nodes[node as usize]
    }

    /// Whether the attempt of a take in flight is started.
    pub fn is_started(&self, number: u32) -> bool
        requires { IsFlying self.now number }
        ensures { (next : ℕ) (tickets : List Ticket) (k : Ticket) → IsFlights next tickets self.now
            → ticket_at number tickets ≡ Some k → result ≡ k.started }
    {
        match self.takes[(number - 1) as usize] {
            Some(flight) => flight.is_started,
            None => unreachable!(),
        }
    }

    /// Adds a take of a node, and gives its number.
    ///
    /// # Errors
    ///
    /// `Mem` if there is no memory for it. Nothing is changed then.
    pub fn add(&mut self, node: u32) -> Result<u32, Mem>
        requires shows { HasTickets self.old }
        requires node { node < nodes_of self.old }
        requires number { next_of self.old < 2 ^ 32 }
        ensures nodes { nodes_of self.new ≡ nodes_of self.old }
        ensures number { IfOk result (λ number. number ≡ next_of self.old) }
        ensures after { (next : ℕ) (tickets : List Ticket) (k : Ticket) → IsFlights next tickets self.old
            → k.number ≡ next → k.node ≡ node → k.told ≡ [] → k.started ≡ false
            → OnOk result (IsFlights (suc next) (with_ticket k tickets) self.new) }
        ensures unchanged { (next : ℕ) (tickets : List Ticket) → IsFlights next tickets self.old
            → OnErr result (IsFlights next tickets self.new) }
    {
        let flight = Flight {
            node,
            attempt: 1,
            is_started: false,
        };
        self.takes.push(Some(flight))?;
        self.of_nodes[node as usize] += 1;
        self.count += 1;
        Ok(self.takes.len() as u32)
    }

    /// Starts the attempt of a take in flight. Takes no memory.
    pub fn start(&mut self, number: u32)
        requires { IsFlying self.old number }
        ensures nodes { nodes_of self.new ≡ nodes_of self.old }
        ensures after { (next : ℕ) (tickets : List Ticket) (k : Ticket) → IsFlights next tickets self.old
            → ticket_at number tickets ≡ Some k
            → IsFlights next (with_ticket (record k { started = true }) (without number tickets)) self.new }
    {
        let place = (number - 1) as usize;
        let Some(flight) = self.takes[place] else {
            unreachable!()
        };
        self.takes[place] = Some(Flight {
            node: flight.node,
            attempt: flight.attempt,
            is_started: true,
        });
    }

    /// Lets a take in flight have one attempt more, which isn't started. Takes no memory.
    pub fn again(&mut self, number: u32)
        requires flying { IsFlying self.old number }
        requires attempt { HasAttempts self.old number }
        ensures nodes { nodes_of self.new ≡ nodes_of self.old }
        ensures after { (next : ℕ) (tickets : List Ticket) (k : Ticket) (r : Report) → IsFlights next tickets self.old
            → ticket_at number tickets ≡ Some k
            → IsFlights next
            (with_ticket (record k { told = k.told ++ r ∷ []; started = false }) (without number tickets)) self.new }
    {
        let place = (number - 1) as usize;
        let Some(flight) = self.takes[place] else {
            unreachable!()
        };
        self.takes[place] = Some(Flight {
            node: flight.node,
            attempt: flight.attempt + 1,
            is_started: false,
        });
    }

    /// A take in flight comes back. Takes no memory.
    pub fn leave(&mut self, number: u32)
        requires { IsFlying self.old number }
        ensures nodes { nodes_of self.new ≡ nodes_of self.old }
        ensures after { (next : ℕ) (tickets : List Ticket) (k : Ticket) → IsFlights next tickets self.old
            → ticket_at number tickets ≡ Some k → IsFlights next (without number tickets) self.new }
    {
        let place = (number - 1) as usize;
        let Some(flight) = self.takes[place] else {
            unreachable!()
        };
        self.takes[place] = None;
        self.of_nodes[flight.node as usize] -= 1;
        self.count -= 1;
    }
}

/// So many zeros.
fn zeros(alloc: Global, count: usize) -> Result<Vec<usize>, Mem>
    ensures len { IfOk result (λ v. length v.items ≡ count) }
    ensures each { IfOk result (λ v. (k : ℕ) → slice_index_or v.items k 0 ≡ 0) }
{
    let mut numbers = Vec::with_capacity(alloc, count)?;
    for _number in 0..count {
        numbers.push(0)?;
    }
    Ok(numbers)
}
