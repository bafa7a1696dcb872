//! `Ticket`: what a caller has of a take in flight.

ghost use Rattle.std.specs.Prelude.{◌≡◌, ◌+◌, ◌<◌, ◌^◌};

use nf_value::Vals;

/// A take in flight, which its caller returns to the run (own). It can't be copied. That a run is handed a ticket once is asked by each call
/// (`IsFlying`), not by this type.
#[derive(Drop)]
pub struct Ticket {
    number: u32,
    node: u32,
    port: u32,
    inputs: Vals,
    n: u32,
    attempt: u32,
}

impl Ticket {
    ghost use Rattle.nf_flight.specs.Ticket.{attempt_of, inputs_of, n_of, next_attempt, node_of, number_of, port_of};

    /// The ticket of a take. Its attempt is the first.
    pub fn new(number: u32, node: u32, port: u32, inputs: Vals, n: u32) -> Ticket
        ensures number { number_of result ≡ number }
        ensures node { node_of result ≡ node }
        ensures port { port_of result ≡ port }
        ensures inputs { inputs_of result ≡ inputs }
        ensures n { n_of result ≡ n }
        ensures attempt { attempt_of result ≡ 1 }
    {
        Ticket {
            number,
            node,
            port,
            inputs,
            n,
            attempt: 1,
        }
    }

    /// The ticket for the attempt after this one.
    pub fn again(self) -> Ticket
        requires { attempt_of self + 1 < 2 ^ 32 }
        ensures { result ≡ next_attempt self }
    {
        Ticket {
            number: self.number,
            node: self.node,
            port: self.port,
            inputs: self.inputs,
            n: self.n,
            attempt: self.attempt + 1,
        }
    }

    /// Its number, from 1.
    pub fn number(&self) -> u32
        ensures { result ≡ number_of self.now }
    {
        self.number
    }

    /// The node's place, from 0.
    pub fn node(&self) -> u32
        ensures { result ≡ node_of self.now }
    {
        self.node
    }

    /// The place of the port that the item left, among the node's ports; 0 for a process without a queue port.
    pub fn port(&self) -> u32
        ensures { result ≡ port_of self.now }
    {
        self.port
    }

    /// The inputs; of an operator its one item.
    pub fn inputs(&self) -> &Vals
        ensures { result.now ≡ inputs_of self.now }
    {
        &self.inputs
    }

    /// The inputs, without the ticket.
    pub fn into_inputs(self) -> Vals
        ensures { result ≡ inputs_of self }
    {
        self.inputs
    }

    /// How many takes of equal inputs came before it; 0 for an operator.
    pub fn n(&self) -> u32
        ensures { result ≡ n_of self.now }
    {
        self.n
    }

    /// The attempt, from 1.
    pub fn attempt(&self) -> u32
        ensures { result ≡ attempt_of self.now }
    {
        self.attempt
    }
}
