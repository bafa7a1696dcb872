//! What follows from the ports of a node.

ghost use Rattle.std.specs.Prelude.{◌≡◌, ◌<◌, ◌^◌, length, IfSome};
ghost use Rattle.nf_operator.specs.Row.{output_kind};
ghost use Rattle.nf_plan.specs.Calls.{are_values, gives_value, queue_in};

use nf_bag::Row;
use nf_graph::Port;
use nf_operator::{OutputKind, output_kind};

/// Whether the outputs of an operator that reads these ports are value channels.
pub(crate) fn gives_value(row: Row, ports: &[Port]) -> bool
    ensures { result ≡ gives_value (output_kind row) ports.now }
{
    match output_kind(row) {
        OutputKind::Value => true,
        OutputKind::Queue => false,
        OutputKind::AsInputs => are_values(ports),
    }
}

/// Whether all these ports read value channels.
pub(crate) fn are_values(ports: &[Port]) -> bool
    ensures { result ≡ are_values ports.now }
{
    ports.iter().all(|port| port.value)
}

/// The place of the first port that reads a queue.
pub(crate) fn queue_in(ports: &[Port]) -> Option<u32>
    requires { length ports.now < 2 ^ 32 }
    ensures { result ≡ queue_in ports.now }
{
    match first_queue(ports) {
        Some(place) => Some(place as u32),
        None => None,
    }
}

fn first_queue(ports: &[Port]) -> Option<usize>
    ensures first { result ≡ queue_in ports.now }
    ensures bound { IfSome result (λ place. place < length ports.now) }
{
    ports.iter().position(|port| !port.value)
}
