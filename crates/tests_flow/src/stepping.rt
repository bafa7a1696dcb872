//! Whole graphs, from their first move to the last.

ghost use Rattle.std.specs.Prelude.{◌≡◌, true, is_ok, IfOk, OnOk};
ghost use Rattle.tests_flow.specs.View.{task_nodes, viewed_nodes};

use crate::nodes::view;
use nf_bag::OpFault;
use nf_flight::Flights;
use nf_graph::{Graph, Node, NodeKind, Ports};
use nf_job::{Emitted, Outputs};
use nf_machine::Move;
use nf_nodes::Nodes;
use nf_value::{Mem, Vals, Value};
use std::alloc::Global;
use std::test::Fail;

/// A source of the item 7, and `view`, which reads it.
pub(crate) fn viewed(alloc: Global) -> Result<Graph, Mem>
    ensures { IfOk result (λ g. g ≡ viewed_nodes) }
{
    let source = Node {
        kind: NodeKind::Source {
            items: Vals::of(vec![in alloc; Value::Int(7)]?),
        },
        ports: Ports::of(Vec::new(alloc)),
        outs: 1,
    };
    Ok(Graph::new(vec![in alloc; source, view(alloc)?]?))
}

/// A process without ports, and `view`, which reads it.
pub(crate) fn tasked(alloc: Global) -> Result<Graph, Mem>
    ensures { IfOk result (λ g. g ≡ task_nodes) }
{
    let process = Node {
        kind: NodeKind::Process { queue: None },
        ports: Ports::of(Vec::new(alloc)),
        outs: 1,
    };
    Ok(Graph::new(vec![in alloc; process, view(alloc)?]?))
}

/// That a call of an operator succeeded.
fn done(answer: Result<(), OpFault>) -> Result<(), Mem>
    ensures { OnOk result (is_ok answer ≡ true) }
{
    match answer {
        Ok(()) => Ok(()),
        Err(_) => Err(Mem),
    }
}

#[test]
fn an_item_goes_through_a_view(rt: HostRuntime) -> Result<(), Fail> {
    let alloc = rt.alloc();
    let graph = viewed(alloc)?;
    let list = graph.nodes();
    let mut flights = Flights::begin(alloc, 2)?;
    let mut nodes = Nodes::begin(alloc, &graph, &flights)?;
    assert_eq!(rt; nodes.open_nodes(), 1);
    assert_eq!(rt; nodes.ready(list), Some(Move::Pass { port: 0 }));
    assert!(rt; *nodes.next_item(list, 0) == Value::Int(7));
    nodes.receive(list, &flights, 0, Value::Int(7))?;
    assert_eq!(rt;
        nodes.ready_at(list, 1),
        Some(Move::Take {
            node: 1,
            port: 0,
            place: 0
        })
    );
    assert_eq!(rt; nodes.take(alloc, list, 1, 0, 0)?.inputs.len(), 1);
    let ticket = flights.add(1)?;
    assert_eq!(rt; nodes.ready(list), None);
    flights.leave(ticket);
    done(nodes.give(list, &flights, 1, 0, Value::Int(7), Value::Int(8)))?;
    assert_eq!(rt; nodes.ready(list), Some(Move::Close { node: 1 }));
    done(nodes.close(alloc, list, &flights, 1))?;
    assert_eq!(rt; nodes.open_nodes(), 0);
    nf_nodes::laws::tickets_change();
    Ok(())
}

#[test]
fn what_a_task_emits_can_pass(rt: HostRuntime) -> Result<(), Fail> {
    let alloc = rt.alloc();
    let graph = tasked(alloc)?;
    let list = graph.nodes();
    let mut flights = Flights::begin(alloc, 2)?;
    let mut nodes = Nodes::begin(alloc, &graph, &flights)?;
    assert_eq!(rt; nodes.take(alloc, list, 0, 0, 0)?.n, 0);
    let ticket = flights.add(0)?;
    flights.leave(ticket);
    let outputs = Outputs::Emits(Emitted::of(vec![in alloc; Some(Value::Int(5))]?));
    nodes.emit(list, &flights, 0, &outputs)?;
    assert_eq!(rt; nodes.ready(list), Some(Move::Pass { port: 0 }));
    Ok(())
}
