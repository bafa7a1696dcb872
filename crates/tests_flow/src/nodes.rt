//! Whole nodes.

ghost use Rattle.std.specs.Prelude.{◌≡◌, IfOk};
ghost use Rattle.tests_flow.specs.View.{paired_node, view_node};

use nf_bag::{OpFault, OpOpts, Row, Total};
use nf_graph::{Node, NodeKind, Port, Ports};
use nf_job::Emitted;
use nf_spot::NodeState;
use nf_value::{Mem, Value};
use std::alloc::Global;
use std::test::Fail;

/// The operator `view`, which reads one output.
pub(crate) fn view(alloc: Global) -> Result<Node, Mem>
    ensures { IfOk result (λ n. n ≡ view_node) }
{
    let mut ports = Vec::new(alloc);
    ports.push(Port {
        from: 0,
        out: 0,
        value: false,
    })?;
    Ok(Node {
        kind: NodeKind::Op {
            row: Row::View,
            opts: OpOpts {
                by: None,
                remainder: false,
                sort: false,
                flat: false,
                start: None,
                total: Total::Sum,
                outs: 0,
            },
        },
        ports: Ports::of(ports),
        outs: 1,
    })
}

/// How many values were emitted.
fn count_of(emits: Result<Vec<(u32, Value)>, OpFault>) -> Result<usize, Mem> {
    match emits {
        Ok(emits) => Ok(emits.len()),
        Err(_) => Err(Mem),
    }
}

#[test]
fn an_operator_gives_what_it_takes(rt: HostRuntime) -> Result<(), Fail> {
    let alloc = rt.alloc();
    nf_spot::laws::rooms();
    let node = view(alloc)?;
    let mut state = NodeState::begin(alloc, &node)?;
    assert!(rt; state.is_spent(&node));
    assert_eq!(rt; state.can_take(&node), None);
    state.receive(0, Value::Int(7))?;
    assert_eq!(rt; state.passed(0), 1);
    assert!(rt; !state.is_spent(&node));
    let taken = state.take(alloc, &node, 0, 0)?;
    assert_eq!(rt; taken.inputs.len(), 1);
    state.emit(0, Value::Int(7))?;
    assert_eq!(rt; state.emitted(0), 1);
    assert!(rt; *state.item(0, 0) == Value::Int(7));
    assert_eq!(rt; count_of(state.push(0, Value::Int(7), Value::Int(8)))?, 1);
    assert_eq!(rt; count_of(state.close(alloc))?, 0);
    Ok(())
}

/// A process with a value port and a queue port.
fn paired(alloc: Global) -> Result<Node, Mem>
    ensures { IfOk result (λ n. n ≡ paired_node) }
{
    let mut ports = Vec::new(alloc);
    ports.push(Port {
        from: 0,
        out: 0,
        value: true,
    })?;
    ports.push(Port {
        from: 0,
        out: 0,
        value: false,
    })?;
    Ok(Node {
        kind: NodeKind::Process { queue: Some(1) },
        ports: Ports::of(ports),
        outs: 1,
    })
}

#[test]
fn equal_inputs_are_counted_beside_a_value(rt: HostRuntime) -> Result<(), Fail> {
    let alloc = rt.alloc();
    nf_spot::laws::rooms();
    let node = paired(alloc)?;
    let mut state = NodeState::begin(alloc, &node)?;
    state.receive(0, Value::Int(5))?;
    state.receive(1, Value::Int(7))?;
    let first = state.take(alloc, &node, 1, 0)?;
    assert_eq!(rt; first.inputs.len(), 2);
    assert_eq!(rt; first.n, 0);
    state.receive(1, Value::Int(7))?;
    let second = state.take(alloc, &node, 1, 0)?;
    assert_eq!(rt; second.n, 1);
    Ok(())
}

#[test]
fn a_process_without_ports_takes_once(rt: HostRuntime) -> Result<(), Fail> {
    let alloc = rt.alloc();
    nf_spot::laws::rooms();
    let node = Node {
        kind: NodeKind::Process { queue: None },
        ports: Ports::of(Vec::new(alloc)),
        outs: 1,
    };
    let mut state = NodeState::begin(alloc, &node)?;
    assert_eq!(rt; state.can_take(&node), Some(0));
    let taken = state.take(alloc, &node, 0, 0)?;
    assert_eq!(rt; taken.n, 0);
    assert!(rt; state.is_spent(&node));
    state.emit_outputs(&Emitted::of(vec![in alloc; Some(Value::Int(5))]?))?;
    state.emit_all(vec![in alloc; (0, Value::Int(6)), (1, Value::Int(7))]?)?;
    assert_eq!(rt; state.emitted(0), 2);
    Ok(())
}
