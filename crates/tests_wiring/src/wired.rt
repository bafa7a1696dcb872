//! A graph of a source and of a process that reads it twice.

use nf_graph::{Graph, Node, NodeKind, Port, Ports};
use nf_value::{Mem, Vals};
use nf_wiring::{Place, Readers, Wiring};
use std::alloc::Global;
use std::test::Fail;

#[test]
fn ports_are_numbered_and_read(rt: HostRuntime) -> Result<(), Fail> {
    let wiring = Wiring::of(rt.alloc(), &small(rt.alloc())?)?;
    assert_eq!(rt; wiring.count(), 2);
    assert_eq!(rt; wiring.place(0), Place { node: 1, port: 0 });
    assert_eq!(rt; wiring.place(1), Place { node: 1, port: 1 });
    assert_eq!(rt; wiring.nodes(), 2);
    assert_eq!(rt; wiring.readers(0), [0, 1].as_slice());
    assert!(rt; wiring.readers(1).is_empty());
    nf_wiring::laws::numbers();
    Ok(())
}

#[test]
fn a_reader_more_comes_last(rt: HostRuntime) -> Result<(), Fail> {
    let mut readers = Readers::new(rt.alloc());
    readers.push(7)?;
    readers.push(3)?;
    assert_eq!(rt; readers.numbers(), [7, 3].as_slice());
    Ok(())
}

fn small(alloc: Global) -> Result<Graph, Mem> {
    let port = Port {
        from: 0,
        out: 0,
        value: true,
    };
    let mut ports = Vec::new(alloc);
    ports.push(port)?;
    ports.push(port)?;
    let source = Node {
        kind: NodeKind::Source {
            items: Vals::of(Vec::new(alloc)),
        },
        ports: Ports::of(Vec::new(alloc)),
        outs: 1,
    };
    let process = Node {
        kind: NodeKind::Process { queue: None },
        ports: Ports::of(ports),
        outs: 0,
    };
    let mut nodes = Vec::new(alloc);
    nodes.push(source)?;
    nodes.push(process)?;
    Ok(Graph::new(nodes))
}
