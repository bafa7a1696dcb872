//! The graphs that are run.

use anyhow::{Result, bail};
use nf_bag::{OpOpts, Row, Total};
use nf_graph::{Graph, Node, NodeKind, Port, Ports};
use nf_steps::GraphMaker;
use nf_value::{Mem, Vals, Value};
use std::alloc::Global;

/// COUNT items through `map`, `filter` and `count`.
pub(crate) fn items(alloc: Global, count: u32) -> Result<Graph> {
    let mut maker = GraphMaker::new(alloc);
    add(&mut maker, source(alloc, count, 1)?)?;
    add(&mut maker, operator(alloc, Row::Map, 0)?)?;
    add(&mut maker, operator(alloc, Row::Filter, 1)?)?;
    add(&mut maker, operator(alloc, Row::Count, 2)?)?;
    Ok(maker.into_graph())
}

/// COUNT items through `map`.
pub(crate) fn mapped(alloc: Global, count: u32) -> Result<Graph> {
    let mut maker = GraphMaker::new(alloc);
    add(&mut maker, source(alloc, count, 1)?)?;
    add(&mut maker, operator(alloc, Row::Map, 0)?)?;
    Ok(maker.into_graph())
}

/// COUNT tasks of one process, with equal inputs in groups of ten.
pub(crate) fn tasks(alloc: Global, count: u32) -> Result<Graph> {
    let mut maker = GraphMaker::new(alloc);
    add(&mut maker, source(alloc, count, 10)?)?;
    add(&mut maker, process(alloc)?)?;
    add(&mut maker, operator(alloc, Row::Count, 1)?)?;
    Ok(maker.into_graph())
}

/// One item through COUNT nodes in a row.
pub(crate) fn row(alloc: Global, count: u32) -> Result<Graph> {
    let mut maker = GraphMaker::new(alloc);
    add(&mut maker, source(alloc, 1, 1)?)?;
    for from in 0..count.saturating_sub(1) {
        add(&mut maker, operator(alloc, Row::Map, from)?)?;
    }
    Ok(maker.into_graph())
}

fn add(maker: &mut GraphMaker, node: Node) -> Result<()> {
    if !maker.add(node)? {
        bail!("a node that doesn't fit");
    }
    Ok(())
}

/// A source of so many numbers, each of which comes as often as `each` says.
fn source(alloc: Global, count: u32, each: u32) -> Result<Node, Mem> {
    let mut items = Vec::with_capacity(alloc, count as usize)?;
    for place in 0..count {
        let number = place.checked_div(each).unwrap_or(place);
        items.push(Value::Int(i64::from(number)))?;
    }
    Ok(Node {
        kind: NodeKind::Source {
            items: Vals::of(items),
        },
        ports: Ports::of(Vec::new(alloc)),
        outs: 1,
    })
}

/// An operator that reads this node.
fn operator(alloc: Global, row: Row, from: u32) -> Result<Node, Mem> {
    let opts = OpOpts {
        by: None,
        remainder: false,
        sort: false,
        flat: false,
        start: None,
        total: Total::Sum,
        outs: 0,
    };
    Ok(Node {
        kind: NodeKind::Op { row, opts },
        ports: reading(alloc, from)?,
        outs: 1,
    })
}

/// A process that reads the source.
fn process(alloc: Global) -> Result<Node, Mem> {
    Ok(Node {
        kind: NodeKind::Process { queue: Some(0) },
        ports: reading(alloc, 0)?,
        outs: 1,
    })
}

/// One queue port that reads this node.
fn reading(alloc: Global, from: u32) -> Result<Ports, Mem> {
    let port = Port {
        from,
        out: 0,
        value: false,
    };
    Ok(Ports::of(vec![in alloc; port]?))
}
