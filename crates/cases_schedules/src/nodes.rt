//! The nodes of a row.

use crate::items::{items, small};
use crate::options::options;
use anyhow::{Result, bail};
use nf_bag::Row;
use nf_graph::{Node, NodeKind, Port, Ports};
use nf_operator::outs;
use std::alloc::Global;

/// All operators that have a bag.
const ROWS: &[Row] = &[
    Row::Branch,
    Row::Collect,
    Row::Combine,
    Row::Concat,
    Row::Count,
    Row::Filter,
    Row::First,
    Row::FlatMap,
    Row::Flatten,
    Row::GroupTuple,
    Row::IfEmpty,
    Row::Join,
    Row::Last,
    Row::Map,
    Row::Max,
    Row::Min,
    Row::Mix,
    Row::MultiMap,
    Row::Reduce,
    Row::Set,
    Row::Sum,
    Row::ToList,
    Row::ToSortedList,
    Row::Transpose,
    Row::Unique,
    Row::View,
];

/// The node that a text tells.
pub(crate) fn node_of(alloc: Global, given: &str) -> Result<Node> {
    let (name, rest) = given.split_once(' ').unwrap_or((given, ""));
    if name == "source" {
        return Ok(Node {
            kind: NodeKind::Source {
                items: items(alloc, rest)?,
            },
            ports: Ports::of(Vec::new(alloc)),
            outs: 1,
        });
    }
    let (given_ports, rest) = rest.split_once('|').unwrap_or((rest, ""));
    let ports = ports_of(alloc, given_ports)?;
    if name == "process" {
        return process(ports, rest.trim());
    }
    operator(alloc, name, ports, rest.trim())
}

fn process(ports: Vec<Port>, outs: &str) -> Result<Node> {
    let mut queue = None;
    for (place, port) in ports.iter().enumerate() {
        if !port.value {
            if queue.is_some() {
                bail!("two queues");
            }
            queue = Some(small(place)?);
        }
    }
    let outs = if outs.is_empty() {
        1
    } else {
        outs.parse::<u32>()?
    };
    Ok(Node {
        kind: NodeKind::Process { queue },
        ports: Ports::of(ports),
        outs,
    })
}

fn operator(alloc: Global, name: &str, ports: Vec<Port>, given: &str) -> Result<Node> {
    let row = row_named(name)?;
    let opts = options(alloc, given)?;
    let outs = outs(row, &opts);
    Ok(Node {
        kind: NodeKind::Op { row, opts },
        ports: Ports::of(ports),
        outs,
    })
}

fn row_named(name: &str) -> Result<Row> {
    for row in ROWS.iter().copied() {
        if row.name() == name {
            return Ok(row);
        }
    }
    bail!("{name}: no operator")
}

fn ports_of(alloc: Global, given: &str) -> Result<Vec<Port>> {
    let mut ports = Vec::new(alloc);
    for text in given.split_whitespace() {
        ports.push(port_of(text)?)?;
    }
    Ok(ports)
}

/// The port that a text tells.
fn port_of(given: &str) -> Result<Port> {
    let (value, rest) = match given.strip_prefix('=') {
        Some(rest) => (true, rest),
        None => (false, given),
    };
    let (from, out) = rest.split_once('.').unwrap_or((rest, "0"));
    Ok(Port {
        from: from.parse::<u32>()?,
        out: out.parse::<u32>()?,
        value,
    })
}
