//! Whole runs of the small graph on one lane.

ghost use Rattle.std.specs.Prelude.{◌≡◌, [], ◌∷◌, false, IfOk};
ghost use Rattle.tests_serial.specs.Small.{small_nodes, small_process, small_source, small_view};

use crate::rules::{Small, small_tells_apart};
use nf_bag::{OpOpts, Row, Total};
use nf_flow::Flow;
use nf_graph::{Graph, Node, NodeKind, Port, Ports};
use nf_keeper::MemKeeper;
use nf_lane::{Kept, Lane, Table, TableLane};
use nf_machine::Event;
use nf_serial::run_alone;
use nf_value::{Mem, Vals, Value};
use std::alloc::Global;
use std::test::Fail;

/// A port that reads the one output of a node.
fn port(alloc: Global, from: u32) -> Result<Ports, Mem>
    ensures { IfOk result (λ p. p ≡ record { from = from; out = 0; value = false } ∷ []) }
{
    let port = Port {
        from,
        out: 0,
        value: false,
    };
    Ok(Ports::of(vec![in alloc; port]?))
}

/// A source of the item 5.
fn source(alloc: Global) -> Result<Node, Mem>
    ensures { IfOk result (λ n. n ≡ small_source) }
{
    Ok(Node {
        kind: NodeKind::Source {
            items: Vals::of(vec![in alloc; Value::Int(5)]?),
        },
        ports: Ports::of(Vec::new(alloc)),
        outs: 1,
    })
}

/// `view`, which reads the source.
fn view(alloc: Global) -> Result<Node, Mem>
    ensures { IfOk result (λ n. n ≡ small_view) }
{
    Ok(Node {
        kind: NodeKind::Op {
            row: Row::View,
            opts: OpOpts {
                by: None,
                remainder: false,
                sort: false,
                flat: false,
                start: None,
                total: Total::Sum,
                outs: 0,
            },
        },
        ports: port(alloc, 0)?,
        outs: 1,
    })
}

/// A process, which reads `view`.
fn process(alloc: Global) -> Result<Node, Mem>
    ensures { IfOk result (λ n. n ≡ small_process) }
{
    Ok(Node {
        kind: NodeKind::Process { queue: Some(0) },
        ports: port(alloc, 1)?,
        outs: 1,
    })
}

/// The source, `view` and the process.
pub(crate) fn small_graph(alloc: Global) -> Result<Graph, Mem>
    ensures { IfOk result (λ g. g ≡ small_nodes) }
{
    Ok(Graph::new(vec![in alloc; source(alloc)?, view(alloc)?, process(alloc)?]?))
}

/// A run that is over, and how often its lane ran.
#[derive(Drop)]
struct End {
    flow: Flow,
    kept: Kept<TableLane>,
    keeper: MemKeeper,
    runs: u64,
}

/// Runs the graph on a new lane, each of whose jobs ends with status 127.
fn run_small(alloc: Global, keeper: MemKeeper, resume: bool) -> Result<End, Mem> {
    small_tells_apart();
    let flow = Flow::begin(alloc, small_graph(alloc)?)?;
    let mut lane = TableLane::new(Table::of(Vec::new(alloc)), Vec::new(alloc));
    let (flow, kept, keeper) = run_alone(alloc, flow, keeper, &mut lane, &Small, resume);
    Ok(End {
        flow,
        kept,
        keeper,
        runs: lane.runs(),
    })
}

/// The first letter of an event's name.
fn letter(event: &Event) -> u8 {
    match event {
        Event::Pass { .. } => b'P',
        Event::Take { .. } => b'T',
        Event::Give { .. } => b'G',
        Event::Start { .. } => b'S',
        Event::Reuse { .. } => b'R',
        Event::Finish { .. } => b'F',
        Event::Close { .. } => b'C',
        Event::Abort { .. } => b'A',
        Event::Halt => b'H',
    }
}

/// Whether the history's events have these letters.
fn spells(flow: &Flow, letters: &[u8]) -> bool {
    let history = flow.history();
    history.len() == letters.len()
        && history
            .iter()
            .zip(letters)
            .all(|(event, due)| letter(event) == *due)
}

#[test]
fn a_graph_runs_and_is_resumed(rt: HostRuntime) -> Result<(), Fail> {
    let alloc = rt.alloc();
    let first = run_small(alloc, MemKeeper::new(alloc), false)?;
    assert!(rt; first.flow.ended_well());
    assert!(rt; spells(&first.flow, b"PTGPTSFSFCC"));
    assert_eq!(rt; first.runs, 2);
    assert_eq!(rt; first.kept.dones.len(), 2);
    let again = run_small(alloc, first.keeper, true)?;
    assert!(rt; again.flow.ended_well());
    assert!(rt; spells(&again.flow, b"PTGPTRRCC"));
    assert_eq!(rt; again.runs, 0);
    assert_eq!(rt; again.kept.seens.len(), 2);
    Ok(())
}
