//! One run of a graph.

ghost use Rattle.std.specs.Prelude.{◌≡◌, []};

use crate::rules::{Through, tells_apart};
use anyhow::{Result, bail};
use nf_flow::Flow;
use nf_graph::Graph;
use nf_keeper::MemKeeper;
use nf_lane::{Table, TableLane};
use nf_machine::{Event, Stop};
use nf_serial::run_alone;
use std::alloc::Global;
use std::rt::Clock;
use std::time::Instant;

/// What came of a run.
#[derive(Drop)]
struct End {
    deliveries: usize,
    starts: usize,
    /// What all deliveries cost, if they cost more than a run may.
    past: Option<u64>,
}

/// Runs a graph to its end, and prints how long that took and what came of it.
pub(crate) fn time<R: Clock + AllocGlobal + Print + Eprint>(rt: &R, graph: Graph) -> Result<()> {
    let start = Instant::now(rt)?;
    let end = end_of(rt.alloc(), graph);
    took(rt, start)?;
    print_end(rt, end?)
}

/// Prints on standard error how many microseconds went by.
fn took<R: Clock + Eprint>(rt: &R, start: Instant) -> Result<()> {
    let micros = start.elapsed(rt)?.as_micros();
    eprintln!(rt; "{micros}")?;
    Ok(())
}

/// What comes of a run of the graph.
fn end_of(alloc: Global, graph: Graph) -> Result<End> {
    let flow = ended(alloc, Flow::begin(alloc, graph)?);
    told(&flow)
}

/// The run at its end, on a lane whose every task ends with status 127.
fn ended(alloc: Global, flow: Flow) -> Flow
    requires { flow.history ≡ [] }
{
    tells_apart();
    let mut lane = TableLane::new(Table::of(Vec::new(alloc)), Vec::new(alloc));
    let keeper = MemKeeper::new(alloc);
    let (flow, _kept, _keeper) = run_alone(alloc, flow, keeper, &mut lane, &Through, false);
    flow
}

fn told(flow: &Flow) -> Result<End> {
    Ok(End {
        deliveries: passes(flow.history()),
        starts: starts(flow.history()),
        past: past(flow.stop())?,
    })
}

/// The cost that stopped a run, if it was stopped.
fn past(stop: Option<&Stop>) -> Result<Option<u64>> {
    match stop {
        None => Ok(None),
        Some(Stop::Charge { sum }) => Ok(Some(*sum)),
        Some(_) => bail!("stopped"),
    }
}

fn print_end<R: Print>(rt: &R, end: End) -> Result<()> {
    let deliveries = end.deliveries;
    let starts = end.starts;
    match end.past {
        None => println!(rt; "deliveries {deliveries}, starts {starts}, ended")?,
        Some(sum) => println!(rt;
            "deliveries {deliveries}, starts {starts}, stopped: Charge {sum}"
        )?,
    }
    Ok(())
}

/// How many items were delivered.
fn passes(history: &[Event]) -> usize {
    history.iter().filter(|event| is_pass(*event)).count()
}

fn is_pass(event: &Event) -> bool {
    matches!(event, Event::Pass { .. })
}

/// How many attempts were started.
fn starts(history: &[Event]) -> usize {
    history.iter().filter(|event| is_start(*event)).count()
}

fn is_start(event: &Event) -> bool {
    matches!(event, Event::Start { .. })
}
