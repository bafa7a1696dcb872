//! Times whole runs of graphs, in memory and on one lane. `nf_flowbench GRAPH COUNT` runs a graph of COUNT items, tasks or nodes. It prints what came of the
//! run, and on standard error how many microseconds it took. With no words it prints the names of the graphs.
#![tactic(auto)]

mod graphs;
mod rules;
mod runs;

use anyhow::{Context, Result, bail};
use nf_graph::Graph;
use std::alloc::Global;
use std::env;
use std::rt::{Clock, Env};

fn main(rt: HostRuntime) -> Result<()> {
    run(&rt)
}

fn run<R: Env + Clock + AllocGlobal + Print + Eprint>(rt: &R) -> Result<()> {
    let mut words = env::args(rt)?.skip(1);
    let Some(name) = words.next() else {
        println!(rt; "items tasks row map")?;
        return Ok(());
    };
    let count = words.next().context("how many?")?;
    let count = count.parse::<u32>().context("how many?")?;
    runs::time(rt, graph(rt.alloc(), name.as_str(), count)?)
}

fn graph(alloc: Global, name: &str, count: u32) -> Result<Graph> {
    match name {
        "items" => graphs::items(alloc, count),
        "tasks" => graphs::tasks(alloc, count),
        "row" => graphs::row(alloc, count),
        "map" => graphs::mapped(alloc, count),
        _ => bail!("no such graph"),
    }
}
