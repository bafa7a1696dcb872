//! Prints the table of operators, a line for each row: its name, what it is given, its options, its closure, what it gives, and when its result is the
//! order of arrival.
#![tactic(auto)]

use anyhow::Result;
use nf_optable::{Args, Arrival, ClosureUse, Gives, Named, OpRow, operators};

fn main(rt: HostRuntime) -> Result<()> {
    let table = operators(rt.alloc())?;
    for row in table.rows() {
        print_row(&rt, row)?;
    }
    Ok(())
}

/// Prints the line of a row.
fn print_row<R: Print>(rt: &R, row: &OpRow) -> Result<()> {
    let name = row.name();
    let args = args(row.args);
    let closure = closure(row.closure);
    let gives = gives(row.gives);
    let arrival = arrival(row.operator.arrival());
    print!(rt; "{name}: {args}; ")?;
    print_options(rt, row)?;
    println!(rt; "; {closure}; {gives}; {arrival}")?;
    Ok(())
}

/// Prints the names of a row's options.
fn print_options<R: Print>(rt: &R, row: &OpRow) -> Result<()> {
    if row.options.names().is_empty() {
        print!(rt; "no option")?;
        return Ok(());
    }
    for (place, name) in row.options.names().iter().enumerate() {
        let before = if place == 0 { "" } else { " " };
        print!(rt; "{before}{name}:")?;
    }
    Ok(())
}

/// The arguments that have no name.
fn args(args: Args) -> &'static str {
    match args {
        Args::Nothing => "no argument",
        Args::Channel => "a channel",
        Args::Channels => "channels",
        Args::Value => "a value",
        Args::MaybeValue => "a value or none",
        Args::Values => "values",
    }
}

/// The closure.
fn closure(closure: ClosureUse) -> &'static str {
    match closure {
        ClosureUse::Never => "no closure",
        ClosureUse::May => "a closure or none",
        ClosureUse::Must => "a closure",
        ClosureUse::InPlace => "a closure in place of the value",
        ClosureUse::Labels => "a closure with labels",
        ClosureUse::Name => "a closure that is a name",
        ClosureUse::Total => "a closure that adds up",
        ClosureUse::Refused => "a closure is refused",
    }
}

/// The channels that it gives.
fn gives(gives: Gives) -> &'static str {
    match gives {
        Gives::ValueChannel => "a value channel",
        Gives::Queue => "a queue",
        Gives::AsInputs => "as its inputs",
    }
}

/// When its result is the order of arrival.
fn arrival(arrival: Arrival) -> &'static str {
    match arrival {
        Arrival::Never => "has a bag",
        Arrival::OfQueue => "refused of a queue",
        Arrival::Always => "refused",
    }
}
