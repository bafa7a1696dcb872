//! Prints the table of methods, a line for each row: its name, on what values it is read, and how.
#![tactic(auto)]

use anyhow::Result;
use nf_builtins::{Builtin, Form, Named, On, builtins};

fn main(rt: HostRuntime) -> Result<()> {
    let table = builtins(rt.alloc())?;
    for row in table.rows() {
        print_row(&rt, row)?;
    }
    Ok(())
}

/// Prints the line of a row.
fn print_row<R: Print>(rt: &R, row: &Builtin) -> Result<()> {
    let name = row.name();
    let values = values(row.on);
    let form = form(row.form);
    println!(rt; "{name}: {values}; {form}")?;
    Ok(())
}

/// The values that a row is read on.
fn values(on: On) -> &'static str {
    match on {
        On::Nothing => "no value",
        On::Int => "numbers",
        On::Text => "texts",
        On::File => "files",
        On::List => "lists",
        On::Map => "maps",
        On::IntOrText => "numbers, texts",
        On::TextOrList => "texts, lists",
        On::TextListOrMap => "texts, lists, maps",
        On::AnyButNull => "all but null",
    }
}

/// How a row is read: with arguments in parentheses, with a closure, or without parentheses.
fn form(form: Form) -> &'static str {
    match form {
        Form::Call => "call",
        Form::Closure => "closure",
        Form::Property => "property",
    }
}
