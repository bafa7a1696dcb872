//! Evaluates a table of expressions. Standard input has a row a line: an expression, or `CLOSURE <- LIST` for a closure that is applied to
//! the items of a list, and either after `in a process: `. Each row is printed with its value, where a text stands in single quotes, or
//! with its fault and the fault's place. After `uses: ` stands an expression that is printed with what it uses, after `names: ` one with the names that
//! stand in it (in its body, where it is a closure), and after `unbound: ` one with the place of the first that nothing binds. Empty lines and lines that
//! begin with `#` are printed as they are.
#![tactic(auto)]

mod functions;
mod known;
mod names;
mod parsed;
mod patterns;
mod row;
mod uses;

ghost use Rattle.nf_builtins.specs.Natives.{AnswersNative, program_answer};

use anyhow::{Result, bail};
use nf_builtins::{CallFault, Natives, ProgramBook, StoredNatives, program_names, program_native};
use nf_value::{EvalRefusal, Vals, Value, text_of};
use std::alloc::Global;

fn main(rt: HostRuntime) -> Result<()> {
    run(&rt)
}

fn run<R: AllocGlobal + Input + Print>(rt: &R) -> Result<()> {
    let alloc = rt.alloc();
    let natives = StoredNatives::new(
        program_names(alloc)?,
        ProgramBook,
        |alloc: Global, id: u32, args: &Vals| -> Result<Value, CallFault>
            ensures { AnswersNative (program_answer id args.entry.now) result }
        { program_native(alloc, id, args) },
    );
    for line in rt.lines(alloc) {
        let line = line?;
        print_line(rt, line.as_str(), &natives)?;
    }
    Ok(())
}

/// Prints a row and what it gives.
fn print_line<R: AllocGlobal + Print, N: Natives>(rt: &R, line: &str, natives: &N) -> Result<()>
    requires { N.keeps natives.now }
{
    if line.is_empty() || line.starts_with('#') {
        println!(rt; "{line}")?;
        return Ok(());
    }
    let alloc = rt.alloc();
    let answer = answer(alloc, line, natives)?;
    println!(rt; "{line} => {answer}")?;
    Ok(())
}

/// What a row gives.
fn answer<N: Natives>(alloc: Global, line: &str, natives: &N) -> Result<String>
    requires { N.keeps natives.now }
{
    if let Some(text) = line.strip_prefix("uses: ") {
        return uses::uses(alloc, text);
    }
    if let Some(text) = line.strip_prefix("names: ") {
        return names::names(alloc, text);
    }
    if let Some(text) = line.strip_prefix("unbound: ") {
        return uses::unbound_place(alloc, text, natives);
    }
    let value = row::answer(alloc, line, natives)?;
    shown(alloc, value)
}

/// A value, or a fault with its place.
fn shown(alloc: Global, answer: Result<Value, EvalRefusal>) -> Result<String> {
    match answer {
        Ok(value) => shown_value(alloc, &value),
        Err(EvalRefusal::Fault(fault)) => {
            Ok(format!(in alloc; "{} at {}", fault.kind, fault.place)?)
        }
        Err(EvalRefusal::Mem) => bail!("want of memory"),
    }
}

/// The text of a value, with single quotes round one that is a text itself.
fn shown_value(alloc: Global, value: &Value) -> Result<String> {
    let text = text_of(alloc, value)?;
    let text = text.as_str();
    match value {
        Value::Text(_) => Ok(format!(in alloc; "'{text}'")?),
        _ => Ok(format!(in alloc; "{text}")?),
    }
}
