//! Times layers that the program doesn't reach. `nf_bench OPERATION COUNT` does one operation: on a list of COUNT numbers, on a text that repeats
//! a few bytes COUNT times, by pushing COUNT items into an operator (COUNT pairs into `join`), by a closure that maps lists of COUNT numbers, by
//! environments over COUNT functions, or by tasks of a shell. It prints what came of it, and on standard error how many microseconds the operation
//! took. With no words it prints the names of the operations.
#![tactic(auto)]

mod closures;
mod operators;
mod tasks;
mod texts;
mod values;

use anyhow::{Context, Result, bail};
use nf_value::{Vals, Value};
use std::alloc::{AllocError, Global};
use std::env;
use std::process::Processes;
use std::rt::{Clock, Env, Files};
use std::time::Instant;

fn main(rt: HostRuntime) -> Result<()> {
    run(&rt)
}

fn run<R: Env + Clock + Files + Processes + AllocGlobal + Print + Eprint>(rt: &R) -> Result<()> {
    let mut words = env::args(rt)?.skip(1);
    let Some(operation) = words.next() else {
        return print_operations(rt);
    };
    let count = words.next().context("how many?")?;
    let count = count.parse::<u32>().context("how many?")?;
    operate(rt, operation.as_str(), count)
}

fn print_operations<R: Print>(rt: &R) -> Result<()> {
    println!(rt; "values: copy compare sort encode decode")?;
    println!(rt; "texts: lex-names lex-holes lex-brackets lex-strings")?;
    println!(rt; "operators: unique join")?;
    println!(rt; "closures: closure environments")?;
    println!(rt; "tasks: tasks digests staged outputs store digest children")?;
    Ok(())
}

fn operate<R: Clock + Files + Processes + AllocGlobal + Print + Eprint>(
    rt: &R,
    operation: &str,
    count: u32,
) -> Result<()> {
    match operation {
        "tasks" => tasks::tasks(rt, count),
        "digests" => tasks::digests(rt, count),
        "staged" => tasks::staged(rt, count),
        "outputs" => tasks::outputs(rt, count),
        "store" => tasks::store(rt),
        "digest" => tasks::digest(rt),
        "children" => tasks::children(rt, count),
        "lex-names" => texts::lex(rt, "a_name1\n", count),
        "lex-holes" => texts::lex(rt, "\"${", count),
        "lex-brackets" => texts::lex(rt, "({[", count),
        "lex-strings" => texts::lex(rt, "'\\u0041' \"$a.b\" /* c */\n", count),
        "unique" => operators::unique(rt, count),
        "join" => operators::join(rt, count),
        "closure" => closures::closure(rt, count),
        "environments" => closures::environments(rt, count),
        operation => operate_on_values(rt, operation, count),
    }
}

fn operate_on_values<R: Clock + AllocGlobal + Print + Eprint>(
    rt: &R,
    operation: &str,
    count: u32,
) -> Result<()> {
    let list = numbers(rt.alloc(), count)?;
    match operation {
        "copy" => values::copy(rt, &list),
        "compare" => values::compare(rt, list),
        "sort" => values::sort(rt, list),
        "encode" => values::encode(rt, list),
        "decode" => values::decode(rt, list),
        _ => bail!("no such operation"),
    }
}

/// Numbers in no order.
fn numbers(alloc: Global, count: u32) -> Result<Vals, AllocError> {
    let mut items = Vec::with_capacity(alloc, count as usize)?;
    let mut number = 1u64;
    for _ in 0..count {
        number = number
            .wrapping_mul(6364136223846793005)
            .wrapping_add(1442695040888963407);
        items.push(Value::Int(i64::from((number >> 33) as u32)))?;
    }
    Ok(Vals::of(items))
}

/// Prints on standard error how many microseconds have passed since `start`.
fn took<R: Clock + Eprint>(rt: &R, start: Instant) -> Result<()> {
    let micros = start.elapsed(rt)?.as_micros();
    eprintln!(rt; "{micros}")?;
    Ok(())
}
