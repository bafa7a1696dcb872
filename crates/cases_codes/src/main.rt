//! Decodes a table of codes. Standard input has a code a line. For each line the program prints what the code at its front says: the kind of the
//! value, how many bytes were read, the value's weight, depth and truth, its code again, and its text in quotes. Where there is no code, it prints
//! the fault and its place. What follows a code on its line isn't read.
#![tactic(auto)]

use anyhow::{Result, bail};
use nf_codec::CodeFault;
use nf_value::{Txt, Value};
use std::alloc::Global;

fn main(rt: HostRuntime) -> Result<()> {
    print_values(&rt)
}

fn print_values<R: Input + AllocGlobal + Print>(rt: &R) -> Result<()> {
    for line in rt.lines(rt.alloc()) {
        let line = line?;
        print_front(rt, line.as_str())?;
    }
    Ok(())
}

fn print_front<R: AllocGlobal + Print>(rt: &R, line: &str) -> Result<()> {
    match nf_codec::decode(rt.alloc(), line.as_bytes()) {
        Ok((value, len)) => print_value(rt, &value, len),
        Err(CodeFault::Mem) => bail!("no memory"),
        Err(fault) => {
            println!(rt; "{fault}")?;
            Ok(())
        }
    }
}

/// Prints what a value is, of whose code so many bytes were read.
fn print_value<R: AllocGlobal + Print>(rt: &R, value: &Value, len: usize) -> Result<()> {
    let measures = measures(rt.alloc(), value, len)?;
    let code = code(rt.alloc(), value)?;
    let text = nf_value::text_of(rt.alloc(), value)?;
    let kind = kind(value);
    let code = code.as_str();
    let text = text.as_str();
    println!(rt; "{kind} {measures} {code} \"{text}\"")?;
    Ok(())
}

/// How many bytes were read, the weight, the depth and the truth.
fn measures(alloc: Global, value: &Value, len: usize) -> Result<String> {
    let weight = nf_value::weight(value);
    let depth = nf_value::depth(value);
    let truth = nf_value::truth(value);
    Ok(format!(in alloc; "{len} {weight} {depth} {truth}")?)
}

/// The code, which is the same as a text and as bytes.
fn code(alloc: Global, value: &Value) -> Result<Txt> {
    let text = nf_codec::encode_text(alloc, value)?;
    let bytes = nf_codec::encode(alloc, value)?;
    if bytes.as_slice() != text.as_str().as_bytes() {
        bail!("the code isn't its text");
    }
    Ok(text)
}

fn kind(value: &Value) -> &'static str {
    match value {
        Value::Null => "Null",
        Value::Truth(_) => "Truth",
        Value::Int(_) => "Int",
        Value::Text(_) => "Text",
        Value::File(_) => "File",
        Value::List(_) => "List",
        Value::Map(_) => "Map",
    }
}
