//! Reads the definition of a process.

use crate::inputs::inputs;
use crate::reader::Reader;
use anyhow::{Result, bail};
use nf_ast::{Process, Script, Top};
use nf_lexer::tokens;
use nf_parser::script;
use nf_tasks::{ErrorStrategy, Input, ProcessSpec, TaskScript};
use nf_value::Txt;
use std::alloc::Global;

/// The process that a text defines. Its path is its name.
pub(crate) fn read(alloc: Global, text: &str) -> Result<ProcessSpec> {
    let script = script_in(alloc, text)?;
    match script.tops.as_slice() {
        [Top::Process(process)] => spec(alloc, process),
        _ => bail!("not one process"),
    }
}

fn script_in(alloc: Global, text: &str) -> Result<Script> {
    let Ok(tokens) = tokens(alloc, text.as_bytes()) else {
        bail!("no tokens");
    };
    match script(alloc, &tokens) {
        Ok(script) => Ok(script),
        Err(_) => bail!("no script"),
    }
}

fn spec(alloc: Global, process: &Process) -> Result<ProcessSpec> {
    let inputs = inputs(alloc, process)?;
    let reader = Reader::new(alloc, process.place, &inputs)?;
    let mut spec = started(alloc, process, inputs, &reader)?;
    reader.read_outputs(&mut spec, process)?;
    reader.read_directives(&mut spec, process)?;
    Ok(spec)
}

/// The process as it is before its outputs and directives are read.
fn started(
    alloc: Global,
    process: &Process,
    inputs: Vec<Input>,
    reader: &Reader,
) -> Result<ProcessSpec> {
    let name = process.name.copy()?;
    let script = reader.script(&process.task)?;
    Ok(bare(alloc, name, inputs, script))
}

/// A process without outputs and directives.
fn bare(alloc: Global, name: Txt, inputs: Vec<Input>, script: TaskScript) -> ProcessSpec {
    ProcessSpec {
        name,
        inputs,
        cpus: None,
        tag: None,
        strategy: ErrorStrategy::Terminate,
        publishes: Vec::new(alloc),
        script,
        outputs: Vec::new(alloc),
    }
}
