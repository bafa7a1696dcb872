//! Reads the inputs of a process.

use anyhow::Result;
use nf_ast::{self as ast, Process};
use nf_tasks::{Input, InputPart, InputParts, InputShape};
use nf_value::Place;
use std::alloc::Global;

/// The inputs of a process.
pub(crate) fn inputs(alloc: Global, process: &Process) -> Result<Vec<Input>> {
    match &process.inputs {
        Some(section) => all(alloc, &section.inputs),
        None => Ok(Vec::new(alloc)),
    }
}

fn all(alloc: Global, given: &[ast::Input]) -> Result<Vec<Input>> {
    let mut inputs = Vec::new(alloc);
    for input in given {
        inputs.push(input_of(alloc, input)?)?;
    }
    Ok(inputs)
}

fn input_of(alloc: Global, input: &ast::Input) -> Result<Input> {
    match input {
        ast::Input::One(part) => Ok(Input {
            place: place_of(part),
            shape: InputShape::One(part_of(part)?),
        }),
        ast::Input::Tuple(place, parts) => Ok(Input {
            place: *place,
            shape: InputShape::Tuple(InputParts::of(parts_of(alloc, parts)?)),
        }),
    }
}

fn parts_of(alloc: Global, given: &[ast::InputPart]) -> Result<Vec<InputPart>> {
    let mut parts = Vec::new(alloc);
    for part in given {
        parts.push(part_of(part)?)?;
    }
    Ok(parts)
}

fn place_of(part: &ast::InputPart) -> Place {
    match part {
        ast::InputPart::Val(place, _, _) => *place,
        ast::InputPart::Path(place, _, _) => *place,
        ast::InputPart::Stdin(place) => *place,
    }
}

fn part_of(part: &ast::InputPart) -> Result<InputPart> {
    match part {
        ast::InputPart::Val(_, _, name) => Ok(InputPart::Val(name.copy()?)),
        ast::InputPart::Path(_, _, name) => Ok(InputPart::Path(name.copy()?)),
        ast::InputPart::Stdin(_) => Ok(InputPart::Stdin),
    }
}
