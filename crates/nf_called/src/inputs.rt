//! The inputs of a process.

ghost use Rattle.std.specs.Prelude.{◌≡◌, map, IfOk};
ghost use Rattle.nf_ast.specs.Tops.{view_input, view_input_part, view_process};
ghost use Rattle.nf_ast.specs.View.{trees};
ghost use Rattle.nf_meaning.specs.Places.{begins_at};
ghost use Rattle.nf_meaning.specs.Processes.{input_part, input_parts, inputs_in, inputs_of};
ghost use Rattle.nf_called.specs.Inputs.{input_of};

use nf_ast::Process;
use nf_tasks::{Input, InputPart, InputParts, InputShape};
use nf_value::{Mem, Place};
use std::alloc::Global;

/// The inputs of a process, each with the place of its first word (Nextflow reference documentation, "Process", "Inputs").
///
/// # Errors
///
/// `Mem` for want of memory.
pub fn inputs_of(alloc: Global, process: &Process) -> Result<Vec<Input>, Mem>
    ensures { IfOk result (λ xs. xs.items ≡ inputs_of (view_process process.now)) }
{
    match &process.inputs {
        Some(section) => inputs_in(alloc, &section.inputs),
        None => Ok(Vec::new(alloc)),
    }
}

fn inputs_in(alloc: Global, inputs: &[nf_ast::Input]) -> Result<Vec<Input>, Mem>
    ensures { IfOk result (λ xs. xs.items ≡ inputs_in (trees (map view_input inputs.now))) }
{
    let mut list = Vec::new(alloc);
    for input in inputs {
        list.push(input_of(alloc, input)?)?;
    }
    Ok(list)
}

fn input_of(alloc: Global, input: &nf_ast::Input) -> Result<Input, Mem>
    ensures { IfOk result (λ x. x ≡ input_of (view_input input.now)) }
{
    match input {
        nf_ast::Input::One(part) => Ok(Input {
            place: place_of(part),
            shape: InputShape::One(part_of(part)?),
        }),
        nf_ast::Input::Tuple(place, parts) => Ok(Input {
            place: *place,
            shape: InputShape::Tuple(InputParts::of(parts_of(alloc, parts)?)),
        }),
    }
}

fn parts_of(alloc: Global, parts: &[nf_ast::InputPart]) -> Result<Vec<InputPart>, Mem>
    ensures { IfOk result (λ xs. xs.items ≡ input_parts (trees (map view_input_part parts.now))) }
{
    let mut list = Vec::new(alloc);
    for part in parts {
        list.push(part_of(part)?)?;
    }
    Ok(list)
}

fn part_of(part: &nf_ast::InputPart) -> Result<InputPart, Mem>
    ensures { IfOk result (λ x. x ≡ input_part (view_input_part part.now)) }
{
    match part {
        nf_ast::InputPart::Val(_, _, name) => Ok(InputPart::Val(name.copy()?)),
        nf_ast::InputPart::Path(_, _, name) => Ok(InputPart::Path(name.copy()?)),
        nf_ast::InputPart::Stdin(_) => Ok(InputPart::Stdin),
    }
}

fn place_of(part: &nf_ast::InputPart) -> Place
    ensures { result ≡ begins_at (view_input_part part.now) }
{
    match part {
        nf_ast::InputPart::Val(place, _, _) => *place,
        nf_ast::InputPart::Path(place, _, _) => *place,
        nf_ast::InputPart::Stdin(place) => *place,
    }
}
