//! The inputs of a process, and what they take from a list of items.

ghost use Rattle.std.specs.Prelude.{◌≡◌, map, OnOk, IfOk, ◌++◌};
ghost use Rattle.nf_value.specs.View.{plain_of};
ghost use Rattle.nf_tasks.specs.Judged.{Answers};
ghost use Rattle.nf_tasks.specs.Inputs.{bound_by, names_of, part_names, parts_names, seen_names, shape_names};

use crate::formulas::wrong_kind;
use crate::input_parts::{InputPart, InputParts};
use crate::process::ProcessSpec;
use crate::taking::Taking;
use nf_job::{FileRefs, TaskRefusal};
use nf_value::{Mem, Place, Txt, Vals, Value};
use std::alloc::Global;

/// An input of a process (Nextflow reference documentation, "Process", "Inputs").
pub struct Input {
    /// The place of its first word in the script.
    pub place: Place,
    /// What it takes from its item.
    pub shape: InputShape,
}

impl Drop for Input {
    fn drop(self) {
        let Input { place: _, shape: _ } = self;
    }
}

/// What an input takes from its item.
pub enum InputShape {
    /// One part, from the item itself.
    One(InputPart),
    /// `tuple`: parts, each from the element at its place of a list of as many (own).
    Tuple(InputParts),
}

impl Drop for InputShape {
    fn drop(self) {
        match self {
            InputShape::One(_) | InputShape::Tuple(_) => {}
        }
    }
}

/// What the inputs of a process take from the items of one task.
#[derive(Drop)]
pub struct Bound {
    /// The values of the inputs' names, in the order of the inputs.
    pub values: Vals,
    /// The standard input. Of several `stdin` inputs the last counts (own).
    pub stdin: Option<Txt>,
    /// The files that are put into the task's folder, in the order of the inputs.
    pub staged: FileRefs,
}

/// What the inputs of a process take from a list of items: each from the item at its place. Items after the inputs are read by none (own).
///
/// # Errors
///
/// `Fault` exactly if an input has no item, or one of another shape: then WrongKind at the place of the first such input. `Mem` if there is
/// no memory.
pub fn bind(alloc: Global, spec: &ProcessSpec, inputs: &Vals) -> Result<Bound, TaskRefusal>
    ensures { Answers (bound_by spec.now.inputs.items inputs.now) result }
{
    bound_by(alloc, &spec.inputs, inputs.items())
}

fn bound_by(alloc: Global, inputs: &[Input], items: &[Value]) -> Result<Bound, TaskRefusal>
    ensures { Answers (bound_by inputs.now (map plain_of items.now)) result }
{
    let mut taking = Taking::new(alloc);
    for (i, input) in inputs.iter().enumerate() {
        let Some(item) = items.get(i) else {
            return Err(wrong_kind(input.place));
        };
        if !taking.take(alloc, &input.shape, item)? {
            return Err(wrong_kind(input.place));
        }
    }
    Ok(taking.into_bound())
}

/// The names that the expressions of a process see beside those that they capture: those of its inputs, in their order, and `task`.
///
/// # Errors
///
/// `Mem` if there is no memory for them.
pub fn seen_names(alloc: Global, inputs: &[Input]) -> Result<Vec<Txt>, Mem>
    ensures { IfOk result (λ names. names.items ≡ seen_names inputs.now) }
{
    let mut names = Vec::new(alloc);
    for input in inputs {
        push_names(&mut names, &input.shape)?;
    }
    names.push(Txt::of(String::from_str(alloc, "task")?))?;
    Ok(names)
}

fn push_names(names: &mut Vec<Txt>, shape: &InputShape) -> Result<(), Mem>
    ensures { OnOk result (names.new.items ≡ names.old.items ++ shape_names shape.now) }
{
    match shape {
        InputShape::One(part) => push_name(names, part),
        InputShape::Tuple(parts) => push_all_names(names, parts.items()),
    }
}

fn push_all_names(names: &mut Vec<Txt>, parts: &[InputPart]) -> Result<(), Mem>
    ensures { OnOk result (names.new.items ≡ names.old.items ++ parts_names parts.now) }
{
    for part in parts {
        push_name(names, part)?;
    }
    Ok(())
}

fn push_name(names: &mut Vec<Txt>, part: &InputPart) -> Result<(), Mem>
    ensures { OnOk result (names.new.items ≡ names.old.items ++ part_names part.now) }
{
    match part {
        InputPart::Val(name) | InputPart::Path(name) => names.push(name.copy()?)?,
        InputPart::Stdin => {}
    }
    Ok(())
}
