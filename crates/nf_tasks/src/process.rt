//! `ProcessSpec`: a call of a process, as its tasks need it.

ghost use Rattle.std.specs.Prelude.{◌≡◌, map};
ghost use Rattle.nf_tasks.specs.Meaning.{parts_in as meant_parts};
ghost use Rattle.nf_tasks.specs.Memory.{part_of, shape_of, stored_parts, Program};

use crate::inputs::Input;
use nf_eval::Closure;
use nf_value::{Place, Txt};
use std::slice;

/// A call of a process (Nextflow reference documentation, "Process"). Each of its expressions is a closure, whose parameters are the names
/// of [`seen_names`](crate::seen_names), in their order: those of the inputs, and `task`. A closure captures all else that the expression
/// sees: `params`, `projectDir`, `baseDir` and `launchDir`, the script's functions and the built patterns.
pub struct ProcessSpec {
    /// The path of the call, as `MAIN:ALIGN`.
    pub name: Txt,
    /// What its tasks take, in the order of the text.
    pub inputs: Vec<Input>,
    /// `cpus`, if it stands there.
    pub cpus: Option<Closure>,
    /// `tag`, if it stands there.
    pub tag: Option<Closure>,
    /// What becomes of a task that fails.
    pub strategy: ErrorStrategy,
    /// The directives `publishDir`, in the order of the text.
    pub publishes: Vec<Publish>,
    /// What its tasks run.
    pub script: TaskScript,
    /// What its tasks give, in the order of the text.
    pub outputs: Vec<Output>,
}

impl Drop for ProcessSpec {
    fn drop(self) {
        let ProcessSpec {
            name: _,
            inputs: _,
            cpus: _,
            tag: _,
            strategy: _,
            publishes: _,
            script: _,
            outputs: _,
        } = self;
    }
}

/// What becomes of a task that fails by its exit status, its standard output or its files (Nextflow reference documentation, "Process",
/// "errorStrategy" and "maxRetries").
#[derive(Clone, Copy, Drop)]
pub enum ErrorStrategy {
    /// The run ends.
    Terminate,
    /// The task emits nothing, and the run goes on.
    Ignore,
    /// The task is tried again after each of its first attempts, this many, and at most 100 (own). After a later one the run ends.
    Retry(u32),
}

/// The script of a process.
pub struct TaskScript {
    /// The place of its section's word, or of its string.
    pub place: Place,
    /// Its statements, whose value is the text of the script.
    pub body: Closure,
}

impl Drop for TaskScript {
    fn drop(self) {
        let TaskScript { place: _, body: _ } = self;
    }
}

/// An output of a process (Nextflow reference documentation, "Process", "Outputs").
pub struct Output {
    /// The place of its first word in the script.
    pub place: Place,
    /// The name of its option `emit`, by which a workflow takes it.
    pub emit: Option<Txt>,
    /// Whether files that aren't there are no fault.
    pub optional: bool,
    /// What it gives.
    pub shape: OutputShape,
}

impl Drop for Output {
    fn drop(self) {
        let Output {
            place: _,
            emit: _,
            optional: _,
            shape: _,
        } = self;
    }
}

/// What an output gives.
pub enum OutputShape {
    /// The value of one part.
    One(OutputPart),
    /// `tuple`: the list of its parts' values.
    Tuple(Vec<OutputPart>),
}

impl Drop for OutputShape {
    fn drop(self) {
        match self {
            OutputShape::One(_) | OutputShape::Tuple(_) => {}
        }
    }
}

/// A part of an output.
pub enum OutputPart {
    /// `val e`: the value of the expression.
    Val(Closure),
    /// `path e`: the files that the task left and that match the expression's text. A single one is given as a file, several as a list.
    Path(Closure),
    /// `stdout`: the text that the task wrote to its standard output.
    Stdout,
}

impl Drop for OutputPart {
    fn drop(self) {
        match self {
            OutputPart::Val(_) | OutputPart::Path(_) | OutputPart::Stdout => {}
        }
    }
}

/// The parts of an output. Takes no memory.
pub(crate) fn parts_in(shape: &OutputShape) -> &[OutputPart]
    ensures parts { result.now ≡ stored_parts shape.now }
    ensures meant { (n : Program) → map (part_of n) result.now ≡ meant_parts (shape_of n shape.now) }
{
    match shape {
        OutputShape::One(part) => slice::from_ref(part),
        OutputShape::Tuple(parts) => parts.as_slice(),
    }
}

/// A directive `publishDir` (Nextflow reference documentation, "Process", "publishDir").
pub struct Publish {
    /// The place of its name in the script.
    pub place: Place,
    /// Its folder.
    pub folder: Closure,
    /// Its option `pattern`: of the files only those are published whose names match it.
    pub pattern: Option<Closure>,
}

impl Drop for Publish {
    fn drop(self) {
        let Publish {
            place: _,
            folder: _,
            pattern: _,
        } = self;
    }
}
