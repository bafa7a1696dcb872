//! A whole script and what stands at its top.

use crate::expr::{Arg, Expr, Label, Stmt};
use nf_value::{Place, Txt};

/// A script (Nextflow reference documentation, "Syntax", "Script declarations"; the places are this project's own). Contracts see
/// its `Tree`, by `view_script`.
pub struct Script {
    /// What stands at its top, in its order.
    pub tops: Vec<Top>,
}

impl Drop for Script {
    fn drop(self) {
        let Script { tops: _ } = self;
    }
}

/// A definition or a statement at the top of a script (Nextflow reference documentation, "Syntax", "Script declarations").
pub enum Top {
    /// A process.
    Process(Process),
    /// A workflow, with or without a name.
    Workflow(Workflow),
    /// A function.
    Function(Function),
    /// The value of a parameter, where the run gives none.
    Parameter(Parameter),
    /// `println e`, with the place of the word.
    Println(Place, Expr),
    /// `log.name e`, with the places of `log` and the name.
    Log(Place, Place, Txt, Expr),
    /// `nextflow.enable.dsl = 2`, with the place of `nextflow`.
    Dsl(Place),
}

impl Drop for Top {
    fn drop(self) {
        match self {
            Top::Process(_)
            | Top::Workflow(_)
            | Top::Function(_)
            | Top::Parameter(_)
            | Top::Println(_, _)
            | Top::Log(_, _, _, _)
            | Top::Dsl(_) => {}
        }
    }
}

/// A process (Nextflow reference documentation, "Syntax", "Process").
pub struct Process {
    /// The place of the word `process`.
    pub place: Place,
    /// The place of its name.
    pub name_place: Place,
    /// Its name.
    pub name: Txt,
    /// Its directives, in their order.
    pub directives: Vec<Directive>,
    /// Its input section, which may stand before or after its outputs.
    pub inputs: Option<Inputs>,
    /// Its output section.
    pub outputs: Option<Outputs>,
    /// What each of its tasks runs.
    pub task: Task,
    /// The statements that a task runs in their place where only stubs are run.
    pub stub: Option<Section>,
}

impl Drop for Process {
    fn drop(self) {
        let Process {
            place: _,
            name_place: _,
            name: _,
            directives: _,
            inputs: _,
            outputs: _,
            task: _,
            stub: _,
        } = self;
    }
}

/// A directive (Nextflow reference documentation, "Process", "Directives"). Brackets round its arguments aren't kept.
pub struct Directive {
    /// The place of its name.
    pub place: Place,
    /// Its name.
    pub name: Txt,
    /// Its arguments.
    pub args: Vec<Arg>,
}

impl Drop for Directive {
    fn drop(self) {
        let Directive {
            place: _,
            name: _,
            args: _,
        } = self;
    }
}

/// An input section.
pub struct Inputs {
    /// The place of the word `input`.
    pub place: Place,
    /// Its inputs, in their order.
    pub inputs: Vec<Input>,
}

impl Drop for Inputs {
    fn drop(self) {
        let Inputs {
            place: _,
            inputs: _,
        } = self;
    }
}

/// An input of a process (Nextflow reference documentation, "Process", "Inputs").
pub enum Input {
    /// An input of one part.
    One(InputPart),
    /// A tuple, with the place of the word.
    Tuple(Place, Vec<InputPart>),
}

impl Drop for Input {
    fn drop(self) {
        match self {
            Input::One(_) | Input::Tuple(_, _) => {}
        }
    }
}

/// What an input or a part of its tuple is bound to. Brackets round the name aren't kept.
pub enum InputPart {
    /// `val name`, with the places of `val` and the name.
    Val(Place, Place, Txt),
    /// `path name`, with the places of `path` and the name.
    Path(Place, Place, Txt),
    /// `stdin`.
    Stdin(Place),
}

impl Drop for InputPart {
    fn drop(self) {
        match self {
            InputPart::Val(_, _, _) | InputPart::Path(_, _, _) | InputPart::Stdin(_) => {}
        }
    }
}

/// An output section.
pub struct Outputs {
    /// The place of the word `output`.
    pub place: Place,
    /// Its outputs, in their order.
    pub outputs: Vec<Output>,
}

impl Drop for Outputs {
    fn drop(self) {
        let Outputs {
            place: _,
            outputs: _,
        } = self;
    }
}

/// An output of a process (Nextflow reference documentation, "Process", "Outputs").
pub struct Output {
    /// What it gives.
    pub value: OutputValue,
    /// Its options, as `emit: name`, in their order.
    pub options: Vec<Label>,
}

impl Drop for Output {
    fn drop(self) {
        let Output {
            value: _,
            options: _,
        } = self;
    }
}

/// What an output gives.
pub enum OutputValue {
    /// One part.
    One(OutputPart),
    /// A tuple, with the place of the word.
    Tuple(Place, Vec<OutputPart>),
}

impl Drop for OutputValue {
    fn drop(self) {
        match self {
            OutputValue::One(_) | OutputValue::Tuple(_, _) => {}
        }
    }
}

/// What an output or a part of its tuple gives.
pub enum OutputPart {
    /// `val e`, with the place of `val`.
    Val(Place, Expr),
    /// `path e`, with the place of `path`.
    Path(Place, Expr),
    /// `stdout`.
    Stdout(Place),
}

impl Drop for OutputPart {
    fn drop(self) {
        match self {
            OutputPart::Val(_, _) | OutputPart::Path(_, _) | OutputPart::Stdout(_) => {}
        }
    }
}

/// What a task runs (Nextflow reference documentation, "Process", "Script").
pub enum Task {
    /// A section `script:`.
    Script(Section),
    /// A string that stands alone.
    Text(Expr),
}

impl Drop for Task {
    fn drop(self) {
        match self {
            Task::Script(_) | Task::Text(_) => {}
        }
    }
}

/// A section of statements.
pub struct Section {
    /// The place of its word.
    pub place: Place,
    /// Its statements, in their order.
    pub body: Vec<Stmt>,
}

impl Drop for Section {
    fn drop(self) {
        let Section { place: _, body: _ } = self;
    }
}

/// A workflow (Nextflow reference documentation, "Syntax", "Workflow").
pub struct Workflow {
    /// The place of the word `workflow`.
    pub place: Place,
    /// Its name, where it has one, with the name's place.
    pub name: Option<(Place, Txt)>,
    /// What it does.
    pub body: WorkflowBody,
}

impl Drop for Workflow {
    fn drop(self) {
        let Workflow {
            place: _,
            name: _,
            body: _,
        } = self;
    }
}

/// What a workflow does.
pub enum WorkflowBody {
    /// Statements alone.
    Statements(Vec<Stmt>),
    /// Sections.
    Parts(Parts),
}

impl Drop for WorkflowBody {
    fn drop(self) {
        match self {
            WorkflowBody::Statements(_) | WorkflowBody::Parts(_) => {}
        }
    }
}

/// The sections of a workflow.
pub struct Parts {
    /// What it takes.
    pub take: Option<Take>,
    /// What it does.
    pub main: Section,
    /// What it emits.
    pub emit: Option<Emits>,
}

impl Drop for Parts {
    fn drop(self) {
        let Parts {
            take: _,
            main: _,
            emit: _,
        } = self;
    }
}

/// A section `take:`.
pub struct Take {
    /// The place of its word.
    pub place: Place,
    /// Its names with their places, in their order.
    pub names: Vec<(Place, Txt)>,
}

impl Drop for Take {
    fn drop(self) {
        let Take { place: _, names: _ } = self;
    }
}

/// A section `emit:`.
pub struct Emits {
    /// The place of its word.
    pub place: Place,
    /// What it emits, in its order.
    pub emits: Vec<Emit>,
}

impl Drop for Emits {
    fn drop(self) {
        let Emits { place: _, emits: _ } = self;
    }
}

/// What a workflow emits.
pub enum Emit {
    /// `name = e`, with the place of the name.
    Named(Place, Txt, Expr),
    /// An expression alone.
    Alone(Expr),
}

impl Drop for Emit {
    fn drop(self) {
        match self {
            Emit::Named(_, _, _) | Emit::Alone(_) => {}
        }
    }
}

/// A function (Nextflow reference documentation, "Syntax", "Function").
pub struct Function {
    /// The place of its `def`.
    pub place: Place,
    /// The place of its name.
    pub name_place: Place,
    /// Its name.
    pub name: Txt,
    /// The names of its parameters with their places, in their order.
    pub params: Vec<(Place, Txt)>,
    /// Its statements, in their order.
    pub body: Vec<Stmt>,
}

impl Drop for Function {
    fn drop(self) {
        let Function {
            place: _,
            name_place: _,
            name: _,
            params: _,
            body: _,
        } = self;
    }
}

/// `params.name = e` (Nextflow reference documentation, "Syntax", "Parameter").
pub struct Parameter {
    /// The place of the word `params`.
    pub place: Place,
    /// The place of its name.
    pub name_place: Place,
    /// Its name.
    pub name: Txt,
    /// Its value.
    pub value: Expr,
}

impl Drop for Parameter {
    fn drop(self) {
        let Parameter {
            place: _,
            name_place: _,
            name: _,
            value: _,
        } = self;
    }
}
