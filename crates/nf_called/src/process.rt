//! A process as a call of it has it.

ghost use Rattle.std.specs.Prelude.{◌≡◌, [], length, IfOk};
ghost use Rattle.nf_ast.specs.Tops.{maybe, view_inputs, view_outputs, view_process, view_task};
ghost use Rattle.nf_lowered.specs.Given.{Gives};
ghost use Rattle.nf_meaning.specs.Places.{begins_at, is_before};
ghost use Rattle.nf_meaning.specs.Processes.{in_text_order, inputs_of, outputs_in, twice_named};
ghost use Rattle.nf_called.specs.Called.{IsCalled, IsScript, process_in, script_of};
ghost use Rattle.nf_called.specs.Outputs.{AreOutputs, output_count};

use crate::directives::{Settings, settings_in};
use crate::formulas::Formulas;
use crate::leaves::stands_alone;
use crate::names::check_names;
use crate::outputs::outputs_in;
use nf_ast::{Inputs, Outputs, Process, Task};
use nf_lowered::begins_at;
use nf_meaning::LowerFault;
use nf_tasks::{Input, Output, ProcessSpec, TaskScript};
use nf_value::{Place, Txt};
use std::alloc::Global;

/// The process whose call has this path, with these inputs, which are those of its definition (Nextflow reference documentation, "Process").
///
/// # Errors
///
/// The first fault of the definition: of its directives, of its inputs and outputs in the order of the text, of its script. `Mem` for want of
/// memory.
pub fn called_process<F: Formulas>(
    alloc: Global,
    formulas: &F,
    path: Txt,
    inputs: Vec<Input>,
    process: &Process,
) -> Result<ProcessSpec, LowerFault>
    requires kept { F.keeps formulas.now }
    requires inputs { inputs.items ≡ inputs_of (view_process process.now) }
    ensures means { Gives (IsCalled (F.program formulas.now))
        (process_in (F.inside formulas.now) path (view_process process.now)) result }
    ensures outputs { IfOk result (λ spec. length spec.outputs.items ≡ output_count process.now.outputs) }
{
    let settings = settings_in(alloc, formulas, &process.directives)?;
    let outputs = outputs_of(alloc, formulas, process)?;
    let script = script_of(alloc, formulas, &process.task)?;
    let strategy = settings.strategy();
    let Settings {
        cpus,
        tag,
        publishes,
        ..
    } = settings;
    Ok(ProcessSpec {
        name: path,
        inputs,
        cpus,
        tag,
        strategy,
        publishes,
        script,
        outputs,
    })
}

/// The outputs, once the inputs have different names.
fn outputs_of<F: Formulas>(
    alloc: Global,
    formulas: &F,
    process: &Process,
) -> Result<Vec<Output>, LowerFault>
    requires { F.keeps formulas.now }
    ensures means { Gives (λ os ms. AreOutputs (F.program formulas.now) os.items ms)
        (in_text_order (maybe view_inputs process.now.inputs) (maybe view_outputs process.now.outputs)
        (twice_named (maybe view_inputs process.now.inputs))
        (outputs_in (F.inside formulas.now) [] (maybe view_outputs process.now.outputs))) result }
    ensures count { IfOk result (λ os. length os.items ≡ output_count process.now.outputs) }
{
    if is_before(
        outputs_place(&process.outputs),
        inputs_place(&process.inputs),
    ) {
        let outputs = outputs_in(alloc, formulas, &process.outputs)?;
        check_names(alloc, &process.inputs)?;
        return Ok(outputs);
    }
    check_names(alloc, &process.inputs)?;
    outputs_in(alloc, formulas, &process.outputs)
}

/// The place of a section that isn't there.
const NOWHERE: Place = Place { line: 0, col: 0 };

fn inputs_place(inputs: &Option<Inputs>) -> Place
    ensures { result ≡ begins_at (maybe view_inputs inputs.now) }
{
    match inputs {
        Some(section) => section.place,
        None => NOWHERE,
    }
}

fn outputs_place(outputs: &Option<Outputs>) -> Place
    ensures { result ≡ begins_at (maybe view_outputs outputs.now) }
{
    match outputs {
        Some(section) => section.place,
        None => NOWHERE,
    }
}

/// Whether the first place stands before the second.
fn is_before(first: Place, second: Place) -> bool
    ensures { result ≡ is_before first second }
{
    first.line < second.line || first.line == second.line && first.col < second.col
}

/// What the tasks of a process run.
fn script_of<F: Formulas>(
    alloc: Global,
    formulas: &F,
    task: &Task,
) -> Result<TaskScript, LowerFault>
    requires { F.keeps formulas.now }
    ensures { Gives (IsScript (F.program formulas.now) (view_task task.now)) (script_of (F.inside formulas.now)
        (view_task task.now)) result }
{
    match task {
        Task::Script(section) => Ok(TaskScript {
            place: section.place,
            body: formulas.statements(alloc, section.place, &section.body)?,
        }),
        Task::Text(expr) => {
            stands_alone(expr);
            Ok(TaskScript {
                place: begins_at(expr),
                body: formulas.expression(alloc, expr)?,
            })
        }
    }
}
