//! The outputs of a process.

ghost use Rattle.std.specs.Prelude.{◌≡◌, [], map, length, IfOk};
ghost use Rattle.nf_ast.specs.Tops.{maybe, view_output, view_output_part, view_output_value, view_outputs};
ghost use Rattle.nf_ast.specs.View.{trees, view};
ghost use Rattle.nf_lowered.specs.Given.{Gives};
ghost use Rattle.nf_meaning.specs.Places.{begins_at as place_of};
ghost use Rattle.nf_meaning.specs.Processes.{output_part, output_parts, output_shape, outputs_in};
ghost use Rattle.nf_called.specs.Formulas.{IsFormula};
ghost use Rattle.nf_called.specs.Options.{labels_of};
ghost use Rattle.nf_called.specs.Outputs.{AreOutputs, ArePartsOf, IsOutput, IsPartOf, IsShapeOf, output_count, output_in, wanted_expression};

use crate::formulas::Formulas;
use crate::leaves::check_expression;
use crate::options::options_in;
use nf_ast::{Expr, OutputValue, Outputs};
use nf_eval::Closure;
use nf_lowered::begins_at;
use nf_meaning::LowerFault;
use nf_tasks::{Output, OutputPart, OutputShape};
use nf_value::Place;
use std::alloc::Global;

/// The outputs of a process (Nextflow reference documentation, "Process", "Outputs").
///
/// # Errors
///
/// The first fault in the order of the text. `Mem` for want of memory.
pub(crate) fn outputs_in<F: Formulas>(
    alloc: Global,
    formulas: &F,
    outputs: &Option<Outputs>,
) -> Result<Vec<Output>, LowerFault>
    requires { F.keeps formulas.now }
    ensures means { Gives (λ os ms. AreOutputs (F.program formulas.now) os.items ms)
        (outputs_in (F.inside formulas.now) [] (maybe view_outputs outputs.now)) result }
    ensures count { IfOk result (λ os. length os.items ≡ output_count outputs.now) }
{
    match outputs {
        Some(section) => all_outputs(alloc, formulas, &section.outputs),
        None => Ok(Vec::new(alloc)),
    }
}

fn all_outputs<F: Formulas>(
    alloc: Global,
    formulas: &F,
    outputs: &[nf_ast::Output],
) -> Result<Vec<Output>, LowerFault>
    requires { F.keeps formulas.now }
    ensures means { Gives (λ os ms. AreOutputs (F.program formulas.now) os.items ms)
        (outputs_in (F.inside formulas.now) [] (trees (map view_output outputs.now))) result }
    ensures count { IfOk result (λ os. length os.items ≡ length outputs.now) }
{
    let mut list = Vec::new(alloc);
    for output in outputs {
        let output = output_in(alloc, formulas, &list, output)?;
        list.push(output)?;
    }
    Ok(list)
}

/// An output that stands behind these.
fn output_in<F: Formulas>(
    alloc: Global,
    formulas: &F,
    before: &[Output],
    output: &nf_ast::Output,
) -> Result<Output, LowerFault>
    requires { F.keeps formulas.now }
    ensures { Gives (IsOutput (F.program formulas.now)) (output_in (F.inside formulas.now) (labels_of before.now)
        (view_output output.now)) result }
{
    let shape = shape_of(alloc, formulas, &output.value)?;
    let options = options_in(before, &output.options)?;
    Ok(Output {
        place: value_place(&output.value),
        emit: options.label,
        optional: options.optional,
        shape,
    })
}

fn value_place(value: &OutputValue) -> Place
    ensures { result ≡ place_of (view_output_value value.now) }
{
    match value {
        OutputValue::One(part) => part_place(part),
        OutputValue::Tuple(place, _) => *place,
    }
}

fn part_place(part: &nf_ast::OutputPart) -> Place
    ensures { result ≡ place_of (view_output_part part.now) }
{
    match part {
        nf_ast::OutputPart::Val(place, _) => *place,
        nf_ast::OutputPart::Path(place, _) => *place,
        nf_ast::OutputPart::Stdout(place) => *place,
    }
}

fn shape_of<F: Formulas>(
    alloc: Global,
    formulas: &F,
    value: &OutputValue,
) -> Result<OutputShape, LowerFault>
    requires { F.keeps formulas.now }
    ensures { Gives (IsShapeOf (F.program formulas.now)) (output_shape (F.inside formulas.now)
        (view_output_value value.now)) result }
{
    match value {
        OutputValue::One(part) => Ok(OutputShape::One(part_of(alloc, formulas, part)?)),
        OutputValue::Tuple(_, parts) => {
            Ok(OutputShape::Tuple(parts_of(alloc, formulas, parts)?))
        }
    }
}

fn parts_of<F: Formulas>(
    alloc: Global,
    formulas: &F,
    parts: &[nf_ast::OutputPart],
) -> Result<Vec<OutputPart>, LowerFault>
    requires { F.keeps formulas.now }
    ensures { Gives (λ xs ms. ArePartsOf (F.program formulas.now) xs.items ms) (output_parts (F.inside formulas.now)
        (trees (map view_output_part parts.now))) result }
{
    let mut list = Vec::new(alloc);
    for part in parts {
        list.push(part_of(alloc, formulas, part)?)?;
    }
    Ok(list)
}

fn part_of<F: Formulas>(
    alloc: Global,
    formulas: &F,
    part: &nf_ast::OutputPart,
) -> Result<OutputPart, LowerFault>
    requires { F.keeps formulas.now }
    ensures { Gives (IsPartOf (F.program formulas.now)) (output_part (F.inside formulas.now)
        (view_output_part part.now)) result }
{
    match part {
        nf_ast::OutputPart::Val(_, expr) => Ok(OutputPart::Val(wanted(alloc, formulas, expr)?)),
        nf_ast::OutputPart::Path(_, expr) => Ok(OutputPart::Path(wanted(alloc, formulas, expr)?)),
        nf_ast::OutputPart::Stdout(_) => Ok(OutputPart::Stdout),
    }
}

/// The expression of an output, which is no closure.
fn wanted<F: Formulas>(alloc: Global, formulas: &F, expr: &Expr) -> Result<Closure, LowerFault>
    requires { F.keeps formulas.now }
    ensures { Gives (IsFormula (F.program formulas.now)) (wanted_expression (F.inside formulas.now)
        (view expr.now)) result }
{
    check_expression(begins_at(expr), expr)?;
    formulas.expression(alloc, expr)
}
