//! The names of what is emitted.

ghost use Rattle.std.specs.Prelude.{◌≡◌, option_map, IfOk, Some};
ghost use Rattle.nf_ast.specs.Tops.{view_emit};
ghost use Rattle.nf_ast.specs.Tree as tree;
ghost use Rattle.nf_ast.specs.View.{view};
ghost use Rattle.nf_builtins.specs.Natives.{is_among};
ghost use Rattle.nf_meaning.specs.Script as meaning;
ghost use Rattle.nf_meaning.specs.Things.{has_label as is_label};
ghost use Rattle.nf_takes.specs.Takes.{FaultIs, labels_of, name_at};

use nf_ast::{Emit, Expr};
use nf_fronts::{Front, Last};
use nf_meaning::LowerFault;
use nf_scopes::CallOutput;
use nf_value::{Mem, Place, Txt};

/// The name of what is emitted, if it has one, with its place, and its expression (Nextflow reference documentation,
/// "Workflows", "Emitting outputs"): the name before `=`, or that of an expression which is just a name. Takes no memory.
pub fn emit_parts(emit: &Emit) -> (Option<(Place, &Txt)>, &Expr)
    ensures label { option_map name_at result.0 ≡ meaning.emit_label (view_emit emit.now) }
    ensures value { view result.1.now ≡ meaning.emit_value (view_emit emit.now) }
{
    match emit {
        Emit::Named(place, name, expr) => (Some((*place, name)), expr),
        Emit::Alone(expr) => (name_alone(expr), expr),
    }
}

/// The name that an expression is, with its place.
fn name_alone(expr: &Expr) -> Option<(Place, &Txt)>
    ensures label { option_map name_at result ≡ meaning.emit_label (view expr.now) }
    ensures value { meaning.emit_value (view expr.now) ≡ view expr.now }
{
    match Front::Whole(expr).last() {
        Last::Name(place, name) => Some((place, name)),
        Last::List(_, _) => None,
        Last::Property(_, _, _) => None,
        Last::Index(_, _, _) => None,
        Last::Call(_, _, _) => None,
        Last::With(_, _) => None,
        Last::Pipe(_, _, _) => None,
        Last::Conditional(_, _, _, _) => None,
        Last::Other => None,
    }
}

/// A name for what is emitted after these outputs, or none: no other output has it (own). Takes no memory.
///
/// # Errors
///
/// `TwiceDefined` at the name if one has it.
pub fn check_label(before: &[CallOutput], label: Option<(Place, &Txt)>) -> Result<(), LowerFault>
    ensures { FaultIs (meaning.label_fault (labels_of before.now) (option_map name_at label.entry)) result }
{
    match label {
        Some((place, name)) => check_name(before, place, name),
        None => Ok(()),
    }
}

fn check_name(before: &[CallOutput], place: Place, name: &Txt) -> Result<(), LowerFault>
    ensures { FaultIs (meaning.label_fault (labels_of before.now) (Some (tree.name place name.now))) result }
{
    if has_label(before, name) {
        return Err(LowerFault::TwiceDefined { place });
    }
    Ok(())
}

fn has_label(outputs: &[CallOutput], name: &Txt) -> bool
    ensures { result ≡ is_among name.now (labels_of outputs.now) }
{
    for output in outputs {
        if is_labelled(output, name) {
            return true;
        }
    }
    false
}

fn is_labelled(output: &CallOutput, name: &Txt) -> bool
    ensures { result ≡ is_label name.now output.now.label }
{
    match &output.label {
        Some(label) => label.as_str() == name.as_str(),
        None => false,
    }
}

/// The name of what is emitted, as an output keeps it.
///
/// # Errors
///
/// `Mem` for want of memory.
pub fn copy_name(label: Option<(Place, &Txt)>) -> Result<Option<Txt>, Mem>
    ensures { IfOk result (λ copy. copy ≡ meaning.label_of (option_map name_at label.entry)) }
{
    match label {
        Some((_, name)) => Ok(Some(name.copy()?)),
        None => Ok(None),
    }
}
