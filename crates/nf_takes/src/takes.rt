//! The names that workflows take.

ghost use Rattle.std.specs.Prelude.{◌≡◌, [], map};
ghost use Rattle.nf_ast.specs.Tops.{view_workflow_body};
ghost use Rattle.nf_ast.specs.View.{name_tree};
ghost use Rattle.nf_builtins.specs.Natives.{is_among};
ghost use Rattle.nf_meaning.specs.Script as meaning;
ghost use Rattle.nf_takes.specs.Takes.{FaultIs};

use nf_ast::WorkflowBody;
use nf_meaning::LowerFault;
use nf_value::{Place, Txt};

/// The names that a workflow takes, with their places (Nextflow reference documentation, "Workflows", "Taking inputs").
/// Takes no memory.
pub fn names_taken(body: &WorkflowBody) -> &[(Place, Txt)]
    ensures { map name_tree result.now ≡ meaning.take_in (view_workflow_body body.now) }
{
    match body {
        WorkflowBody::Statements(_) => &[],
        WorkflowBody::Parts(parts) => match &parts.take {
            Some(take) => &take.names,
            None => &[],
        },
    }
}

/// Each name is taken once (own). Takes no memory, and time by the square of their number.
///
/// # Errors
///
/// `TwiceDefined` at the first that stands before it.
pub fn check_taken(names: &[(Place, Txt)]) -> Result<(), LowerFault>
    ensures { FaultIs (meaning.taken_twice [] (map name_tree names.now)) result }
{
    for (at, (place, name)) in names.iter().enumerate() {
        if stands_in(&names[..at], name) {
            return Err(LowerFault::TwiceDefined { place: *place });
        }
    }
    Ok(())
}

/// Whether a name is one of these. Takes no memory.
pub fn stands_in(names: &[(Place, Txt)], name: &Txt) -> bool
    ensures { result ≡ is_among name.now (map (λ n. n.1) names.now) }
{
    for (_, other) in names {
        if other.as_str() == name.as_str() {
            return true;
        }
    }
    false
}
