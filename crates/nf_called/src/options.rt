//! The options of an output.

ghost use Rattle.std.specs.Prelude.{◌≡◌, [], map};
ghost use Rattle.nf_ast.specs.View.{trees, view, view_label};
ghost use Rattle.nf_builtins.specs.Natives.{is_among};
ghost use Rattle.nf_lowered.specs.Given.{Gives};
ghost use Rattle.nf_meaning.specs.Processes.{and_label, no_options, options_in, with_option};
ghost use Rattle.nf_called.specs.Leaves.{leaf_emit, leaf_optional, view_leaf};
ghost use Rattle.nf_called.specs.Options.{AreOptions, labels_of, options_of};

use crate::leaves::{Leaf, leaf_of};
use nf_ast::Label;
use nf_meaning::LowerFault;
use nf_tasks::Output;
use nf_value::{Place, Txt};

/// The options of an output (Nextflow reference documentation, "Process", "Outputs").
#[derive(Drop)]
pub(crate) struct OutputOptions {
    /// The name by which a workflow takes it.
    pub(crate) label: Option<Txt>,
    /// Whether its files may be missing.
    pub(crate) optional: bool,
}

/// The options of an output that stands behind these.
///
/// # Errors
///
/// The first fault: `TwiceDefined` at a name that an output has already, `BadOption` at the name of an option of another kind. `Mem` for want
/// of memory.
pub(crate) fn options_in(before: &[Output], options: &[Label]) -> Result<OutputOptions, LowerFault>
    ensures { Gives AreOptions (options_in (labels_of before.now)
        (trees (map view_label options.now)) no_options) result }
{
    let mut so_far = OutputOptions {
        label: None,
        optional: false,
    };
    for option in options {
        so_far = with_option(before, option, so_far)?;
    }
    Ok(so_far)
}

fn with_option(
    before: &[Output],
    option: &Label,
    so_far: OutputOptions,
) -> Result<OutputOptions, LowerFault>
    ensures { Gives AreOptions (with_option (labels_of before.now) option.now.place option.now.name
        (view option.now.value) (options_of so_far)) result }
{
    let place = option.place;
    if option.name.as_str() == "emit" {
        return emitted(before, place, leaf_of(&option.value), so_far);
    }
    if option.name.as_str() == "optional" {
        return optional(place, leaf_of(&option.value), so_far);
    }
    Err(LowerFault::BadOption { place })
}

/// `emit: name`.
fn emitted(
    before: &[Output],
    place: Place,
    leaf: Leaf<'_>,
    so_far: OutputOptions,
) -> Result<OutputOptions, LowerFault>
    ensures { Gives AreOptions (leaf_emit (labels_of before.now) place (view_leaf leaf.entry)
        (options_of so_far)) result }
{
    let Leaf::Name(name_place, name) = leaf else {
        return Err(LowerFault::BadOption { place });
    };
    if is_known(before, &so_far.label, name) {
        return Err(LowerFault::TwiceDefined { place: name_place });
    }
    Ok(OutputOptions {
        label: Some(name.copy()?),
        optional: so_far.optional,
    })
}

/// `optional: true`, or `false`.
fn optional(
    place: Place,
    leaf: Leaf<'_>,
    so_far: OutputOptions,
) -> Result<OutputOptions, LowerFault>
    ensures { Gives AreOptions (leaf_optional place (view_leaf leaf.entry) (options_of so_far)) result }
{
    let Leaf::Truth(optional) = leaf else {
        return Err(LowerFault::BadOption { place });
    };
    Ok(OutputOptions {
        label: so_far.label,
        optional,
    })
}

/// Whether an output has a name already, or this one has it.
fn is_known(before: &[Output], label: &Option<Txt>, name: &Txt) -> bool
    ensures { result ≡ is_among name.now (and_label label.now (labels_of before.now)) }
{
    if has_label(label, name) {
        return true;
    }
    is_emitted(before, name)
}

fn is_emitted(outputs: &[Output], name: &Txt) -> bool
    ensures { result ≡ is_among name.now (labels_of outputs.now) }
{
    for output in outputs {
        if has_label(&output.emit, name) {
            return true;
        }
    }
    false
}

fn has_label(label: &Option<Txt>, name: &Txt) -> bool
    ensures { result ≡ is_among name.now (and_label label.now []) }
{
    match label {
        Some(label) => label.as_str() == name.as_str(),
        None => false,
    }
}
