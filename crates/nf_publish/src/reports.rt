//! `report`: the report of a run that ended well.

ghost use Rattle.std.specs.Prelude.{◌≡◌, ◌++◌, IfOk, IfErr, OnOk, map, string_bytes};
ghost use Rattle.std.specs.List.{flat_map};
ghost use Rattle.nf_publish.specs.Report.{IsCause, lines_text, publish_lines, report_text, view_lines};
ghost use Rattle.nf_publish.specs.Targets.{HaveOneContent};

use crate::clash::first_clash;
use crate::fault::PublishFault;
use crate::lines::{publish_texts, push_lines};
use nf_bag::{distinct, sorted};
use nf_tasks::Target;
use nf_value::{Mem, Txt, Vals};
use std::alloc::Global;

/// The report of a run that ended well: for each `view` the texts of its values in the order of values, and then a line
/// `publish TARGET DIGEST` for each file that is published, in the order of these lines' bytes, each once. Each line
/// has a line end (own).
///
/// # Errors
///
/// `Clash` exactly if a target has two contents: with the first such target in the order of bytes, and the two least of
/// its digests. `Mem` if there is no memory.
pub fn report(alloc: Global, views: &[Vals], targets: &[Target]) -> Result<Txt, PublishFault>
    ensures text { IfOk result (λ t. t ≡ report_text views.now targets.now) }
    ensures one { OnOk result (HaveOneContent targets.now) }
    ensures cause { IfErr result (IsCause targets.now) }
{
    match first_clash(alloc, targets)? {
        Some(clash) => Err(PublishFault::Clash(clash)),
        None => Ok(report_text(alloc, views, targets)?),
    }
}

fn report_text(alloc: Global, views: &[Vals], targets: &[Target]) -> Result<Txt, Mem>
    ensures { IfOk result (λ t. t ≡ report_text views.now targets.now) }
{
    let mut out = String::new(alloc);
    push_views(alloc, &mut out, views)?;
    push_published(alloc, &mut out, targets)?;
    Ok(Txt::of(out))
}

fn push_views(alloc: Global, out: &mut String, views: &[Vals]) -> Result<(), Mem>
    ensures { OnOk result (string_bytes out.new ≡ string_bytes out.old ++ lines_text (flat_map view_lines views.now)) }
{
    for view in views {
        push_view(alloc, out, view)?;
    }
    Ok(())
}

fn push_view(alloc: Global, out: &mut String, view: &Vals) -> Result<(), Mem>
    ensures { OnOk result (string_bytes out.new ≡ string_bytes out.old ++ lines_text (view_lines view.now)) }
{
    let values = sorted(view.copy()?)?;
    push_lines(alloc, out, values.items())
}

fn push_published(alloc: Global, out: &mut String, targets: &[Target]) -> Result<(), Mem>
    ensures { OnOk result (string_bytes out.new ≡ string_bytes out.old ++ lines_text (publish_lines targets.now)) }
{
    let lines = distinct(publish_texts(alloc, targets)?)?;
    push_lines(alloc, out, lines.items())
}
