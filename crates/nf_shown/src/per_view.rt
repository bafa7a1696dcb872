//! What the views of a run printed.

ghost use Rattle.std.specs.Prelude.{◌≡◌, ◌++◌, ◌∷◌, [], if◌then◌else◌, IfOk, OnOk, length};
ghost use Rattle.nf_shown.specs.Shown.{IsLawfulRun, chosen_from, views_of};

use crate::reading::{Reading, is_view};
use nf_flow::Flow;
use nf_value::{Mem, Vals};
use std::alloc::Global;

/// What the views of a run printed (own): for each node of the graph that is a view, in their order, the answers to the
/// items that it took, in the order of the events. Of a run that ended well that is what its graph means, whatever the
/// order of its events (`laws`). Past the end of `are_views` no node is a view. Takes time that grows with the history.
///
/// # Errors
///
/// `Mem` if there is no memory for the lists.
pub fn views(alloc: Global, flow: &Flow, are_views: &[bool]) -> Result<Vec<Vals>, Mem>
    requires { IsLawfulRun flow.now }
    ensures { IfOk result (λ v. v.items ≡ views_of flow.now are_views.now) }
{
    let mut reading = Reading::begin(alloc, are_views.len())?;
    let history = flow.history();
    for event in history {
        reading.event(alloc, are_views, event)?;
    }
    chosen(alloc, reading.lists, are_views)
}

/// The lists of the views alone.
fn chosen(alloc: Global, lists: Vec<Vals>, are_views: &[bool]) -> Result<Vec<Vals>, Mem>
    requires { length lists.items ≡ length are_views.now }
    ensures { IfOk result (λ v. v.items ≡ chosen_from are_views.now lists.items) }
{
    let mut views = Vec::new(alloc);
    let mut node = 0;
    for list in lists {
        push_if(&mut views, is_view(are_views, node), list)?;
        node += 1;
    }
    Ok(views)
}

fn push_if(views: &mut Vec<Vals>, view: bool, list: Vals) -> Result<(), Mem>
    ensures { OnOk result (views.new.items ≡ views.old.items ++ (if view then list ∷ [] else [])) }
{
    if view {
        views.push(list)?;
    }
    Ok(())
}
