//! The entry of a script: the workflow without a name. And how many workflows have one.

ghost use Rattle.std.specs.Prelude.{◌≡◌, ◌≤◌, length, map, option_map};
ghost use Rattle.nf_ast.specs.Tops.{view_top, view_workflow, view_workflow_body};
ghost use Rattle.nf_ast.specs.View.{trees};
ghost use Rattle.nf_meaning.specs.Script.{definitions_of, entry_in, first_take, take_in};
ghost use Rattle.nf_takes.specs.Takes.{FaultIs};
ghost use Rattle.nf_tops.specs.Entries.{IsEntry, body_tree, named_of};

use nf_ast::{Top, Workflow, WorkflowBody};
use nf_meaning::LowerFault;
use nf_takes::names_taken;

/// The body of the workflow without a name, the first if there are several (Nextflow reference documentation,
/// "Workflows", "Entry workflow"). Takes no memory.
pub fn entry_of(tops: &[Top]) -> Option<&WorkflowBody>
    ensures { option_map body_tree result ≡ entry_in (trees (map view_top tops.now)) }
{
    for top in tops {
        if let Some(body) = entry_body(top) {
            return Some(body);
        }
    }
    None
}

/// The body of a workflow without a name, if the top is one.
fn entry_body(top: &Top) -> Option<&WorkflowBody>
    ensures { IsEntry (view_top top.now) result }
{
    match top {
        Top::Workflow(workflow) => body_alone(workflow),
        Top::Process(_) => None,
        Top::Function(_) => None,
        Top::Parameter(_) => None,
        Top::Println(_, _) => None,
        Top::Log(_, _, _, _) => None,
        Top::Dsl(_) => None,
    }
}

fn body_alone(workflow: &Workflow) -> Option<&WorkflowBody>
    ensures { IsEntry (view_workflow workflow.now) result }
{
    match &workflow.name {
        Some(_) => None,
        None => Some(&workflow.body),
    }
}

/// The entry takes no channel, since nothing calls it (own). Takes no memory.
///
/// # Errors
///
/// `BadOption` at the first name that it takes.
pub fn check_entry(body: &WorkflowBody) -> Result<(), LowerFault>
    ensures { FaultIs (first_take (take_in (view_workflow_body body.now))) result }
{
    match names_taken(body) {
        [] => Ok(()),
        [(place, _), ..] => Err(LowerFault::BadOption { place: *place }),
    }
}

/// How many workflows with a name stand at the top: so many calls of workflows may stand in each other's bodies, unless
/// one leads back. Takes no memory.
pub fn named_workflows(tops: &[Top]) -> usize
    ensures count { result ≡ length (definitions_of (trees (map view_top tops.now))).workflows }
    ensures within { result ≤ length tops.now }
{
    let mut count = 0;
    for top in tops {
        count += count_named(top);
    }
    count
}

fn count_named(top: &Top) -> usize
    ensures count { result ≡ named_of (view_top top.now) }
    ensures within { result ≤ 1 }
{
    match top {
        Top::Workflow(workflow) => count_name(workflow),
        Top::Process(_) => 0,
        Top::Function(_) => 0,
        Top::Parameter(_) => 0,
        Top::Println(_, _) => 0,
        Top::Log(_, _, _, _) => 0,
        Top::Dsl(_) => 0,
    }
}

fn count_name(workflow: &Workflow) -> usize
    ensures count { result ≡ named_of (view_workflow workflow.now) }
    ensures within { result ≤ 1 }
{
    match &workflow.name {
        Some(_) => 1,
        None => 0,
    }
}
