//! Finds what a script defines.

ghost use Rattle.std.specs.Prelude.{◌≡◌, map, IfOk};
ghost use Rattle.nf_ast.specs.Tops.{maybe, view_outputs, view_top, view_workflow};
ghost use Rattle.nf_ast.specs.View.{view_label, trees};
ghost use Rattle.nf_slips.specs.Definitions as spec;
ghost use Rattle.nf_slips.specs.Memory.{view_definition, view_entry, IsLighter, IsTopLighter};

use crate::forms::{name_of, read_form};
use nf_ast::{Label, Outputs, Process, Top, Workflow, WorkflowBody};
use nf_value::{Mem, Txt};
use std::alloc::Global;

/// What a name is defined as.
#[derive(Drop, Clone, Copy)]
pub enum Definition<'a> {
    /// Nothing.
    Nothing,
    /// A process.
    Process(&'a Process),
    /// A workflow.
    Workflow(&'a WorkflowBody),
    /// A function.
    Function,
}

/// The first definition of a name: where several have it, that is the one which is meant (own). Takes no memory, and
/// time by the number of definitions.
pub fn find_definition<'a>(tops: &'a [Top], name: &str) -> Definition<'a>
    ensures found { view_definition result ≡ spec.definition_in name.now (trees (map view_top tops.now)) }
    ensures lighter { IsLighter tops.now name.now result }
{
    for top in tops {
        match defined_as(name, top) {
            Definition::Nothing => {}
            Definition::Process(process) => return Definition::Process(process),
            Definition::Workflow(body) => return Definition::Workflow(body),
            Definition::Function => return Definition::Function,
        }
    }
    Definition::Nothing
}

fn defined_as<'a>(name: &str, top: &'a Top) -> Definition<'a>
    ensures found { view_definition result ≡ spec.defined_as name.now (view_top top.now) }
    ensures lighter { IsTopLighter top.now name.now result }
{
    match top {
        Top::Process(process) if process.name.as_str() == name => Definition::Process(process),
        Top::Workflow(workflow) => named_workflow(name, workflow),
        Top::Function(function) if function.name.as_str() == name => Definition::Function,
        _ => Definition::Nothing,
    }
}

fn named_workflow<'a>(name: &str, workflow: &'a Workflow) -> Definition<'a>
    ensures found { view_definition result ≡ spec.defined_as name.now (view_workflow workflow.now) }
    ensures lighter { IsTopLighter (Top.Workflow workflow.now) name.now result }
{
    match &workflow.name {
        Some((_, other)) if other.as_str() == name => Definition::Workflow(&workflow.body),
        _ => Definition::Nothing,
    }
}

/// The first workflow without a name, with which a run begins (Nextflow reference documentation, "Workflows", "Entry
/// workflow").
pub fn entry(tops: &[Top]) -> Option<&WorkflowBody>
    ensures { view_entry result ≡ spec.entry_in (trees (map view_top tops.now)) }
{
    for top in tops {
        if let Top::Workflow(workflow) = top {
            if workflow.name.is_none() {
                return Some(&workflow.body);
            }
        }
    }
    None
}

/// The names that the outputs of a process are emitted under, where they have one (Nextflow reference documentation,
/// "Processes", "Naming outputs"). Of two `emit:` of an output the last counts (own).
///
/// # Errors
///
/// `Mem` where there is no memory for them.
pub fn output_names(alloc: Global, outputs: &Option<Outputs>) -> Result<Vec<Option<Txt>>, Mem>
    ensures { IfOk result (λ v. v.items ≡ spec.names_of_outputs (maybe view_outputs outputs.now)) }
{
    let mut names = Vec::new(alloc);
    if let Some(outputs) = outputs {
        for output in &outputs.outputs {
            names.push(emitted_as(&output.options)?)?;
        }
    }
    Ok(names)
}

/// The name that the last `emit:` gives an output.
fn emitted_as(options: &[Label]) -> Result<Option<Txt>, Mem>
    ensures { IfOk result (λ n. n ≡ spec.emitted_as (trees (map view_label options.now))) }
{
    let mut name = None;
    for option in options {
        name = emitted_with(name, option)?;
    }
    Ok(name)
}

/// The name that an option gives an output, if it is `emit:`, and else that of the options before it.
fn emitted_with(before: Option<Txt>, option: &Label) -> Result<Option<Txt>, Mem>
    ensures { IfOk result (λ n. n ≡ spec.emitted_with before (view_label option.now)) }
{
    if option.name.as_str() == "emit" {
        return name_of(read_form(&option.value));
    }
    Ok(before)
}
