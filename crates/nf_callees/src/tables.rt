//! The definitions of a script in tables, one for each kind.

ghost use Rattle.std.specs.Prelude.{◌∷◌, [], List, OnOk};
ghost use Rattle.nf_ast.specs.declared.tops.Top.{Top};
ghost use Rattle.nf_ast.specs.declared.tops.Top.TheVariants as top;
ghost use Rattle.nf_callees.specs.Found.{Puts};

use crate::functions::DefinedFunction;
use indexmap::IndexMap;
use nf_ast::{Process, Top, Workflow};
use nf_value::{Mem, Txt};
use std::alloc::Global;

/// Definitions by their names.
#[derive(Drop)]
pub(crate) struct Tables<'a> {
    pub(crate) processes: IndexMap<String, &'a Process>,
    pub(crate) workflows: IndexMap<String, &'a Workflow>,
    pub(crate) functions: IndexMap<String, DefinedFunction<'a>>,
}

impl<'a> Tables<'a> {
    ghost use Rattle.nf_callees.specs.Found.{HasAll};

    pub(crate) fn new(alloc: Global) -> Tables<'a>
        ensures { HasAll [] result }
    {
        Tables {
            processes: IndexMap::new(alloc),
            workflows: IndexMap::new(alloc),
            functions: IndexMap::new(alloc),
        }
    }

    /// A definition that stands before all that are in the tables.
    pub(crate) fn put(&mut self, alloc: Global, top: &'a Top) -> Result<(), Mem>
        ensures { OnOk result ((later : List Top) → HasAll later self.old → HasAll (top.now ∷ later) self.new) }
    {
        match top {
            Top::Process(process) => put_in(alloc, &mut self.processes, &process.name, process),
            Top::Function(function) => {
                let code = DefinedFunction::read(alloc, function)?;
                put_in(alloc, &mut self.functions, &function.name, code)
            }
            Top::Workflow(workflow) => self.put_workflow(alloc, workflow),
            Top::Parameter(_) | Top::Println(_, _) | Top::Log(_, _, _, _) | Top::Dsl(_) => Ok(()),
        }
    }

    fn put_workflow(&mut self, alloc: Global, workflow: &'a Workflow) -> Result<(), Mem>
        ensures { OnOk result ((later : List Top) → HasAll later self.old
            → HasAll (top.Workflow workflow.now ∷ later) self.new) }
    {
        match &workflow.name {
            Some((_, name)) => put_in(alloc, &mut self.workflows, name, workflow),
            None => Ok(()),
        }
    }
}

fn put_in<T: Drop>(
    alloc: Global,
    table: &mut IndexMap<String, T>,
    name: &Txt,
    definition: T,
) -> Result<(), Mem>
    ensures { OnOk result (Puts name.now definition table.old.entries table.new.entries) }
{
    table.insert(String::from_str(alloc, name.as_str())?, definition)?;
    Ok(())
}
