//! `Definitions`: what a script defines at its top, by name.

ghost use Rattle.std.specs.Prelude.{◌≡◌, option_map, IfOk};
ghost use Rattle.nf_meaning.specs.Given.{tree_named};
ghost use Rattle.nf_callees.specs.Found.{HasFunctions, defined_in, process_tree, workflow_tree};

use crate::functions::DefinedFunction;
use crate::tables::Tables;
use indexmap::IndexMap;
use nf_ast::{Process, Top, Workflow};
use nf_value::Mem;
use std::alloc::Global;
use std::marker::Model;

/// What a script defines at its top (own): its processes, its workflows with a name, and its functions. Of several of one kind and name the first counts.
/// Each is found in a time that doesn't grow with their number. Contracts see what stands at the script's top.
#[derive(Drop)]
pub struct Definitions<'a> {
    tops: &'a [Top],
    tables: Tables<'a>,
}

impl<'a> Model for Definitions<'a> {
    ghost use Rattle.std.specs.Prelude.{List};
    ghost use Rattle.std.specs.Coded.{codes};
    ghost use Rattle.nf_ast.specs.declared.tops.Top.{Top};
    ghost use Rattle.nf_ast.specs.contracts.tops.Top as e;
    ghost use Rattle.nf_callees.specs.Found.{HasAll};

    ghost Value = { List Top };

    ghost coded = { Prim.hlevel (codes, e.the_row.coded) };

    ghost view = { λ a. a.tops.now };

    ghost invariant = { λ a. HasAll a.tops.now a.tables };
}

impl<'a> Definitions<'a> {
    /// The definitions of a script.
    ///
    /// # Errors
    ///
    /// `Mem` if there is no memory for their tables.
    pub fn new(alloc: Global, tops: &'a [Top]) -> Result<Definitions<'a>, Mem>
        ensures { IfOk result (λ d. d ≡ tops.now) }
    {
        let mut tables = Tables::new(alloc);
        let mut left = tops.len();
        while left > 0 {
            left -= 1;
            tables.put(alloc, &tops[left])?;
        }
        Ok(Definitions { tops, tables })
    }

    /// The process of this name (Nextflow reference documentation, "Processes"). Takes no memory.
    pub fn process(&self, name: &str) -> Option<&'a Process>
        ensures { option_map process_tree result ≡ tree_named name.now (defined_in self.now).processes }
    {
        self.tables.processes.get(name).copied()
    }

    /// The workflow of this name (Nextflow reference documentation, "Workflows"). Takes no memory.
    pub fn workflow(&self, name: &str) -> Option<&'a Workflow>
        ensures { option_map workflow_tree result ≡ tree_named name.now (defined_in self.now).workflows }
    {
        self.tables.workflows.get(name).copied()
    }

    /// The functions by name (Nextflow reference documentation, "Syntax", "Function"). Takes no memory.
    pub fn functions(&self) -> &IndexMap<String, DefinedFunction<'a>>
        ensures { HasFunctions (defined_in self.now) result.now.entries }
    {
        &self.tables.functions
    }
}
