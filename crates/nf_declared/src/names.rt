//! `TopNames`: the names at the top of a script, each of which stands there once.

ghost use Rattle.std.specs.Prelude.{◌≡◌, ℕ, List, IfOk, OnOk};
ghost use Rattle.std.specs.HashSet.{contains_text};
ghost use Rattle.nf_ast.specs.Tops.{view_workflow};
ghost use Rattle.nf_ast.specs.Tree as tree;
ghost use Rattle.nf_builtins.specs.Natives.{is_among};
ghost use Rattle.nf_meaning.specs.Given.{Given};
ghost use Rattle.nf_meaning.specs.Script as meaning;
ghost use Rattle.nf_meaning.specs.Script.{begun, top_read};
ghost use Rattle.nf_declared.specs.Names.{HasAlso};

use indexmap::IndexSet;
use nf_ast::Workflow;
use nf_builtins::Natives;
use nf_meaning::LowerFault;
use nf_value::{Mem, Place, Txt};
use std::alloc::Global;

/// The names that were read at the top of a script so far.
#[derive(Drop)]
pub(crate) struct TopNames {
    /// The names of the program's functions, and of processes, workflows and functions so far.
    pub(crate) names: IndexSet<String>,
    /// Whether a workflow without a name came.
    pub(crate) has_entry: bool,
    /// The parameters that the script set so far.
    pub(crate) set: IndexSet<String>,
}

impl TopNames {
    ghost use Rattle.nf_declared.specs.Names.{NamesGoOn, NamesRead};

    /// The names of the program's functions alone.
    pub(crate) fn new<N: Natives>(alloc: Global, natives: &N) -> Result<TopNames, Mem>
        ensures { IfOk result (λ x. (g : Given) → g.program.titles ≡ N.titles natives.now → NamesRead x (begun g)) }
    {
        let names = names_of(alloc, natives)?;
        let set = IndexSet::new(alloc);
        Ok(TopNames {
            names,
            has_entry: false,
            set,
        })
    }

    /// A name of a process, a workflow or a function, which stands at the place.
    pub(crate) fn new_name(
        &mut self,
        alloc: Global,
        place: Place,
        name: &Txt,
    ) -> Result<(), LowerFault>
        ensures { NamesGoOn (meaning.new_name (tree.name place name.now)) self.old self.new result }
    {
        if self.names.contains(name.as_str()) {
            return Err(LowerFault::TwiceDefined { place });
        }
        put(alloc, &mut self.names, name.as_str())?;
        Ok(())
    }

    /// A workflow without a name, at the place.
    fn new_entry(&mut self, place: Place) -> Result<(), LowerFault>
        ensures { NamesGoOn (meaning.new_entry place) self.old self.new result }
    {
        if self.has_entry {
            return Err(LowerFault::TwiceDefined { place });
        }
        self.has_entry = true;
        Ok(())
    }

    /// A workflow, with or without a name.
    pub(crate) fn workflow(&mut self, alloc: Global, workflow: &Workflow) -> Result<(), LowerFault>
        ensures { (g : Given) → NamesGoOn (top_read g (view_workflow workflow.now)) self.old self.new result }
    {
        match &workflow.name {
            Some((place, name)) => self.new_name(alloc, *place, name),
            None => self.new_entry(workflow.place),
        }
    }
}

/// The names of the program's functions.
fn names_of<N: Natives>(alloc: Global, natives: &N) -> Result<IndexSet<String>, Mem>
    ensures { IfOk result (λ names. (n : List ℕ) → contains_text names n ≡ is_among n (N.titles natives.now)) }
{
    let mut names = IndexSet::new(alloc);
    for id in 0..natives.count() {
        put(alloc, &mut names, natives.name(id))?;
    }
    Ok(names)
}

/// One name more.
pub(crate) fn put(alloc: Global, names: &mut IndexSet<String>, name: &str) -> Result<(), Mem>
    ensures { OnOk result (HasAlso name.now names.old names.new) }
{
    names.insert(String::from_str(alloc, name)?)?;
    Ok(())
}
