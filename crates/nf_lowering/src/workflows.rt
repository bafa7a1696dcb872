//! Calls of workflows: into the body of one, and back; and what a call gives.

ghost use Rattle.std.specs.Prelude.{◌≡◌, ◌++◌, ◌∷◌, map, drop, codes, string_bytes, IfOk, OnOk};
ghost use Rattle.nf_meaning.specs.CallPaths.{HasNoPath, inside};
ghost use Rattle.nf_meaning.specs.Stands.{results};
ghost use Rattle.nf_scopes.specs.Things.{output_of, thing_of};
ghost use Rattle.nf_follows.specs.Things.{OutputsRead, ThingReads};
ghost use Rattle.nf_lowering.specs.State.{IsLowering, Walks, calls_in};
ghost use Rattle.nf_lowering.specs.Nodes.{KeepsCall};
ghost use Rattle.nf_lowering.specs.Workflows.{ComesBack, EntersBody, IsAside, TableReads, calls_back, gives_call};

use crate::copies::copy_outputs;
use crate::state::Lowering;
use indexmap::{IndexMap, IndexSet};
use nf_follows::laws::things_last;
use nf_meaning::LowerFault;
use nf_meaning::laws::paths_stay_apart;
use nf_scopes::{BodyNames, CallOutput, Thing};
use nf_value::{Mem, Txt};
use std::alloc::Global;
use std::mem::replace;

/// What a body knows that calls a workflow, while the body of that workflow is gone through (own).
#[derive(Drop)]
pub struct Outer {
    /// The names of the body.
    pub(crate) names: BodyNames,
    /// The processes and workflows that are called in it.
    pub(crate) called: IndexSet<String>,
    /// What its calls gave.
    pub(crate) calls: IndexMap<String, Thing>,
    /// What stands before the name of a call in it.
    pub(crate) path: Txt,
}

impl Lowering {
    /// The path of the call of this name in the body: the workflows that lead here, and the name, joined by colons.
    ///
    /// # Errors
    ///
    /// `Mem` for want of memory.
    pub fn path_of(&self, alloc: Global, name: &str) -> Result<Txt, Mem>
        ensures { IfOk result (λ path. path ≡ self.now.path ++ name.now) }
    {
        Ok(Txt::of(joined(alloc, &self.path, name)?))
    }

    /// The body of a workflow of this name begins, which was called here and takes these channels by their names
    /// (Nextflow reference documentation, "Workflows"). The result is what the body of the call knows;
    /// `leave_workflow` takes it back.
    ///
    /// # Errors
    ///
    /// `Mem` for want of memory.
    pub fn enter_workflow(
        &mut self,
        alloc: Global,
        name: &str,
        names: IndexMap<String, Thing>,
    ) -> Result<Outer, Mem>
        requires before { IsLowering self.old }
        requires fresh { HasNoPath (calls_in self.old) name.now }
        requires reads { TableReads self.old.plan names.entries }
        ensures keeps { OnOk result (IsLowering self.new) }
        ensures aside { IfOk result (IsAside self.old) }
        ensures walk { OnOk result (EntersBody name.now names.entries self.old self.new) }
        ensures plan { self.new.plan ≡ self.old.plan }
        ensures calls { OnOk result (calls_in self.new ≡ inside name.now (calls_in self.old)) }
        ensures within { OnOk result (self.new.within.items ≡ name.now ∷ self.old.within.items) }
    {
        paths_stay_apart();
        let path = path_within(alloc, &self.path, name)?;
        let text = String::from_str(alloc, name)?;
        self.within.push_front(Txt::of(text))?;
        let inner = BodyNames::new(alloc, names);
        let none = IndexSet::new(alloc);
        let nothing = IndexMap::new(alloc);
        let names = replace(&mut self.names, inner);
        let called = replace(&mut self.called, none);
        let calls = replace(&mut self.calls, nothing);
        let path = replace(&mut self.path, path);
        Ok(Outer {
            names,
            called,
            calls,
            path,
        })
    }

    /// The body of a workflow ends: what is known is what the body of its call knew, of a plan that has grown. Takes
    /// no memory.
    pub fn leave_workflow(&mut self, outer: Outer)
        requires { IsLowering self.old }
        ensures back { ComesBack outer self.old self.new }
        ensures plan { self.new.plan ≡ self.old.plan }
        ensures calls { calls_in self.new ≡ calls_back outer (calls_in self.old) }
        ensures within { self.new.within.items ≡ drop 1 self.old.within.items }
    {
        things_last();
        paths_stay_apart();
        let Outer {
            names,
            called,
            calls,
            path,
        } = outer;
        self.within.pop_front();
        self.names = names;
        self.called = called;
        self.calls = calls;
        self.path = path;
    }

    /// What the call of a workflow of this name gave is known by its name in the rest of the body.
    ///
    /// # Errors
    ///
    /// `Mem` for want of memory.
    pub fn called_here(
        &mut self,
        alloc: Global,
        name: &str,
        outputs: Vec<CallOutput>,
    ) -> Result<Thing, LowerFault>
        requires before { IsLowering self.old }
        requires reads { OutputsRead self.old.plan (map output_of outputs.items) }
        ensures keeps { OnOk result (IsLowering self.new) }
        ensures reads { IfOk result (λ thing. ThingReads self.new.plan (thing_of thing)) }
        ensures walk { Walks (gives_call name.now (map output_of outputs.items)) self.old self.new result }
        ensures plan { self.new.plan ≡ self.old.plan }
        ensures calls { calls_in self.new ≡ calls_in self.old }
        ensures within { self.new.within ≡ self.old.within }
    {
        let thing = self.keep_call(alloc, name, outputs)?;
        Ok(thing)
    }

    /// Keeps what a call gave by its name. The result is a copy of it.
    pub(crate) fn keep_call(
        &mut self,
        alloc: Global,
        name: &str,
        outputs: Vec<CallOutput>,
    ) -> Result<Thing, Mem>
        ensures given { IfOk result (λ thing. thing_of thing ≡ results (map output_of outputs.items)) }
        ensures kept { OnOk result (KeepsCall name.now (results (map output_of outputs.items)) self.old self.new) }
        ensures others { self.new ≡ record self.old { calls = self.new.calls } }
    {
        let given = copy_outputs(alloc, outputs.as_slice())?;
        let key = String::from_str(alloc, name)?;
        self.calls.insert(key, Thing::Outputs(outputs))?;
        Ok(Thing::Outputs(given))
    }
}

/// What stands before the name of a call in the body of the workflow of this name that is called in the body of this
/// path.
fn path_within(alloc: Global, path: &Txt, name: &str) -> Result<Txt, Mem>
    ensures { IfOk result (λ inner. inner ≡ path.now ++ name.now ++ codes ":") }
{
    let mut text = joined(alloc, path, name)?;
    text.push_str(":")?;
    Ok(Txt::of(text))
}

/// A name after a path.
fn joined(alloc: Global, path: &Txt, name: &str) -> Result<String, Mem>
    ensures { IfOk result (λ text. string_bytes text ≡ path.now ++ name.now) }
{
    let mut text = String::from_str(alloc, path.as_str())?;
    text.push_str(name)?;
    Ok(text)
}
