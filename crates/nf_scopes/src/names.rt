//! The names of a body.

ghost use Rattle.std.specs.Prelude.{◌≡◌, ◌++◌, ◌∷◌, [], ℕ, List, map, Some, MatchOption, IfSome, OnOk};
ghost use Rattle.std.specs.Option.{option_copied};
ghost use Rattle.nf_graph.specs.Meaning.{Bags};
ghost use Rattle.nf_meaning.specs.Walk as walk;
ghost use Rattle.nf_scopes.specs.Tables.{NoneHas, held};
ghost use Rattle.nf_scopes.specs.declared.things.Thing.{Thing as Stored};
ghost use Rattle.nf_scopes.specs.Last.{IsLast};

use crate::things::Thing;
use indexmap::IndexMap;
use nf_value::Mem;
use std::alloc::Global;
use std::mem::replace;

/// The names of a workflow's body (own): those that `def` bound in the braces that are open, and the workflow's other names.
/// Each is found in a time that doesn't grow with their number.
pub struct BodyNames {
    alloc: Global,
    /// The names of the braces around the innermost ones, the outermost first.
    pub(crate) outer: Vec<IndexMap<String, Thing>>,
    /// The names of the innermost braces.
    pub(crate) inner: IndexMap<String, Thing>,
    /// The other names.
    pub(crate) names: IndexMap<String, Thing>,
}

impl Drop for BodyNames {
    fn drop(self) {
        let BodyNames {
            alloc: _,
            outer: _,
            inner: _,
            names: _,
        } = self;
    }
}

impl BodyNames {
    ghost use Rattle.nf_scopes.specs.Standing.{BeginsWith, Binds, Braces, Finds, HasBound, NamesStand, TellsDefined};
    ghost use Rattle.nf_scopes.specs.Held.{Holds, HoldsAlso, HoldsNoMore};

    /// The names of a body that begins: the workflow's own alone. Takes no memory.
    pub fn new(alloc: Global, names: IndexMap<String, Thing>) -> BodyNames
        ensures stands { BeginsWith names.entries result }
        ensures holds { (n : List ℕ) (t : Stored) → Holds result n t → held n names.entries ≡ Some t }
    {
        BodyNames {
            alloc,
            outer: Vec::new(alloc),
            inner: IndexMap::new(alloc),
            names,
        }
    }

    /// What a name stands for. Takes no memory.
    pub fn thing(&self, name: &str) -> Option<&Thing>
        ensures stands { Finds self.now name.now (option_copied result) }
        ensures holds { IfSome result (λ t. Holds self.now name.now t.now) }
    {
        if let Some(thing) = self.inner.get(name) {
            return Some(thing);
        }
        match last_with(&self.outer, name) {
            Some(place) => self.outer[place].get(name),
            None => self.names.get(name),
        }
    }

    /// Whether `def` bound a name between the innermost braces. Takes no memory.
    pub fn is_defined(&self, name: &str) -> bool
        ensures { TellsDefined self.now name.now result }
    {
        self.inner.contains_key(name)
    }

    /// `def name = ..` (Nextflow reference documentation, "Syntax", "Variables").
    ///
    /// # Errors
    ///
    /// `Mem` if there is no memory for it.
    pub fn define(&mut self, name: &str, thing: Thing) -> Result<(), Mem>
        ensures stands { OnOk result (Binds (λ s t. walk.defining name.now t s) thing self.old self.new) }
        ensures holds { OnOk result (HoldsAlso self.old thing self.new) }
    {
        let name = String::from_str(self.alloc, name)?;
        self.inner.insert(name, thing)?;
        Ok(())
    }

    /// `name = ..`: of the innermost braces in which `def` bound the name, or else of the workflow.
    ///
    /// # Errors
    ///
    /// `Mem` if there is no memory for it.
    pub fn assign(&mut self, name: &str, thing: Thing) -> Result<(), Mem>
        ensures stands { OnOk result (Binds (λ s t. walk.assigning name.now t s) thing self.old self.new) }
        ensures holds { OnOk result (HoldsAlso self.old thing self.new) }
    {
        let key = String::from_str(self.alloc, name)?;
        if self.inner.contains_key(name) {
            self.inner.insert(key, thing)?;
            return Ok(());
        }
        match last_with(&self.outer, name) {
            Some(place) => {
                self.outer[place].insert(key, thing)?;
            }
            None => {
                self.names.insert(key, thing)?;
            }
        }
        Ok(())
    }

    /// Braces begin.
    ///
    /// # Errors
    ///
    /// `Mem` if there is no memory for it.
    pub fn enter(&mut self) -> Result<(), Mem>
        ensures stands { OnOk result ((bags : Bags) (around : Braces) (s : walk.Scope) → NamesStand bags around self.old s
            → NamesStand bags (around ++ s.defined ∷ []) self.new (walk.entering s) × HasBound around s) }
        ensures holds { OnOk result (HoldsNoMore self.old self.new) }
    {
        let inner = replace(&mut self.inner, IndexMap::new(self.alloc));
        self.outer.push(inner)?;
        Ok(())
    }

    /// Braces end: the names that `def` bound in them are gone. Takes no memory.
    pub fn leave(&mut self)
        ensures stands { (bags : Bags) (around : Braces) (before s : walk.Scope) → HasBound around before
            → NamesStand bags (around ++ before.defined ∷ []) self.old s
            → NamesStand bags around self.new (walk.leaving before s) }
        ensures holds { HoldsNoMore self.old self.new }
    {
        let Some(inner) = self.outer.pop() else {
            return;
        };
        self.inner = inner;
    }
}

/// The place of the last table that has a name.
fn last_with(tables: &[IndexMap<String, Thing>], name: &str) -> Option<usize>
    ensures { let all = map (λ m. m.entries) tables.now in
        MatchOption result (NoneHas name.now all) (λ i. IsLast name.now i all) }
{
    let mut end = tables.len();
    while end > 0 {
        end -= 1;
        if tables[end].contains_key(name) {
            return Some(end);
        }
    }
    None
}
