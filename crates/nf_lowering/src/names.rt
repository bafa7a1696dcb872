//! The names of the body.

ghost use Rattle.std.specs.Prelude.{◌≡◌, ◌++◌, ◌∷◌, [], ℕ, List, OnOk};
ghost use Rattle.nf_meaning.specs.Walk.{Scope, State, entering, leaving};
ghost use Rattle.nf_scopes.specs.Standing.{HasBound};
ghost use Rattle.nf_scopes.specs.Things.{thing_of};
ghost use Rattle.nf_plan.specs.Runs.{Run};
ghost use Rattle.nf_follows.specs.Things.{ThingReads};
ghost use Rattle.nf_lowering.specs.State.{IsLowering, StandsIn, Walks, calls_in};
ghost use Rattle.nf_lowering.specs.Steps.{assigns, defines};

use crate::state::Lowering;
use nf_meaning::LowerFault;
use nf_scopes::{BodyNames, Thing};
use nf_value::Mem;

impl Lowering {
    /// The names that the body knows. Takes no memory.
    pub fn names(&self) -> &BodyNames
        ensures { result.now ≡ self.now.names }
    {
        &self.names
    }

    /// `def name = ..` (Nextflow reference documentation, "Syntax", "Variables").
    ///
    /// # Errors
    ///
    /// `Mem` for want of memory.
    pub fn define(&mut self, name: &str, thing: Thing) -> Result<(), LowerFault>
        requires before { IsLowering self.old }
        requires reads { ThingReads self.old.plan (thing_of thing) }
        ensures keeps { OnOk result (IsLowering self.new) }
        ensures walk { Walks (defines name.now thing) self.old self.new result }
        ensures plan { self.new.plan ≡ self.old.plan }
        ensures within { self.new.within ≡ self.old.within }
        ensures calls { calls_in self.new ≡ calls_in self.old }
    {
        self.names.define(name, thing)?;
        Ok(())
    }

    /// `name = ..`, of a name that `def` bound or of the workflow (Nextflow reference documentation, "Syntax", "Variables").
    ///
    /// # Errors
    ///
    /// `Mem` for want of memory.
    pub fn assign(&mut self, name: &str, thing: Thing) -> Result<(), LowerFault>
        requires before { IsLowering self.old }
        requires reads { ThingReads self.old.plan (thing_of thing) }
        ensures keeps { OnOk result (IsLowering self.new) }
        ensures walk { Walks (assigns name.now thing) self.old self.new result }
        ensures plan { self.new.plan ≡ self.old.plan }
        ensures within { self.new.within ≡ self.old.within }
        ensures calls { calls_in self.new ≡ calls_in self.old }
    {
        self.names.assign(name, thing)?;
        Ok(())
    }

    /// Braces begin.
    ///
    /// # Errors
    ///
    /// `Mem` for want of memory.
    pub fn enter(&mut self) -> Result<(), Mem>
        requires { IsLowering self.old }
        ensures keeps { OnOk result (IsLowering self.new) }
        ensures walk { OnOk result ((braces : List (List (List ℕ))) (x : Run) (s : State) → StandsIn braces x self.old s
            → StandsIn (braces ++ s.scope.defined ∷ []) x self.new (record s { scope = entering s.scope })
            × HasBound braces s.scope) }
        ensures plan { self.new.plan ≡ self.old.plan }
        ensures within { self.new.within ≡ self.old.within }
        ensures calls { calls_in self.new ≡ calls_in self.old }
    {
        self.names.enter()?;
        Ok(())
    }

    /// Braces end: the names that `def` bound in them are gone. Takes no memory.
    pub fn leave(&mut self)
        requires { IsLowering self.old }
        ensures keeps { IsLowering self.new }
        ensures walk { (braces : List (List (List ℕ))) (x : Run) (before : Scope) (s : State) → HasBound braces before
            → StandsIn (braces ++ before.defined ∷ []) x self.old s
            → StandsIn braces x self.new (record s { scope = leaving before s.scope }) }
        ensures plan { self.new.plan ≡ self.old.plan }
        ensures within { self.new.within ≡ self.old.within }
        ensures calls { calls_in self.new ≡ calls_in self.old }
    {
        self.names.leave();
    }
}
