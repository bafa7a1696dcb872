//! The calls of the body.

ghost use Rattle.std.specs.Prelude.{◌≡◌, ℕ, List, true, false, IfSome, OnOk};
ghost use Rattle.std.specs.HashSet.{contains_text};
ghost use Rattle.std.specs.Option.{option_copied};
ghost use Rattle.std.specs.Str.{bytes_eq};
ghost use Rattle.nf_builtins.specs.Natives.{is_among};
ghost use Rattle.nf_meaning.specs.CallPaths.{GoesOn, HasNoPath, is_plain_name};
ghost use Rattle.nf_meaning.specs.Things.{thing_named};
ghost use Rattle.nf_meaning.specs.Walk.{State};
ghost use Rattle.nf_scopes.specs.Tables.{FoundStands};
ghost use Rattle.nf_scopes.specs.Things.{thing_of};
ghost use Rattle.nf_plan.specs.Runs.{Run, bags_of};
ghost use Rattle.nf_follows.specs.Things.{ThingReads};
ghost use Rattle.nf_lowering.specs.State.{IsLowering, StandsIn, Walks, calls_in};
ghost use Rattle.nf_lowering.specs.Steps.{begins, begins_process};

use crate::state::Lowering;
use nf_meaning::LowerFault;
use nf_meaning::laws::paths_stay_apart;
use nf_scopes::Thing;
use nf_value::Txt;
use std::alloc::Global;
use std::collections::VecDeque;

impl Lowering {
    /// Whether a process or a workflow of this name is called in the body, from the name of its call on. Takes no
    /// memory.
    pub fn is_called(&self, name: &str) -> bool
        ensures called { result ≡ contains_text self.now.called name.now }
        ensures walk { (braces : List (List (List ℕ))) (x : Run) (s : State) → StandsIn braces x self.now s
            → result ≡ is_among name.now s.scope.called }
    {
        self.called.contains(name)
    }

    /// Whether the body is that of a workflow of this name, or stands in one along the calls that lead here. Takes no
    /// memory.
    pub fn is_within(&self, name: &str) -> bool
        ensures within { result ≡ is_among name.now self.now.within.items }
        ensures walk { (braces : List (List (List ℕ))) (x : Run) (s : State) → StandsIn braces x self.now s
            → result ≡ is_among name.now s.scope.within }
    {
        has_name(&self.within, name)
    }

    /// What the call of a process or a workflow of this name gave, if one was called in the body. Takes no memory.
    pub fn call(&self, name: &str) -> Option<&Thing>
        requires { IsLowering self.now }
        ensures reads { IfSome result (λ t. ThingReads self.now.plan (thing_of t.now)) }
        ensures walk { (braces : List (List (List ℕ))) (x : Run) (s : State) → StandsIn braces x self.now s
            → FoundStands (bags_of x self.now.plan) (option_copied result) (thing_named name.now s.scope.calls) }
    {
        self.calls.get(name)
    }

    /// The call of a process or a workflow of this name begins. No call of the name may have begun in the body, and
    /// the name has no colon. In the walk the path of a process that is called is kept; in memory its node has it
    /// later, and until then no other has it.
    ///
    /// # Errors
    ///
    /// `Mem` for want of memory.
    pub fn begin_call(&mut self, alloc: Global, name: &str) -> Result<(), LowerFault>
        requires before { IsLowering self.old }
        requires plain { is_plain_name name.now ≡ true }
        requires fresh { contains_text self.old.called name.now ≡ false }
        ensures keeps { OnOk result (IsLowering self.new) }
        ensures workflow { Walks (begins name.now) self.old self.new result }
        ensures process { Walks (begins_process name.now) self.old self.new result }
        ensures plan { self.new.plan ≡ self.old.plan }
        ensures within { self.new.within ≡ self.old.within }
        ensures goes { OnOk result (GoesOn (calls_in self.old) (calls_in self.new)) }
        ensures here { OnOk result (is_among name.now (calls_in self.new).called ≡ true) }
        ensures none { OnOk result (HasNoPath (calls_in self.new) name.now) }
    {
        paths_stay_apart();
        let name = String::from_str(alloc, name)?;
        self.called.insert(name)?;
        Ok(())
    }
}

/// Whether the name is one of these.
fn has_name(names: &VecDeque<Txt>, name: &str) -> bool
    ensures { result ≡ is_among name.now names.now.items }
{
    names.iter().any(|other| is_name(other, name))
}

/// Whether this is the name.
fn is_name(other: &Txt, name: &str) -> bool
    ensures { result ≡ bytes_eq other.now name.now }
{
    other.as_str() == name
}
