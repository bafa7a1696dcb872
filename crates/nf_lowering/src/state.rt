//! `Lowering`: what the walk through a script has in memory.

use indexmap::{IndexMap, IndexSet};
use nf_plan::{Plan, PlanBuilder};
use nf_scopes::{BodyNames, Thing};
use nf_value::Txt;
use std::alloc::Global;
use std::collections::VecDeque;

/// What the walk through a script has in memory (own): the plan so far, and what the body at hand knows.
pub struct Lowering {
    /// The plan so far.
    pub(crate) plan: PlanBuilder,
    /// The names of the body.
    pub(crate) names: BodyNames,
    /// The processes and workflows that are called in the body, each from the name of its call on.
    pub(crate) called: IndexSet<String>,
    /// What the calls of the body gave, by the names of what they call.
    pub(crate) calls: IndexMap<String, Thing>,
    /// What stands before the name of a call here: the workflows that lead here, each with a colon.
    pub(crate) path: Txt,
    /// The workflows in whose bodies this one stands, the innermost first.
    pub(crate) within: VecDeque<Txt>,
}

impl Drop for Lowering {
    fn drop(self) {
        let Lowering {
            plan: _,
            names: _,
            called: _,
            calls: _,
            path: _,
            within: _,
        } = self;
    }
}

impl Lowering {
    ghost use Rattle.std.specs.Prelude.{[]};
    ghost use Rattle.nf_meaning.specs.Script.{opening};
    ghost use Rattle.nf_plan.specs.Runs.{Run};
    ghost use Rattle.nf_lowering.specs.State.{IsFinished, IsLowering, StandsIn};

    /// Where a script's entry begins: a plan of no nodes, and a body that knows no name. Takes no memory.
    pub fn new(alloc: Global) -> Lowering
        ensures keeps { IsLowering result }
        ensures stands { (x : Run) → StandsIn [] x result opening }
    {
        let plan = PlanBuilder::new(alloc);
        let none = IndexMap::new(alloc);
        let names = BodyNames::new(alloc, none);
        let called = IndexSet::new(alloc);
        let calls = IndexMap::new(alloc);
        let path = Txt::of(String::new(alloc));
        let within = VecDeque::new(alloc);
        Lowering {
            plan,
            names,
            called,
            calls,
            path,
            within,
        }
    }

    /// The plan, where the walk ends.
    pub fn into_plan(self) -> Plan
        requires { IsLowering self }
        ensures { IsFinished self.plan result }
    {
        let Lowering {
            plan,
            names: _,
            called: _,
            calls: _,
            path: _,
            within: _,
        } = self;
        plan.finish()
    }
}
