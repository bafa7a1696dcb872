//! `RunState`: what lies under a run's lock, for one thread and for many.

ghost use Rattle.std.specs.Prelude.{◌≡◌, []};
ghost use Rattle.nf_flow.specs.Seen.{events_of, plain_of};
ghost use Rattle.nf_graph.specs.Rules.{IsRules};
ghost use Rattle.nf_machine.specs.History.{IsHistory};
ghost use Rattle.nf_stored.specs.Attempts.{TellsApart};

use crate::fixed::Fixed;
use nf_flow::Flow;
use nf_keeper::Keeper;
use nf_lane::{Finished, Kept, Lane, Present};
use std::alloc::Global;
use std::marker::{Model, PhantomData};

/// What lies under a run's lock (own): its flow, the Dones and Seens of its lanes, and its keeper. Each call is what one holding of the lock
/// does, or a part of that. Contracts see the flow. `J` stands for what is fixed from the opening on.
///
/// Whatever calls are made: the flow is the replay of its history, which is lawful under the rules; each Finish has its own genuine Done,
/// and each Reuse its own genuine Seen, in their order; each Start has its true cause; a keeper that tells what it holds holds what the
/// history tells, and stays sound.
#[derive(Drop)]
pub struct RunState<L: Lane, K: Keeper, J: Fixed> {
    pub(crate) alloc: Global,
    pub(crate) flow: Flow,
    pub(crate) kept: Kept<L>,
    pub(crate) keeper: K,
    pub(crate) resume: bool,
    pub(crate) of: PhantomData<J>,
}

impl<L: Lane, K: Keeper, J: Fixed> Model for RunState<L, K, J> {
    ghost use Rattle.nf_flow.specs.Seen.{Seen};
    ghost use Rattle.nf_core.specs.Run.{IsRun};
    ghost use Rattle.nf_core.specs.Told.{IsDoneOf, IsSeenOf};
    ghost use Rattle.std.specs.Coded.{codes};
    ghost use Rattle.nf_graph.specs.contracts.node.Node as n;
    ghost use Rattle.nf_machine.specs.contracts.event.Event as ev;

    ghost Value = { Seen };

    ghost coded = { Prim.hlevel (codes, n.the_row.coded, ev.the_row.coded) };

    ghost view = { λ a. a.flow };

    ghost invariant = { λ a. IsRun J.facts (IsDoneOf L.Done.genuine L.Done.job L.Done.told J.facts.rules)
        (IsSeenOf L.Seen.genuine L.Seen.told)
        (record {
          flow = a.flow;
          dones = a.kept.dones.items;
          seens = a.kept.seens.items;
          resumed = a.resume;
          held = K.held a.keeper;
          faults = K.faults a.keeper;
        }) };
}

impl<L: Lane, K: Keeper, J: Fixed> RunState<L, K, J> {
    ghost use Rattle.nf_core.specs.Promises.{Keeps, Promises};
    ghost use Rattle.nf_core.specs.Run.{IsRun};
    ghost use Rattle.nf_core.specs.Told.{IsDoneOf, IsSeenOf};

    /// A run before its first event. Takes no memory.
    pub fn new(alloc: Global, flow: Flow, keeper: K, resume: bool) -> RunState<L, K, J>
        requires flow { flow.history ≡ [] }
        requires graph { flow.graph ≡ J.facts.graph }
        requires resumed { resume ≡ J.facts.resumed }
        requires held { K.held keeper ≡ J.facts.held }
        requires faults { K.faults keeper ≡ J.facts.faults }
        requires rules { IsRules J.facts.rules }
        requires apart { TellsApart J.facts.rules }
        ensures { result ≡ flow }
    {
        let kept = Kept {
            dones: Vec::new(alloc),
            seens: Vec::new(alloc),
        };
        RunState {
            alloc,
            flow,
            kept,
            keeper,
            resume,
            of: PhantomData,
        }
    }

    /// The flow. Takes no memory.
    pub fn flow(&self) -> &Flow
        ensures { result.now ≡ self.now }
    {
        &self.flow
    }

    /// The allocator. Takes no memory.
    pub fn alloc(&self) -> Global {
        self.alloc
    }

    /// What holds of every run: its graph is that of the opening, and its history is lawful under the rules and keeps the promises on
    /// starts, reuses and finishes. Takes no memory.
    pub fn holds(&self)
        ensures graph { self.now.graph ≡ J.facts.graph }
        ensures lawful { IsHistory (plain_of self.now) J.facts.rules (events_of self.now) }
        ensures rules { IsRules J.facts.rules }
        ensures promises { Promises J.facts (plain_of self.now) (events_of self.now) }
    {
        let _resume = self.resume;
    }

    /// The parts, with all that held of them, and what the keeper holds then if it tells that. Takes no memory.
    pub fn into_parts(self) -> (Flow, Kept<L>, K)
        ensures flow { result.0 ≡ self }
        ensures keeps { Keeps J.facts (plain_of self) (events_of self) (K.held result.2) }
        ensures run { IsRun J.facts (IsDoneOf L.Done.genuine L.Done.job L.Done.told J.facts.rules)
            (IsSeenOf L.Seen.genuine L.Seen.told)
            (record {
              flow = result.0;
              dones = result.1.dones.items;
              seens = result.1.seens.items;
              resumed = J.facts.resumed;
              held = K.held result.2;
              faults = K.faults result.2;
            }) }
    {
        let RunState {
            alloc: _,
            flow,
            kept,
            keeper,
            resume: _,
            of: _,
        } = self;
        (flow, kept, keeper)
    }
}
