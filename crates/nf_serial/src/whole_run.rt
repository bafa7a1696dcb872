//! `run_alone`: a whole run on one lane.

ghost use Rattle.std.specs.Prelude.{◌≡◌, ◌<◌, ◌+◌, ◌^◌, [], ◌∷◌, true};
ghost use Rattle.nf_flow.specs.Seen.{plain_of, state_of};
ghost use Rattle.nf_machine.specs.History.{is_over};
ghost use Rattle.nf_stored.specs.Attempts.{TellsApart};
ghost use Rattle.nf_core.specs.Opening.{IsLane};
ghost use Rattle.nf_core.specs.Run.{IsRun};
ghost use Rattle.nf_serial.specs.Serial.{Goes, lane_now};
ghost use Rattle.nf_core.specs.Told.{IsDoneOf, IsSeenOf};

use crate::one_lane::serial;
use nf_core::{Fixed, RunState};
use nf_flow::Flow;
use nf_keeper::Keeper;
use nf_lane::{Finished, Kept, Lane, Present};
use nf_stored::Rules;
use nf_stored::laws::are_rules;
use std::alloc::Global;
use std::marker::Brand;

/// Runs a graph on one lane, on one thread, from its first event to its end (own). If the run resumes an earlier one, the keeper is asked
/// for the records of its jobs. The rules are to tell attempts apart by the texts of their jobs.
pub fn run_alone<L: Lane, K: Keeper, R: Rules>(
    alloc: Global,
    flow: Flow,
    keeper: K,
    lane: &mut L,
    rules: &R,
    resume: bool,
) -> (Flow, Kept<L>, K)
    requires begun { flow.history ≡ [] }
    requires keeps { R.keeps rules.now }
    requires apart { TellsApart (R.meaning rules.now) }
    requires runs { L.runs lane.old < 2 ^ 62 + 2 ^ 32 }
    ensures over { is_over (plain_of result.0) (state_of result.0) ≡ true }
    ensures goes { Goes flow result.0
        (lane_now (L.runs lane.old) (L.faults lane.old) (L.world lane.old) (L.store lane.old))
        (lane_now (L.runs lane.new) (L.faults lane.new) (L.world lane.new) (L.store lane.new)) }
    ensures world { L.world lane.new ≡ L.world lane.old }
    // What holds of every run that began so holds of its parts.
    ensures run { IsRun (record {
      graph = flow.graph;
      rules = R.meaning rules.now;
      resumed = resume;
      held = K.held keeper;
      faults = K.faults keeper;
      lanes = record { world = L.world lane.old; store = L.store lane.old } ∷ [];
    })
        (IsDoneOf L.Done.genuine L.Done.job L.Done.told (R.meaning rules.now)) (IsSeenOf L.Seen.genuine L.Seen.told)
        (record { flow = result.0; dones = result.1.dones.items; seens = result.1.seens.items; resumed = resume; held = K.held result.2; faults = K.faults result.2 }) }
{
    run_as::<L, K, Brand, R>(alloc, flow, keeper, lane, rules, resume)
}

// The same, with a type for what is fixed from the opening on.
fn run_as<L: Lane, K: Keeper, J: Fixed, R: Rules>(
    alloc: Global,
    flow: Flow,
    keeper: K,
    lane: &mut L,
    rules: &R,
    resume: bool,
) -> (Flow, Kept<L>, K)
    requires begun { flow.history ≡ [] }
    requires graph { flow.graph ≡ J.facts.graph }
    requires held { K.held keeper ≡ J.facts.held }
    requires faults { K.faults keeper ≡ J.facts.faults }
    requires rules { R.meaning rules.now ≡ J.facts.rules }
    requires keeps { R.keeps rules.now }
    requires apart { TellsApart J.facts.rules }
    requires resumed { resume ≡ J.facts.resumed }
    requires lane { IsLane J.facts (L.world lane.old) (L.store lane.old) }
    requires runs { L.runs lane.old < 2 ^ 62 + 2 ^ 32 }
    ensures over { is_over (plain_of result.0) (state_of result.0) ≡ true }
    ensures goes { Goes flow result.0
        (lane_now (L.runs lane.old) (L.faults lane.old) (L.world lane.old) (L.store lane.old))
        (lane_now (L.runs lane.new) (L.faults lane.new) (L.world lane.new) (L.store lane.new)) }
    ensures lane { IsLane J.facts (L.world lane.new) (L.store lane.new) }
    ensures run { IsRun J.facts (IsDoneOf L.Done.genuine L.Done.job L.Done.told J.facts.rules) (IsSeenOf L.Seen.genuine L.Seen.told)
        (record { flow = result.0; dones = result.1.dones.items; seens = result.1.seens.items; resumed = J.facts.resumed; held = K.held result.2; faults = K.faults result.2 }) }
{
    are_rules(rules);
    let mut run = RunState::<L, K, J>::new(alloc, flow, keeper, resume);
    serial(&mut run, lane, rules);
    run.into_parts()
}
