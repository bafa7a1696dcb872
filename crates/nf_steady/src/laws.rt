//! Laws of runs over lanes that tell one world, each a contract over the definitions alone.

ghost use Rattle.std.specs.Prelude.{◌≡◌, ℕ, List, Result};
ghost use Rattle.nf_value.specs.Plain.{Plain};
ghost use Rattle.nf_bag.specs.Tests.{IsSameByTests};
ghost use Rattle.nf_tasks.specs.Memory.{Program};
ghost use Rattle.nf_tasks.specs.declared.target_list.Target.{Target};
ghost use Rattle.nf_graph.specs.Rules.{IsRules, Rules};
ghost use Rattle.nf_keeper.specs.Held.{Both};
ghost use Rattle.nf_lane.specs.World.{World};
ghost use Rattle.nf_machine.specs.declared.event.Event.{Event};
ghost use Rattle.nf_core.specs.Opening.{IsSteady, Opening};
ghost use Rattle.nf_core.specs.Run.{IsRun, Parts};
ghost use Rattle.nf_core.specs.Told.{IsDoneOf, IsSeenOf};
ghost use Rattle.nf_plan.specs.declared.builder.PlanBuilder.{PlanBuilder};
ghost use Rattle.nf_ends.specs.declared.end.End.{End};
ghost use Rattle.nf_owed.specs.declared.finished.Finished.{Finished};
ghost use Rattle.nf_owed.specs.Run.{run_of};
ghost use Rattle.nf_owed.specs.Ended.{EndedWell, IsFaultless, meant_by};
ghost use Rattle.nf_owed.specs.Finished.{ComesTo, EndsWell, GoesFaultless};
ghost use Rattle.nf_steady.specs.Given.{AreGiven, given_in};
ghost use Rattle.nf_steady.specs.Steady.{EndsOver, IsLeftByStop, IsOfPlan, IsRunFrom, IsSoundKeeper, OpensOver, Writes, meaning_in};

use nf_graph::laws::well_made;
use nf_lane::Lane;
use nf_record::laws::{no_front_is_a_record, records_read_back};

/// What a task is given in a world are the world's reports of its attempts, in their order: they go on exactly as long as
/// attempts are tried again, and none is of an attempt without a job.
pub fn given_reports()
    ensures { (w : World) → (R : Rules) → IsRules R → (i : ℕ) → (inputs : List Plain) → (n : ℕ)
        → AreGiven w (R.job i inputs n) (R.outputs i inputs) 1 (given_in w R i inputs n) }
{}

/// The parts of a run of a plan tell its history, which is lawful and keeps what runs promise.
pub fn runs_of_plans<L: Lane>()
    ensures { (F : Opening) → (n : Program) → (b : PlanBuilder) → (z : Parts L.Done L.Seen)
        → IsRun F (IsDoneOf L.Done.genuine L.Done.job L.Done.told F.rules) (IsSeenOf L.Seen.genuine L.Seen.told) z
        → IsOfPlan F n b → IsRunFrom F n b z.flow.history }
{}

/// Over lanes that tell one world, and without resume or from a sound keeper, a run that ended well means what its plan
/// means in that world: the same views, files, tasks, deliveries and faults. This holds of its history, and so of its parts.
pub fn means_as_in_the_world<L: Lane>()
    ensures histories { (w : World) → (F : Opening) → (n : Program) → (b : PlanBuilder) → (h : List Event)
        → OpensOver w F → IsRunFrom F n b h → EndedWell (run_of n b) h → meant_by (run_of n b) h ≡ meaning_in w n b }
    ensures parts { (w : World) → (F : Opening) → (n : Program) → (b : PlanBuilder) → (z : Parts L.Done L.Seen)
        → IsRun F (IsDoneOf L.Done.genuine L.Done.job L.Done.told F.rules) (IsSeenOf L.Seen.genuine L.Seen.told) z
        → IsOfPlan F n b → OpensOver w F → EndedWell (run_of n b) z.flow.history
        → meant_by (run_of n b) z.flow.history ≡ meaning_in w n b }
{
    well_made();
}

/// So such a run writes the report of its plan's meaning in that world, and publishes that meaning's files.
pub fn writes_as_in_the_world()
    ensures { (w : World) → (F : Opening) → (n : Program) → (b : PlanBuilder) → (h : List Event) → (report : List ℕ)
        → (targets : List Target) → OpensOver w F → IsRunFrom F n b h → EndsWell (run_of n b) h report targets
        → Writes (meaning_in w n b) report targets }
{
    well_made();
}

/// And any two such runs of one plan write one report and publish the same files, each as often: a resumed run as a fresh
/// one, and a run on many lanes as one on a single lane.
pub fn runs_write_alike()
    ensures { (w : World) → (n : Program) → (b : PlanBuilder) → (one : List ℕ) → (other : List ℕ) → (files : List Target)
        → (others : List Target) → EndsOver w n b one files → EndsOver w n b other others
        → (one ≡ other) × IsSameByTests files others }
{
    well_made();
}

/// A run over lanes that tell one world leaves a sound keeper sound, wherever it ended, and so does a stop within the put
/// of a record. So a run that resumes from there opens over that world too.
pub fn next_run_opens_so<L: Lane>()
    ensures ended { (w : World) → (F : Opening) → (G : Opening) → (z : Parts L.Done L.Seen)
        → IsRun F (IsDoneOf L.Done.genuine L.Done.job L.Done.told F.rules) (IsSeenOf L.Seen.genuine L.Seen.told) z
        → IsSteady w F → IsSoundKeeper w F.held → IsSteady w G → G.held ≡ z.held → OpensOver w G }
    ensures stopped { (w : World) → (F : Opening) → (G : Opening) → (z : Parts L.Done L.Seen)
        → IsRun F (IsDoneOf L.Done.genuine L.Done.job L.Done.told F.rules) (IsSeenOf L.Seen.genuine L.Seen.told) z
        → IsSteady w F → IsSoundKeeper w F.held → IsSteady w G → Both z.held G.held (IsLeftByStop F) → OpensOver w G }
{
    records_read_back();
    no_front_is_a_record();
}

/// Where the meaning in that world has no fault and costs no more than the limit, such a run ends well, or it has a target
/// with two contents, a failure outside of the script, or want of memory. So whether it can fail is known before it begins.
pub fn goes_as_in_the_world()
    ensures { (w : World) → (F : Opening) → (n : Program) → (b : PlanBuilder) → (h : List Event) → (r : Result Finished End)
        → OpensOver w F → IsRunFrom F n b h → ComesTo (run_of n b) h r → IsFaultless (meaning_in w n b)
        → GoesFaultless (run_of n b) h r }
{
    well_made();
}
