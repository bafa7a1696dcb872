//! Laws of plans, each a contract over the definitions alone.

ghost use Rattle.std.specs.Prelude.{◌≡◌};
ghost use Rattle.nf_bodies.specs.Attempts.{NamesJobs};
ghost use Rattle.nf_tasks.specs.Memory.{Program};
ghost use Rattle.nf_meaning.specs.Walk.{State};
ghost use Rattle.nf_bodies.specs.Bodies.{rules_of};
ghost use Rattle.nf_plan.specs.declared.builder.PlanBuilder.{PlanBuilder};
ghost use Rattle.nf_plan.specs.Plans.{IsPlan, name_in};
ghost use Rattle.nf_plan.specs.Runs.{Run, PlanStands};
ghost use Rattle.nf_plan.specs.Whole.{graph_meaning};

use nf_meaning::laws::{operator_node, process_node};

/// Each job of a plan's nodes has the path of its process's call, and no two calls have one path; so jobs tell the attempts of a run apart.
pub fn jobs_are_named()
    ensures { (n : Program) → (b : PlanBuilder) → IsPlan b
        → NamesJobs (rules_of n b.infos.items) (name_in b.infos.items) }
{}

/// In every run for which a plan stands for the state of the walk, its graph means what is meant so far: the same views, targets, tasks,
/// deliveries and faults.
pub fn plans_mean()
    ensures { (x : Run) → (b : PlanBuilder) → (s : State) → PlanStands x b s → graph_meaning x b ≡ s.meant }
{
    operator_node();
    process_node();
}
