//! Laws of rules, each a function that does nothing.

ghost use Rattle.std.specs.Prelude.{◌≡◌, ℕ, List};
ghost use Rattle.nf_job.specs.declared.parts.JobParts.{JobParts};
ghost use Rattle.nf_job.specs.JobText.{job_text};
ghost use Rattle.nf_graph.specs.Rules as graph;
ghost use Rattle.nf_stored.specs.Attempts.{Attempt, NamesJobs, IsJobOf, TellsApart};

use crate::rules::Rules;
use nf_job::laws::instances_are_told_apart;

/// Where an attempt has no job, each report of it is refused by the same fault; and the last attempt isn't tried again.
pub fn are_rules<Q: Rules>(rules: &Q)
    ensures { graph.IsRules (Q.meaning rules.now) }
{}

/// Two attempts have one job text only if they are one attempt at one task, under rules whose jobs have the path of their process, the
/// code of their inputs, their number and the attempt. (Of a job in memory `Job::parts` tells the sizes, and of its inputs `Rules::job`.)
pub fn attempts_are_told_apart()
    ensures { (R : graph.Rules) → (path : ℕ → List ℕ) → (x y : Attempt) → (p q : JobParts) → NamesJobs R path → IsJobOf R x p → IsJobOf R y q
        → job_text p ≡ job_text q → x ≡ y }
{
    instances_are_told_apart();
}

/// Such rules tell attempts apart by the texts of their jobs.
pub fn texts_tell_apart()
    ensures { (R : graph.Rules) → (path : ℕ → List ℕ) → NamesJobs R path → TellsApart R }
{
    attempts_are_told_apart();
}
