//! Laws of tasks, each a contract over the definitions alone, or over what lies in memory.

ghost use Rattle.std.specs.Prelude.{◌≡◌, ◌≢◌, ◌≤◌, ℕ, List, OnOk, Ok, Err};
ghost use Rattle.nf_value.specs.Plain.{Plain};
ghost use Rattle.nf_job.specs.declared.parts.JobParts.{JobParts};
ghost use Rattle.nf_job.specs.declared.fault.TaskFault.{TaskFault};
ghost use Rattle.nf_job.specs.declared.report.Report.{Report};
ghost use Rattle.nf_job.specs.declared.emitted.Outputs.TheVariants.{Again};
ghost use Rattle.nf_job.specs.JobText.{job_text};
ghost use Rattle.nf_tasks.specs.Meaning.{ProcessMeaning};
ghost use Rattle.nf_tasks.specs.Prepared.{parts_of};
ghost use Rattle.nf_tasks.specs.Outcome.{outputs_of, targets_of};
ghost use Rattle.nf_tasks.specs.Attempts.{attempt_of};

use nf_job::laws::instances_are_told_apart;
use nf_job::{Job, inputs_code};
use nf_value::{Mem, Vals};
use std::alloc::Global;

/// Jobs of one text are of one attempt at one instance: of one call, the same list of inputs, the same number and the same attempt. It asks
/// for no size, since what lies in memory has sizes of 64 bits. (Called for its contract.)
///
/// # Errors
///
/// `Mem` if there is no memory for the codes of the inputs.
pub fn attempts_are_told_apart(
    alloc: Global,
    first: &Job,
    inputs: &Vals,
    second: &Job,
    others: &Vals,
) -> Result<(), Mem>
    ensures { OnOk result
        ((p q : ProcessMeaning) → (m n a b : ℕ) → parts_of p inputs.now m a ≡ Ok first.now → parts_of q others.now n
        b ≡ Ok second.now → job_text first.now ≡ job_text second.now → attempt_of p inputs.now m a ≡ attempt_of q
        others.now n b) }
{
    inputs_code(alloc, inputs)?;
    inputs_code(alloc, others)?;
    let _ = first.parts();
    let _ = second.parts();
    instances_are_told_apart();
    Ok(())
}

/// No report of the 101st attempt, or of a later one, makes its task be tried again.
#[tactic(auto, using(crate::proofs::Decided::not_again))]
pub fn attempts_end()
    ensures { (p : ProcessMeaning) → (inputs : List Plain) → (attempt : ℕ) → (r : Report) → 101 ≤ attempt →
        outputs_of p inputs attempt r ≢ Ok Again }
{}

/// The report of an attempt without a job has the fault of that job: it amounts to nothing, and publishes nothing, by this fault.
#[tactic(auto, using(crate::proofs::Decided::without_a_job))]
pub fn without_a_job()
    ensures { (p : ProcessMeaning) → (inputs : List Plain) → (n attempt : ℕ) → (r : Report) → (f : TaskFault) →
        parts_of p inputs n attempt ≡ Err f → (outputs_of p inputs attempt r ≡ Err f) × (targets_of p inputs attempt r
        ≡ Err f) }
{}
