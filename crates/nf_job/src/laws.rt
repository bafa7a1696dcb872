//! Laws of jobs, each a contract over the definitions alone.

ghost use Rattle.std.specs.Prelude.{◌≡◌, List};
ghost use Rattle.nf_value.specs.Plain.{Plain, list, plains_of};
ghost use Rattle.nf_job.specs.declared.parts.JobParts.{JobParts};
ghost use Rattle.nf_job.specs.JobText.{job_text, inputs_text};
ghost use Rattle.nf_job.specs.Sizes.{IsFit, IsSized, SameAttempt, SameInstance};

/// Distinct lists of inputs have distinct codes.
#[tactic(auto, using(crate::proofs::Codes::inputs_apart))]
pub fn inputs_are_told_apart()
    ensures { (vs ws : List Plain) → IsFit (list (plains_of vs)) → IsFit (list (plains_of ws)) → inputs_text vs ≡ inputs_text ws → vs ≡ ws }
{}

/// Two jobs with the same text have the same process, script, inputs, number and attempt.
#[tactic(auto, using(crate::proofs::Apart::jobs_apart))]
pub fn jobs_are_told_apart()
    ensures { (p q : JobParts) → IsSized p → IsSized q → job_text p ≡ job_text q → SameAttempt p q }
{}

/// The same with the inputs as lists: two jobs with the same text have the same process, list of inputs, number and attempt.
#[tactic(auto, using(crate::proofs::Apart::instances_apart))]
pub fn instances_are_told_apart()
    ensures { (p q : JobParts) → (vs ws : List Plain) → IsSized p → IsSized q → IsFit (list (plains_of vs)) → IsFit (list (plains_of ws))
        → p.inputs ≡ inputs_text vs → q.inputs ≡ inputs_text ws → job_text p ≡ job_text q → SameInstance p q vs ws }
{}
