//! Jobs, and the texts in them.

ghost use Rattle.std.specs.Prelude.{◌≡◌, IfOk};

use nf_job::{FileRefs, JobParts, Txts};
use nf_value::{Mem, Txt};
use std::alloc::Global;

/// The text as one of a job.
pub fn txt(alloc: Global, text: &str) -> Result<Txt, Mem> {
    Ok(Txt::of(String::from_str(alloc, text)?))
}

/// The parts of the first attempt at a process P with no input.
pub fn job_parts(alloc: Global, script: &str, wants_stdout: bool) -> Result<JobParts, Mem>
    ensures { IfOk result (λ p. p.attempt ≡ 1) }
{
    let process = txt(alloc, "P")?;
    let script = txt(alloc, script)?;
    let inputs = txt(alloc, "l0:")?;
    Ok(JobParts {
        process,
        script,
        inputs,
        stdin: None,
        staged: FileRefs::of(Vec::new(alloc)),
        patterns: Txts::of(Vec::new(alloc)),
        wants_stdout,
        n: 0,
        attempt: 1,
    })
}
