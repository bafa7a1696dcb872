//! `JobParts`: what a job is made of.

ghost use Rattle.std.specs.Prelude.{◌≡◌, IfOk};

use crate::files::FileRefs;
use crate::texts::Txts;
use nf_value::{Mem, Txt};

/// Everything that one attempt at a task depends on (own).
pub struct JobParts {
    /// The path of the process's call, as `MAIN:ALIGN`.
    pub process: Txt,
    /// The text of the script.
    pub script: Txt,
    /// The code of the inputs, as `inputs_code` gives it.
    pub inputs: Txt,
    /// The script's standard input, if it has one.
    pub stdin: Option<Txt>,
    /// The files that are put into its folder, in the order of the inputs.
    pub staged: FileRefs,
    /// The patterns of the files that it must leave, in the order of the outputs.
    pub patterns: Txts,
    /// Whether its standard output is an output.
    pub wants_stdout: bool,
    /// How many tasks of this process with the same inputs came before, from 0.
    pub n: u32,
    /// The attempt, from 1.
    pub attempt: u32,
}

impl Drop for JobParts {
    fn drop(self) {
        let JobParts {
            process: _,
            script: _,
            inputs: _,
            stdin: _,
            staged: _,
            patterns: _,
            wants_stdout: _,
            n: _,
            attempt: _,
        } = self;
    }
}

fn copy_text(text: &Option<Txt>) -> Result<Option<Txt>, Mem>
    ensures { IfOk result (λ t. t ≡ text.now) }
{
    match text {
        None => Ok(None),
        Some(text) => Ok(Some(text.copy()?)),
    }
}

impl JobParts {
    /// A copy of the parts.
    ///
    /// # Errors
    ///
    /// `Mem` if there is no memory for it.
    pub fn copy(&self) -> Result<JobParts, Mem>
        ensures { IfOk result (λ p. p ≡ self.now) }
    {
        let process = self.process.copy()?;
        let script = self.script.copy()?;
        let inputs = self.inputs.copy()?;
        let stdin = copy_text(&self.stdin)?;
        let staged = self.staged.copy()?;
        let patterns = self.patterns.copy()?;
        Ok(JobParts {
            process,
            script,
            inputs,
            stdin,
            staged,
            patterns,
            wants_stdout: self.wants_stdout,
            n: self.n,
            attempt: self.attempt,
        })
    }
}
