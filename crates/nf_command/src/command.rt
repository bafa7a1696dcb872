//! `Command`: what a command line asks for.

use nf_value::{Pairs, Txt};

/// What a command line asks for (own; Nextflow documentation, "Command line", has `run`).
pub enum Command {
    /// `run FILE`, with options and parameters: run the script in that file.
    Run(RunWords),
    /// `fmt FILE`: write the canonical text of the script in that file.
    Fmt {
        /// The path as it was given. It doesn't begin with `-`; it may be empty.
        file: Txt,
    },
    /// `check FILE`: tell whether the script in that file is accepted.
    Check {
        /// The path as it was given. It doesn't begin with `-`; it may be empty.
        file: Txt,
    },
    /// `gen N START`: run a script that is made from two numbers.
    Gen {
        /// How many items the script has, from 1 to 10,000.
        n: u32,
        /// The number from which they are made.
        start: u64,
    },
}

impl Drop for Command {
    fn drop(self) {
        match self {
            Command::Run(_)
            | Command::Fmt { file: _ }
            | Command::Check { file: _ }
            | Command::Gen { n: _, start: _ } => {}
        }
    }
}

/// The words of `run` (Nextflow documentation, "Command line", `run`; own for `-with-trace`, which always takes a file's name).
pub struct RunWords {
    /// The path of the script as it was given. It doesn't begin with `-`; it may be empty.
    pub file: Txt,
    /// `-resume`: tasks are taken from earlier runs where they can be.
    pub resume: bool,
    /// `-work-dir` or `-w`: the work directory; `work` if there is no such option.
    pub work: Txt,
    /// `-params-file`: a file of parameters.
    pub params_file: Option<Txt>,
    /// `-with-trace`: where the trace is written.
    pub trace: Option<Txt>,
    /// `-queue-size` or `-qs`: how many tasks run at once, from 1 to 16; 4 if there is no such option.
    pub queue: u32,
    /// `--NAME`: parameters, by their names.
    pub params: Pairs,
}

impl Drop for RunWords {
    fn drop(self) {
        let RunWords {
            file: _,
            resume: _,
            work: _,
            params_file: _,
            trace: _,
            queue: _,
            params: _,
        } = self;
    }
}
