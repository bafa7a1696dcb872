//! `Asked`: what a command line asks for.

use nf_command::Command;
use nf_order::Accepted;
use nf_value::{Bytes, Pairs, Txt};

/// What a command line asks for, once its script is read (own).
#[derive(Drop)]
pub enum Asked {
    /// Of `fmt` the script's canonical text, of `check` the line `accepted`: this text is written.
    Write(Bytes),
    /// Of `run` and `gen`: this script is run.
    Run(AskedRun),
}

/// A script that is run (own).
#[derive(Drop)]
pub struct AskedRun {
    /// The command that runs it.
    pub command: Command,
    /// The script.
    pub script: Accepted,
    /// Its parameters that are set from outside: those of the command line and of the parameter file.
    pub params: Pairs,
    /// The folder of its file, `.` for a script without a folder.
    pub folder: Txt,
    /// The work folder.
    pub work: Txt,
    /// Whether tasks are taken from earlier runs where they can be.
    pub resume: bool,
}
