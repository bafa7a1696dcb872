//! The command of a command line.

ghost use Rattle.std.specs.Prelude.{map, string_bytes};
ghost use Rattle.nf_request.specs.Steps.{GivesCommand};

use nf_command::{Command, read_words};
use nf_ends::End;
use std::alloc::Global;

/// The command of a command line, without the program's name (own; Nextflow documentation, "Command line").
///
/// # Errors
///
/// `Usage` exactly if a word is wrong, with the first such word. `Mem` if there is no memory for the words.
pub fn command_of_words(alloc: Global, words: &[String]) -> Result<Command, End>
    ensures { GivesCommand (map string_bytes words.now) result }
{
    let command = read_words(alloc, words)?;
    Ok(command)
}
