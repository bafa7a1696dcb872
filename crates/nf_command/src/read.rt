//! `read_words`: the command of a command line.

ghost use Rattle.std.specs.Prelude.{◌≡◌, map, string_bytes};
ghost use Rattle.nf_command.specs.Commands.{command_of, run_words_of, file_of, gen_of, start_of, Reads};
ghost use Rattle.nf_command.specs.Run.{nothing, with_words};

use crate::command::{Command, RunWords};
use crate::fault::UsageFault;
use crate::numbers::number_within;
use crate::run::Said;
use crate::values::{copied, is_dashed};
use nf_value::Txt;
use std::alloc::Global;

/// Reads a command line: `run` with options, parameters and one FILE in any order; `fmt FILE`; `check FILE`; or `gen N START`. Words are
/// judged from left to right, and missing ones last, so there is one first wrong word (own; Nextflow documentation, "Command line").
///
/// Of `run`, `-resume` takes no value; `-work-dir` or `-w`, `-params-file`, `-with-trace`, and `-queue-size` or `-qs` take the next
/// word, whatever it is. `--NAME=VALUE` sets a parameter, and so does `--NAME` with the word after it, unless that begins with `-` and no
/// digit follows; without a value the parameter is true. `true` and `false` are truth values, a number of 64 signed bits is a number, and
/// any other value is text. A name has letters, digits and `_`, and doesn't begin with a digit.
///
/// # Errors
///
/// - `NoCommand`: there are no words.
/// - `UnknownWord`: the word is no command; is past those that the command takes; or is of `run`, begins with `-` and is no option or
///   parameter, or is a second FILE.
/// - `Twice`: the word is an option or names a parameter that was given before.
/// - `BadNumber`: the queue size is no decimal number from 1 to 16, N is none from 1 to 10,000, or START is none of 64 bits.
/// - `NoValue`: a value, FILE, N or START is missing.
/// - `Mem`: there is no memory for the words.
#[tactic(auto, unfolding(crate::specs::Commands::command_of))]
pub fn read_words(alloc: Global, words: &[String]) -> Result<Command, UsageFault>
    ensures { Reads (command_of (map string_bytes words.now)) result }
{
    let Some((command, rest)) = words.split_first() else {
        return Err(UsageFault::NoCommand);
    };
    match command.as_str() {
        "run" => Ok(Command::Run(run(alloc, rest)?)),
        "fmt" => {
            let file = one_file(alloc, rest)?;
            Ok(Command::Fmt { file })
        }
        "check" => {
            let file = one_file(alloc, rest)?;
            Ok(Command::Check { file })
        }
        "gen" => two_numbers(rest),
        _ => Err(UsageFault::UnknownWord { at: 0 }),
    }
}

/// What the words after `run` say.
fn run(alloc: Global, words: &[String]) -> Result<RunWords, UsageFault>
    ensures { Reads (run_words_of (map string_bytes words.now)) result }
{
    let said = all_said(alloc, words)?;
    said.ended(alloc, words.len() + 1)
}

fn all_said(alloc: Global, words: &[String]) -> Result<Said, UsageFault>
    ensures { Reads (with_words 1 (map string_bytes words.now) nothing) result }
{
    let mut said = Said::nothing(alloc);
    for (i, word) in words.iter().enumerate() {
        said = said.with_word(alloc, i + 1, word.as_str())?;
    }
    Ok(said)
}

/// The FILE in the words after a command.
fn one_file(alloc: Global, words: &[String]) -> Result<Txt, UsageFault>
    ensures { Reads (file_of (map string_bytes words.now)) result }
{
    let Some((file, rest)) = words.split_first() else {
        return Err(UsageFault::NoValue { at: 1 });
    };
    if is_dashed(file.as_str()) {
        return Err(UsageFault::UnknownWord { at: 1 });
    }
    if rest.split_first().is_some() {
        return Err(UsageFault::UnknownWord { at: 2 });
    }
    Ok(copied(alloc, file.as_str())?)
}

/// N and START in the words after `gen`.
fn two_numbers(words: &[String]) -> Result<Command, UsageFault>
    ensures { Reads (gen_of (map string_bytes words.now)) result }
{
    let Some((n, rest)) = words.split_first() else {
        return Err(UsageFault::NoValue { at: 1 });
    };
    let Some(n) = number_within(1, 10_000, n.as_str()) else {
        return Err(UsageFault::BadNumber { at: 1 });
    };
    let start = start(rest)?;
    Ok(Command::Gen { n: n as u32, start })
}

/// START in the words after N.
fn start(words: &[String]) -> Result<u64, UsageFault>
    ensures { Reads (start_of (map string_bytes words.now)) result }
{
    let Some((start, rest)) = words.split_first() else {
        return Err(UsageFault::NoValue { at: 2 });
    };
    let Some(start) = number_within(0, u64::MAX, start.as_str()) else {
        return Err(UsageFault::BadNumber { at: 2 });
    };
    if rest.split_first().is_some() {
        return Err(UsageFault::UnknownWord { at: 3 });
    }
    Ok(start)
}
