//! From the words of a command line to what it asks for.

ghost use Rattle.std.specs.Prelude.{◌≡◌, ◌≤◌, IfErr, map, string_bytes};
ghost use Rattle.nf_host.specs.Faults.{Rose};
ghost use Rattle.nf_request.specs.Held.{OnHostFault};
ghost use Rattle.nf_asked.specs.CommandLine.{CommandLine, IsOver};
ghost use Rattle.nf_asked.specs.Request.{Comes};
ghost use Rattle.nf_asked.specs.Answers.{Answers, AnswersFor};

use crate::answer::Asked;
use crate::tree::asked_of_script;
use nf_command::Command;
use nf_ends::End;
use nf_host::Host;
use nf_request::{command_of_words, script_of_text, script_text};
use std::alloc::Global;

/// What a command line asks for, without the program's name (own; Nextflow documentation, "Command line"). Its words
/// are read, its script, the parameter file of a run; then the rules of order are checked. The host is only read, and
/// starts no child.
///
/// # Errors
///
/// The first refusal in the order of this work, and exactly if there is one, over a host that reveals its files:
/// `Usage`, `NoScript`, `Lex`, `Parse`; of a run `NoFile`, `FileTooLong` and `BadParams` for its parameter
/// file; of a run and of `check` `Order`. `HostFault` if the host failed, which it counted; `Mem` if there is no
/// memory.
pub fn asked<H: Host>(alloc: Global, words: &[String], host: &mut H) -> Result<Asked, End>
    ensures later { H.faults host.old ≤ H.faults host.new }
    ensures cause { IfErr result (λ e. OnHostFault e (Rose (H.faults host.old) (H.faults host.new))) }
    ensures files { H.files host.new ≡ H.files host.old }
    ensures no_start { H.started host.new ≡ H.started host.old }
    ensures answers { (x : CommandLine) × IsOver (map string_bytes words.now) (H.files host.old) x
        × Answers (Comes x) result }
{
    let command = command_of_words(alloc, words)?;
    asked_of(alloc, host, command)
}

/// What a command asks for.
fn asked_of<H: Host>(alloc: Global, host: &mut H, command: Command) -> Result<Asked, End>
    ensures later { H.faults host.old ≤ H.faults host.new }
    ensures cause { IfErr result (λ e. OnHostFault e (Rose (H.faults host.old) (H.faults host.new))) }
    ensures files { H.files host.new ≡ H.files host.old }
    ensures no_start { H.started host.new ≡ H.started host.old }
    ensures answers { AnswersFor (H.files host.old) command result }
{
    let text = script_text(alloc, host, &command)?;
    let script = script_of_text(alloc, text.items())?;
    asked_of_script(alloc, host, command, script)
}
