//! What a command with a script's tree asks for.

ghost use Rattle.std.specs.Prelude.{◌≡◌, ◌≤◌, IfErr, IfOk, codes};
ghost use Rattle.nf_ast.specs.Tops.{view_script};
ghost use Rattle.nf_host.specs.Faults.{Rose};
ghost use Rattle.nf_printer.specs.Tops.{canonical};
ghost use Rattle.nf_request.specs.Held.{OnHostFault};
ghost use Rattle.nf_asked.specs.Answers.{AnswersTree};
ghost use Rattle.nf_asked.specs.Steps.{GivesChecked, GivesText};

use crate::answer::Asked;
use crate::run::run_of;
use nf_ast::Script;
use nf_command::Command;
use nf_ends::End;
use nf_host::Host;
use nf_printer::print;
use nf_request::accepted;
use nf_value::{Bytes, Mem};
use std::alloc::Global;

/// What a command with this script asks for.
pub(crate) fn asked_of_script<H: Host>(
    alloc: Global,
    host: &mut H,
    command: Command,
    script: Script,
) -> Result<Asked, End>
    ensures later { H.faults host.old ≤ H.faults host.new }
    ensures cause { IfErr result (λ e. OnHostFault e (Rose (H.faults host.old) (H.faults host.new))) }
    ensures files { H.files host.new ≡ H.files host.old }
    ensures no_start { H.started host.new ≡ H.started host.old }
    ensures answers { AnswersTree (H.files host.old) command (view_script script) result }
{
    match &command {
        Command::Fmt { .. } => formatted(alloc, &script),
        Command::Check { .. } => checked(alloc, script),
        Command::Run(_) => run_of(alloc, host, command, script),
        Command::Gen { .. } => run_of(alloc, host, command, script),
    }
}

/// The canonical text of a script.
fn formatted(alloc: Global, script: &Script) -> Result<Asked, End>
    ensures { GivesText (canonical (view_script script.now)) result }
{
    let text = canonical_text(alloc, script)?;
    Ok(Asked::Write(text))
}

fn canonical_text(alloc: Global, script: &Script) -> Result<Bytes, Mem>
    ensures { IfOk result (λ t. t ≡ canonical (view_script script.now)) }
{
    let text = print(alloc, script)?;
    Ok(Bytes::of(text))
}

/// That a script is accepted, as a line.
fn checked(alloc: Global, script: Script) -> Result<Asked, End>
    ensures { GivesChecked (view_script script) result }
{
    let _accepted = accepted(alloc, script)?;
    let line = accepted_line(alloc)?;
    Ok(Asked::Write(line))
}

fn accepted_line(alloc: Global) -> Result<Bytes, Mem>
    ensures { IfOk result (λ t. t ≡ codes "accepted\n") }
{
    let line = Vec::from_slice(alloc, b"accepted\n")?;
    Ok(Bytes::of(line))
}
