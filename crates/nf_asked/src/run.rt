//! What a command asks for that runs its script.

ghost use Rattle.std.specs.Prelude.{◌≡◌, ◌≤◌, ℕ, List, [], IfErr, IfOk};
ghost use Rattle.std.specs.declared.option.Option.{Option};
ghost use Rattle.nf_ast.specs.Tops.{view_script};
ghost use Rattle.nf_host.specs.Faults.{Rose};
ghost use Rattle.nf_request.specs.Held.{IsAtPath, OnHostFault};
ghost use Rattle.nf_request.specs.Steps.{GivesParams};
ghost use Rattle.nf_request.specs.Wishes.{wish_for};
ghost use Rattle.nf_asked.specs.Answers.{AnswersRun};
ghost use Rattle.nf_asked.specs.Steps.{IsRunOf};

use crate::answer::{Asked, AskedRun};
use crate::folders::{resumes, script_folder, work_folder};
use nf_ast::Script;
use nf_command::Command;
use nf_ends::End;
use nf_host::Host;
use nf_order::Accepted;
use nf_request::{accepted, params_of_run};
use nf_value::{Mem, Pairs};
use std::alloc::Global;

/// A script as a command runs it.
pub(crate) fn run_of<H: Host>(
    alloc: Global,
    host: &mut H,
    command: Command,
    script: Script,
) -> Result<Asked, End>
    ensures later { H.faults host.old ≤ H.faults host.new }
    ensures cause { IfErr result (λ e. OnHostFault e (Rose (H.faults host.old) (H.faults host.new))) }
    ensures files { H.files host.new ≡ H.files host.old }
    ensures no_start { H.started host.new ≡ H.started host.old }
    ensures answers { AnswersRun (H.files host.old) command (view_script script) result }
{
    let params = params_for(alloc, host, &command)?;
    let script = accepted(alloc, script)?;
    let request = asked_run(alloc, command, script, params)?;
    Ok(Asked::Run(request))
}

/// The parameters of a command that are set from outside.
fn params_for<H: Host>(alloc: Global, host: &mut H, command: &Command) -> Result<Pairs, End>
    ensures later { H.faults host.old ≤ H.faults host.new }
    ensures cause { IfErr result (λ e. OnHostFault e (Rose (H.faults host.old) (H.faults host.new))) }
    ensures files { H.files host.new ≡ H.files host.old }
    ensures no_start { H.started host.new ≡ H.started host.old }
    ensures gives { (held : Option (List ℕ)) × IsAtPath (H.files host.old) (wish_for command.now).params_file held
        × GivesParams (wish_for command.now) held result }
{
    match command {
        Command::Run(words) => params_of_run(alloc, host, words),
        Command::Gen { .. } => Ok(no_params(alloc)),
        Command::Fmt { .. } => Ok(no_params(alloc)),
        Command::Check { .. } => Ok(no_params(alloc)),
    }
}

fn no_params(alloc: Global) -> Pairs
    ensures { result ≡ [] }
{
    Pairs::of(Vec::new(alloc))
}

/// A run of an accepted script, as its command says.
fn asked_run(
    alloc: Global,
    command: Command,
    script: Accepted,
    params: Pairs,
) -> Result<AskedRun, Mem>
    ensures { IfOk result (IsRunOf command script params) }
{
    let folder = script_folder(alloc, &command)?;
    let work = work_folder(alloc, &command)?;
    let resume = resumes(&command);
    Ok(AskedRun {
        command,
        script,
        params,
        folder,
        work,
        resume,
    })
}
