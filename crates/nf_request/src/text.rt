//! The text of a command's script.

ghost use Rattle.std.specs.Prelude.{◌≡◌, ◌≤◌, ℕ, List, IfErr, IfOk, Some};
ghost use Rattle.std.specs.declared.option.Option.{Option};
ghost use Rattle.nf_gen.specs.Script.{script};
ghost use Rattle.nf_host.specs.Faults.{Rose};
ghost use Rattle.nf_ends.specs.declared.end.End.TheVariants as end;
ghost use Rattle.nf_request.specs.Held.{IsAt, IsAtPath, OnHostFault};
ghost use Rattle.nf_request.specs.Steps.{GivesText};
ghost use Rattle.nf_request.specs.Words.{script_path, text_for};

use nf_command::Command;
use nf_ends::End;
use nf_gen::generated_script;
use nf_host::{Host, Whole, read_whole};
use nf_lexer::LexFault;
use nf_value::{Bytes, Mem};
use std::alloc::Global;

/// The longest script that is read, in bytes (own).
pub const SCRIPT_LIMIT: u64 = 1_048_576;

/// The text of a command's script: the bytes of its file, or what `gen` makes of its numbers (own). The host is only read.
///
/// # Errors
///
/// `NoScript` if there is no file, and `Lex` with `ScriptTooLong` if it has more than 1,048,576 bytes: exactly then, if the host reveals
/// its files. `HostFault` if the host failed, which it counted; `Mem` if there is no memory.
pub fn script_text<H: Host>(alloc: Global, host: &mut H, command: &Command) -> Result<Bytes, End>
    ensures later { H.faults host.old ≤ H.faults host.new }
    ensures cause { IfErr result (λ e. OnHostFault e (Rose (H.faults host.old) (H.faults host.new))) }
    ensures files { H.files host.new ≡ H.files host.old }
    ensures no_start { H.started host.new ≡ H.started host.old }
    ensures gives { (held : Option (List ℕ)) × IsAtPath (H.files host.old) (script_path command.now) held
        × GivesText (text_for command.now held) result }
{
    match command {
        Command::Run(run) => text_of_file(alloc, host, run.file.as_str()),
        Command::Fmt { file } | Command::Check { file } => {
            text_of_file(alloc, host, file.as_str())
        }
        Command::Gen { n, start } => text_of_numbers(alloc, *n, *start),
    }
}

/// The bytes of the script at a path.
fn text_of_file<H: Host>(alloc: Global, host: &mut H, path: &str) -> Result<Bytes, End>
    ensures later { H.faults host.old ≤ H.faults host.new }
    ensures cause { IfErr result (λ e. OnHostFault e (Rose (H.faults host.old) (H.faults host.new))) }
    ensures files { H.files host.new ≡ H.files host.old }
    ensures no_start { H.started host.new ≡ H.started host.old }
    ensures gives { (held : Option (List ℕ)) × IsAt (H.files host.old) path.now held × GivesText held result }
{
    let read = read_whole(alloc, host, path, SCRIPT_LIMIT)?;
    match read {
        Whole::Absent => Err(End::NoScript),
        Whole::TooLong => Err(End::Lex(LexFault::ScriptTooLong)),
        Whole::Bytes(text) => Ok(text),
    }
}

/// The text of the script that `gen` makes.
fn text_of_numbers(alloc: Global, n: u32, start: u64) -> Result<Bytes, End>
    ensures gives { GivesText (Some (script n start)) result }
    ensures memory { IfErr result (λ e. e ≡ end.Mem) }
{
    let text = generated_text(alloc, n, start)?;
    Ok(text)
}

fn generated_text(alloc: Global, n: u32, start: u64) -> Result<Bytes, Mem>
    ensures { IfOk result (λ t. t ≡ script n start) }
{
    let text = generated_script(alloc, n, start)?;
    Ok(Bytes::of(Vec::from_slice(alloc, text.as_str().as_bytes())?))
}
