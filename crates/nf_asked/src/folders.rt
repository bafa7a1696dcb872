//! The folders of a run.

ghost use Rattle.std.specs.Prelude.{◌≡◌, IfOk};
ghost use Rattle.nf_request.specs.Wishes.{wish_for};
ghost use Rattle.nf_asked.specs.Request.{folder_of, or_here};
ghost use Rattle.nf_sources.specs.Sources.{folder_at as folder_at_of};

use nf_command::Command;
use nf_sources::folder_at;
use nf_value::{Mem, Txt};
use std::alloc::Global;

/// The folder of a command's script.
pub(crate) fn script_folder(alloc: Global, command: &Command) -> Result<Txt, Mem>
    ensures { IfOk result (λ f. f ≡ folder_of command.now) }
{
    match command {
        Command::Run(words) => file_folder(alloc, words.file.as_str()),
        Command::Gen { .. } | Command::Fmt { .. } | Command::Check { .. } => txt(alloc, "."),
    }
}

/// The folder of a path, `.` for a path without one.
fn file_folder(alloc: Global, path: &str) -> Result<Txt, Mem>
    ensures { IfOk result (λ f. f ≡ or_here (folder_at_of path.now)) }
{
    let folder = folder_at(path);
    if folder.is_empty() {
        txt(alloc, ".")
    } else {
        txt(alloc, folder)
    }
}

/// The work folder of a command.
pub(crate) fn work_folder(alloc: Global, command: &Command) -> Result<Txt, Mem>
    ensures { IfOk result (λ f. f ≡ (wish_for command.now).work) }
{
    match command {
        Command::Run(words) => words.work.copy(),
        Command::Gen { .. } | Command::Fmt { .. } | Command::Check { .. } => txt(alloc, "work"),
    }
}

/// Whether a command takes tasks from earlier runs.
pub(crate) fn resumes(command: &Command) -> bool
    ensures { result ≡ (wish_for command.now).resume }
{
    match command {
        Command::Run(words) => words.resume,
        Command::Gen { .. } | Command::Fmt { .. } | Command::Check { .. } => false,
    }
}

fn txt(alloc: Global, text: &str) -> Result<Txt, Mem>
    ensures { IfOk result (λ t. t ≡ text.now) }
{
    Ok(Txt::of(String::from_str(alloc, text)?))
}
