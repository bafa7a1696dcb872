//! The folder of a job before its child starts.

ghost use Rattle.std.specs.Prelude.{◌≡◌, ◌≤◌, ◌++◌, [], ◌∷◌, IfOk, IfSome, OnOk, codes, option_map};
ghost use Rattle.nf_host.specs.Faults.{Rose, OnFailed};
ghost use Rattle.nf_host.specs.Files.{KeepsOthers, put};
ghost use Rattle.nf_host.specs.Folders.{KeepsOutside, folder_of, path_in};
ghost use Rattle.nf_host.specs.Told.{Both};
ghost use Rattle.nf_shell.specs.Damages.{IsDamageAmong, IsDamageOf};
ghost use Rattle.nf_shell.specs.Folder.{EndsWith, HasDigest, IsReadyFor, Readies, stdin_of};
ghost use Rattle.nf_shell.specs.Places.{IsApart};

use crate::damage::Damage;
use crate::store::{has_digest, stored_path};
use nf_host::{FILE_LIMIT, Host, HostRefusal, copy_file, path_in, write_file};
use nf_job::JobParts;
use nf_value::{FileRef, Txt};
use std::alloc::Global;

// Clears a job's folder, and puts its script, its standard input and its staged files there. Gives the first damage.
pub(crate) fn prepare<H: Host>(
    alloc: Global,
    host: &mut H,
    work: &str,
    dir: &str,
    parts: &JobParts,
) -> Result<Option<Damage>, HostRefusal>
    requires { IsApart work.now dir.now }
    ensures later { H.faults host.old ≤ H.faults host.new }
    ensures cause { OnFailed result (Rose (H.faults host.old) (H.faults host.new)) }
    ensures no_start { H.started host.new ≡ H.started host.old }
    ensures others { Both (H.files host.old) (H.files host.new) (KeepsOutside dir.now) }
    ensures damaged { IfOk result (λ o. IfSome o (IsDamageAmong parts.now.staged)) }
    ensures ends { IfSome (H.files host.new) (λ g.
        EndsWith work.now g result (IsReadyFor parts.now (folder_of g dir.now))) }
{
    host.clear_dir(alloc, dir)?;
    host.make_dir(dir)?;
    write_script(alloc, host, dir, &parts.script)?;
    let stdin = stdin_text(&parts.stdin);
    write_in(alloc, host, dir, ".command.in", stdin.as_bytes())?;
    stage_all(alloc, host, work, dir, parts.staged.items())
}

fn stdin_text(stdin: &Option<Txt>) -> &str
    ensures { result.now ≡ stdin_of stdin.now }
{
    match stdin {
        Some(text) => text.as_str(),
        None => "",
    }
}

fn write_script<H: Host>(
    alloc: Global,
    host: &mut H,
    dir: &str,
    script: &Txt,
) -> Result<(), HostRefusal>
    ensures later { H.faults host.old ≤ H.faults host.new }
    ensures cause { OnFailed result (Rose (H.faults host.old) (H.faults host.new)) }
    ensures no_start { H.started host.new ≡ H.started host.old }
    ensures others { Both (H.files host.old) (H.files host.new) (KeepsOthers (path_in dir.now (codes ".command.sh"))) }
    ensures written { OnOk result (H.files host.new ≡
        option_map (λ f. put f (path_in dir.now (codes ".command.sh")) (script.now ++ 10 ∷ [])) (H.files host.old)) }
{
    let mut text = String::from_str(alloc, script.as_str())?;
    text.push_str("\n")?;
    write_in(alloc, host, dir, ".command.sh", text.as_bytes())
}

// Writes a file of the folder anew.
pub(crate) fn write_in<H: Host>(
    alloc: Global,
    host: &mut H,
    dir: &str,
    name: &str,
    bytes: &[u8],
) -> Result<(), HostRefusal>
    ensures later { H.faults host.old ≤ H.faults host.new }
    ensures cause { OnFailed result (Rose (H.faults host.old) (H.faults host.new)) }
    ensures no_start { H.started host.new ≡ H.started host.old }
    ensures others { Both (H.files host.old) (H.files host.new) (KeepsOthers (path_in dir.now name.now)) }
    ensures written { OnOk result (H.files host.new ≡
        option_map (λ f. put f (path_in dir.now name.now) bytes.now) (H.files host.old)) }
{
    let path = path_in(alloc, dir, name)?;
    write_file(alloc, host, path.as_str(), bytes)
}

// Copies these files from the store into the folder. Gives the first damage.
fn stage_all<H: Host>(
    alloc: Global,
    host: &mut H,
    work: &str,
    dir: &str,
    files: &[FileRef],
) -> Result<Option<Damage>, HostRefusal>
    requires { IsApart work.now dir.now }
    ensures later { H.faults host.old ≤ H.faults host.new }
    ensures cause { OnFailed result (Rose (H.faults host.old) (H.faults host.new)) }
    ensures no_start { H.started host.new ≡ H.started host.old }
    ensures others { Both (H.files host.old) (H.files host.new) (KeepsOutside dir.now) }
    ensures damaged { IfOk result (λ o. IfSome o (IsDamageAmong files.now)) }
    ensures ends { Both (H.files host.old) (H.files host.new) (λ f g.
        EndsWith work.now g result (Readies dir.now files.now f g)) }
{
    for file in files {
        if let Some(damage) = stage(alloc, host, work, dir, file)? {
            return Ok(Some(damage));
        }
    }
    Ok(None)
}

// Copies a file from the store into the folder, and checks its digest while copying.
fn stage<H: Host>(
    alloc: Global,
    host: &mut H,
    work: &str,
    dir: &str,
    file: &FileRef,
) -> Result<Option<Damage>, HostRefusal>
    requires { IsApart work.now dir.now }
    ensures later { H.faults host.old ≤ H.faults host.new }
    ensures cause { OnFailed result (Rose (H.faults host.old) (H.faults host.new)) }
    ensures no_start { H.started host.new ≡ H.started host.old }
    ensures others { Both (H.files host.old) (H.files host.new) (KeepsOthers (path_in dir.now file.now.name)) }
    ensures damaged { IfOk result (λ o. IfSome o (IsDamageOf file.now)) }
    ensures ends { IfSome (H.files host.new) (λ g.
        EndsWith work.now g result (HasDigest (g (path_in dir.now file.now.name)) file.now.digest.0)) }
{
    let from = stored_path(alloc, work, &file.digest)?;
    let to = path_in(alloc, dir, file.name.as_str())?;
    let found = copy_file(alloc, host, from.as_str(), to.as_str(), FILE_LIMIT)?;
    if has_digest(found, &file.digest) {
        return Ok(None);
    }
    Ok(Some(Damage::of(file, found)?))
}
