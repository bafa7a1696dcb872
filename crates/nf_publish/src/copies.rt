//! `copy_out`: copies published files from the file store to their targets.

ghost use Rattle.std.specs.Prelude.{◌≡◌, ◌≤◌, IfSome, IfOk, IfErr, OnOk, true};
ghost use Rattle.nf_host.specs.Copies.{IsCopied, IsDigested};
ghost use Rattle.nf_host.specs.Faults.{OnFailed, Rose};
ghost use Rattle.nf_host.specs.Files.{KeepsOthers};
ghost use Rattle.nf_host.specs.Told.{Both};
ghost use Rattle.nf_publish.specs.Copies.{AreCopied, IsDamage, IsTrueOf, KeepsRest, OnHostFailed};
ghost use Rattle.nf_shell.specs.Folder.{HasDigest};
ghost use Rattle.nf_publish.specs.Copying.{Checks, IsOneDamage};

use crate::fault::CopyRefusal;
use nf_host::{Digested, FILE_LIMIT, Host, HostRefusal, copy_file, digest_file};
use nf_shell::{found_digest, has_digest, stored_path};
use nf_tasks::Target;
use nf_value::{Digest, Mem};
use std::alloc::Global;

/// Copies the content of each target from the file store of the work folder, in their order, and makes the folders that
/// are missing (Nextflow reference documentation, "Process", "publishDir"; that it always copies is own). A copy is
/// checked while it is made. Of several contents for one target the last stays.
///
/// If the host reveals its files and no target has two contents, each target then holds exactly the bytes that are
/// published there, and all other files are as they were. After an error some targets may be copied, and that of a
/// damaged file may hold what was read.
///
/// # Errors
///
/// `Host` if the host failed in this call, which it counted, or if there is no memory. `Damaged` only if the stored
/// file of the digest, as it was read in this call, isn't there, is longer than a file may be, or has another digest.
pub fn copy_out<H: Host>(
    alloc: Global,
    host: &mut H,
    work: &str,
    targets: &[Target],
) -> Result<(), CopyRefusal>
    ensures later { H.faults host.old ≤ H.faults host.new }
    ensures cause { OnHostFailed result (Rose (H.faults host.old) (H.faults host.new)) }
    ensures no_start { H.started host.new ≡ H.started host.old }
    ensures others { Both (H.files host.old) (H.files host.new) (KeepsRest targets.now) }
    ensures copied { IfSome (H.files host.new) (λ g. OnOk result (AreCopied targets.now g)) }
    ensures refused { IfErr result (IsTrueOf work.now targets.now (H.files host.new)) }
{
    for target in targets {
        copy_one(alloc, host, work, target)?;
    }
    Ok(())
}

fn copy_one<H: Host>(
    alloc: Global,
    host: &mut H,
    work: &str,
    target: &Target,
) -> Result<(), CopyRefusal>
    ensures later { H.faults host.old ≤ H.faults host.new }
    ensures cause { OnHostFailed result (Rose (H.faults host.old) (H.faults host.new)) }
    ensures no_start { H.started host.new ≡ H.started host.old }
    ensures others { Both (H.files host.old) (H.files host.new) (KeepsOthers target.now.name) }
    ensures copied { IfSome (H.files host.new)
        (λ g. OnOk result (HasDigest (g target.now.name) target.now.digest.0)) }
    ensures refused { IfErr result (IsOneDamage work.now target.now (H.files host.new)) }
{
    let from = stored_path(alloc, work, &target.digest)?;
    let found = copy_between(alloc, host, from.as_str(), target.name.as_str())?;
    checked(found, &target.digest)
}

/// Copies a whole file to another path, and makes the folder of that path. A file whose path is the same is only read.
fn copy_between<H: Host>(
    alloc: Global,
    host: &mut H,
    from: &str,
    to: &str,
) -> Result<Digested, HostRefusal>
    ensures later { H.faults host.old ≤ H.faults host.new }
    ensures cause { OnFailed result (Rose (H.faults host.old) (H.faults host.new)) }
    ensures no_start { H.started host.new ≡ H.started host.old }
    ensures others { Both (H.files host.old) (H.files host.new) (KeepsOthers to.now) }
    ensures content { IfSome (H.files host.new) (λ g. IfOk result (IsDigested FILE_LIMIT (g from.now))) }
    ensures copied { IfSome (H.files host.new) (λ g. IfOk result (IsCopied (g from.now) (g to.now))) }
{
    if from == to {
        return digest_file(alloc, host, from, FILE_LIMIT);
    }
    make_parent(host, to)?;
    copy_file(alloc, host, from, to, FILE_LIMIT)
}

/// Makes the folder of a path, and those around it that are missing (own). A path without a folder needs none.
///
/// # Errors
///
/// `Failed` if the host failed in this call; it counted that. `Mem` if there is no memory for it.
pub fn make_parent<H: Host>(host: &mut H, path: &str) -> Result<(), HostRefusal>
    ensures later { H.faults host.old ≤ H.faults host.new }
    ensures cause { OnFailed result (Rose (H.faults host.old) (H.faults host.new)) }
    ensures same { H.files host.new ≡ H.files host.old }
    ensures no_start { H.started host.new ≡ H.started host.old }
{
    match path.rsplit_once('/') {
        Some((folder, _)) if !folder.is_empty() => host.make_dir(folder),
        _ => Ok(()),
    }
}

/// Whether what was copied is what is due.
fn checked(found: Digested, due: &Digest) -> Result<(), CopyRefusal>
    ensures { Checks found due.now result }
{
    if has_digest(found, due) {
        return Ok(());
    }
    let due = *due;
    let found = found_digest(found);
    Err(CopyRefusal::Damaged { due, found })
}
