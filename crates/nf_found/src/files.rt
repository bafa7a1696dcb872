//! The files at one path.

ghost use Rattle.std.specs.Prelude.{◌≡◌, ◌≤◌, IfErr, IfOk, option_to_list};
ghost use Rattle.nf_host.specs.Faults.{Rose};
ghost use Rattle.nf_host.specs.Told.{Both};
ghost use Rattle.nf_shell.specs.Outputs.{AreStored};
ghost use Rattle.nf_shell.specs.Over.{OkOver};
ghost use Rattle.nf_shell.specs.Places.{KeepsOrStores};
ghost use Rattle.nf_sources.specs.Sources.{IsLongAt, IsOutside, OnHostFailed, OnTooLong, scratch_in};
ghost use Rattle.nf_found.specs.Found.{AreFound, IsApart, IsFileAt, IsLongOf};

use nf_host::Host;
use nf_paths::name_at;
use nf_pattern::is_literal;
use nf_sources::{SourceRefusal, folder_at, literal_file, matching_files};
use nf_value::{FileRef, Mem};
use std::alloc::Global;

/// The files at a path, which may be a pattern, in the order of their names (Nextflow reference documentation, "Channel
/// factories", "fromPath"). Each is copied to the file store of the work folder, unless it stands whole there (own).
pub(crate) fn files_at<H: Host>(
    alloc: Global,
    host: &mut H,
    work: &str,
    path: &str,
) -> Result<Vec<FileRef>, SourceRefusal>
    ensures later { H.faults host.old ≤ H.faults host.new }
    ensures cause { OnHostFailed result (Rose (H.faults host.old) (H.faults host.new)) }
    ensures no_start { H.started host.new ≡ H.started host.old }
    ensures kept { Both (H.files host.old) (H.files host.new) (KeepsOrStores work.now (scratch_in work.now)) }
    ensures content { IsApart work.now path.now → OkOver (H.files host.old) result (λ f v. AreFound f path.now v.items) }
    ensures refused { IsApart work.now path.now → IfErr result (λ e. OnTooLong e (IsLongOf (H.files host.old) path.now)) }
    ensures stored { OkOver (H.files host.new) result (λ g v. AreStored work.now g v.items) }
{
    if is_literal(path) {
        file_at(alloc, host, work, path)
    } else {
        matching_files(alloc, host, work, folder_at(path), name_at(path))
    }
}

/// The file at a path that is no pattern, if it is there.
fn file_at<H: Host>(
    alloc: Global,
    host: &mut H,
    work: &str,
    path: &str,
) -> Result<Vec<FileRef>, SourceRefusal>
    ensures later { H.faults host.old ≤ H.faults host.new }
    ensures cause { OnHostFailed result (Rose (H.faults host.old) (H.faults host.new)) }
    ensures no_start { H.started host.new ≡ H.started host.old }
    ensures kept { Both (H.files host.old) (H.files host.new) (KeepsOrStores work.now (scratch_in work.now)) }
    ensures content { IsOutside work.now path.now → OkOver (H.files host.old) result (λ f v. IsFileAt f path.now v.items) }
    ensures refused { IfErr result (λ e. OnTooLong e (λ p. (p ≡ path.now) × IsLongAt (H.files host.old) p)) }
    ensures stored { OkOver (H.files host.new) result (λ g v. AreStored work.now g v.items) }
{
    let file = literal_file(alloc, host, work, path)?;
    let files = listed(alloc, file)?;
    Ok(files)
}

/// The file as a list, if there is one.
fn listed(alloc: Global, file: Option<FileRef>) -> Result<Vec<FileRef>, Mem>
    ensures { IfOk result (λ v. v.items ≡ option_to_list file) }
{
    let mut files = Vec::new(alloc);
    if let Some(file) = file {
        files.push(file)?;
    }
    Ok(files)
}
