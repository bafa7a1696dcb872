//! The files of a folder that match a pattern.

ghost use Rattle.std.specs.Prelude.{◌≡◌, ◌≤◌, ◌++◌, All, false, true, IfErr, IfOk, IfSome, IsTrue, OnOk, option_to_list};
ghost use Rattle.nf_host.specs.Faults.{OnFailed, Rose};
ghost use Rattle.nf_host.specs.Folders.{IsListing, path_in as path_in_of};
ghost use Rattle.nf_host.specs.Told.{Both};
ghost use Rattle.nf_shell.specs.Outputs.{AreStored};
ghost use Rattle.nf_shell.specs.Over.{OkOver};
ghost use Rattle.nf_shell.specs.Places.{KeepsOrStores, is_stored};
ghost use Rattle.nf_sources.specs.Sources.{AreFilesOf, AreMatching, IsClear, IsFirstLong, IsLongMatch, IsOutside, OnHostFailed, OnTooLong, file_at, folder_at as folder_at_of, is_long_at, scratch_in};

use crate::fault::SourceRefusal;
use crate::storing::store_source;
use nf_host::{Host, HostRefusal, path_in};
use nf_pattern::glob;
use nf_shell::Stored;
use nf_value::{FileRef, Mem, Txt};
use std::alloc::Global;

/// The folder that a path leads to: what stands before its last slash, and the folder that the program runs in for a
/// path without one. Takes no memory.
pub fn folder_at(path: &str) -> &str
    ensures { result.now ≡ folder_at_of path.now }
{
    match path.rsplit_once('/') {
        None => "",
        Some((front, _)) => { if front.is_empty() { "/" } else { front } }
    }
}

/// The files of a folder that match a pattern, in the order of their names (Nextflow reference documentation,
/// "Channel factories", "fromPath"). Each is read whole, and copied to the file store of the work folder unless it
/// stands whole there (own).
///
/// If the host reveals its files and the folder isn't in the file store, these are exactly the folder's own files
/// that match, with the digests and lengths of their bytes. Only the file store is written.
///
/// # Errors
///
/// `FileTooLong` if such a file has more than 1,099,511,627,775 bytes, with the path of the first. `Host` if the host
/// failed in this call, which it counted, or if there is no memory.
pub fn matching_files<H: Host>(
    alloc: Global,
    host: &mut H,
    work: &str,
    folder: &str,
    pattern: &str,
) -> Result<Vec<FileRef>, SourceRefusal>
    ensures later { H.faults host.old ≤ H.faults host.new }
    ensures cause { OnHostFailed result (Rose (H.faults host.old) (H.faults host.new)) }
    ensures no_start { H.started host.new ≡ H.started host.old }
    ensures kept { Both (H.files host.old) (H.files host.new) (KeepsOrStores work.now (scratch_in work.now)) }
    ensures content { IsClear work.now folder.now → OkOver (H.files host.old) result (λ f v.
        AreMatching f folder.now pattern.now v.items) }
    ensures refused { IsClear work.now folder.now → IfErr result (λ e. OnTooLong e (λ path.
        IfSome (H.files host.old) (λ f. IsLongMatch f folder.now pattern.now path))) }
    ensures stored { OkOver (H.files host.new) result (λ g v. AreStored work.now g v.items) }
{
    let names = names_in(alloc, host, folder)?;
    files_among(alloc, host, work, folder, pattern, &names)
}

/// The names of a folder's own files. A folder that isn't there has none.
fn names_in<H: Host>(alloc: Global, host: &mut H, folder: &str) -> Result<Vec<Txt>, HostRefusal>
    ensures later { H.faults host.old ≤ H.faults host.new }
    ensures cause { OnFailed result (Rose (H.faults host.old) (H.faults host.new)) }
    ensures no_start { H.started host.new ≡ H.started host.old }
    ensures same { H.files host.new ≡ H.files host.old }
    ensures content { OkOver (H.files host.old) result (λ f v. IsListing f folder.now v.items) }
{
    match host.list(alloc, folder)? {
        Some(names) => Ok(names),
        None => Ok(Vec::new(alloc)),
    }
}

/// The files of these names that match the pattern.
fn files_among<H: Host>(
    alloc: Global,
    host: &mut H,
    work: &str,
    folder: &str,
    pattern: &str,
    names: &[Txt],
) -> Result<Vec<FileRef>, SourceRefusal>
    ensures later { H.faults host.old ≤ H.faults host.new }
    ensures cause { OnHostFailed result (Rose (H.faults host.old) (H.faults host.new)) }
    ensures no_start { H.started host.new ≡ H.started host.old }
    ensures kept { Both (H.files host.old) (H.files host.new) (KeepsOrStores work.now (scratch_in work.now)) }
    ensures content { All (λ n. IsOutside work.now (path_in_of folder.now n)) names.now → OkOver (H.files host.old) result (λ f v.
        AreFilesOf f folder.now pattern.now names.now v.items) }
    ensures refused { All (λ n. IsOutside work.now (path_in_of folder.now n)) names.now → IfErr result (λ e. OnTooLong e (λ path.
        IfSome (H.files host.old) (λ f. IsFirstLong f folder.now pattern.now names.now path))) }
    ensures stored { OkOver (H.files host.new) result (λ g v. AreStored work.now g v.items) }
{
    let mut files = Vec::new(alloc);
    for name in names {
        let file = file_of(alloc, host, work, folder, pattern, name)?;
        push_found(&mut files, file)?;
    }
    Ok(files)
}

fn push_found(files: &mut Vec<FileRef>, file: Option<FileRef>) -> Result<(), Mem>
    ensures { OnOk result (files.new.items ≡ files.old.items ++ option_to_list file) }
{
    if let Some(file) = file {
        files.push(file)?;
    }
    Ok(())
}

/// The file of this name, if it matches the pattern. It is stored.
fn file_of<H: Host>(
    alloc: Global,
    host: &mut H,
    work: &str,
    folder: &str,
    pattern: &str,
    name: &Txt,
) -> Result<Option<FileRef>, SourceRefusal>
    ensures later { H.faults host.old ≤ H.faults host.new }
    ensures cause { OnHostFailed result (Rose (H.faults host.old) (H.faults host.new)) }
    ensures no_start { H.started host.new ≡ H.started host.old }
    ensures kept { Both (H.files host.old) (H.files host.new) (KeepsOrStores work.now (scratch_in work.now)) }
    ensures content { IsOutside work.now (path_in_of folder.now name.now) → OkOver (H.files host.old) result (λ f o.
        (o ≡ file_at f folder.now pattern.now name.now)
        × (is_long_at f folder.now pattern.now name.now ≡ false)) }
    ensures refused { IfErr result (λ e. OnTooLong e (λ path. (path ≡ path_in_of folder.now name.now)
        × IfSome (H.files host.old) (λ f. is_long_at f folder.now pattern.now name.now ≡ true))) }
    ensures stored { OkOver (H.files host.new) result (λ g o.
        IfSome o (λ r. IsTrue (is_stored g work.now r.digest.0))) }
{
    if !glob(pattern, name.as_str()) {
        return Ok(None);
    }
    let path = path_in(alloc, folder, name.as_str())?;
    let stored = store_source(alloc, host, work, path.as_str())?;
    match stored {
        Some(stored) => Ok(Some(ref_of(name, stored)?)),
        None => Ok(None),
    }
}

/// A stored file by its name.
fn ref_of(name: &Txt, stored: Stored) -> Result<FileRef, Mem>
    ensures { IfOk result (λ r. r ≡ record { name = name.now; digest = stored.digest; len = stored.len }) }
{
    Ok(FileRef {
        name: name.copy()?,
        digest: stored.digest,
        len: stored.len,
    })
}
