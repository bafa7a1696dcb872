//! What a child left in its folder: its standard output, and the files of its outputs.

ghost use Rattle.std.specs.Prelude.{◌≡◌, ◌≤◌, ◌++◌, [], All, IfOk, OnOk, IfSome, IsTrue, Some, true, false, length, codes, option_to_list};
ghost use Rattle.nf_host.specs.Faults.{Rose, OnFailed};
ghost use Rattle.nf_host.specs.Folders.{IsListing, folder_of, path_in};
ghost use Rattle.nf_host.specs.Told.{Both};
ghost use Rattle.nf_host.specs.Whole.{IsWhole, IsWithin};
ghost use Rattle.nf_lane.specs.Child.{IsCaptured, IsOutput};
ghost use Rattle.nf_shell.specs.Outputs.{AreFoundIn, AreStored, IsOutputOf, begins_with_dot, file_found, files_found, is_output, is_among, lists_found, ref_of, scratch_in, stored_of};
ghost use Rattle.nf_shell.specs.Over.{OkOver};
ghost use Rattle.nf_shell.specs.Places.{IsApart, KeepsOrStores, is_stored};

use crate::staged::StagedNames;
use crate::store::{Stored, store_file};
use nf_host::{Host, HostRefusal, Whole, path_in, read_whole};
use nf_job::{Captured, FileRefs, Found, JobParts};
use nf_lane::OUTPUT_LIMIT;
use nf_pattern::{glob, is_literal};
use nf_value::{Bytes, FileRef, Mem, Txt};
use std::alloc::Global;

/// Whether a file of a job's folder is an output of a pattern (own; the Nextflow reference documentation has these patterns
/// under "Process", "Output type `path`"). A pattern with `*`, `?` or alternatives matches names as `glob` does, but no
/// staged file's; a literal pattern is the name itself. A name that begins with a dot is never an output. Takes no memory.
#[tactic(auto, using(crate::proofs::Names::beside_staged))]
pub fn is_output(pattern: &str, staged: &[FileRef], name: &str) -> bool
    ensures { result ≡ is_output pattern.now staged.now name.now }
{
    is_seen_match(pattern, name) && (is_literal(pattern) || !is_among(staged, name))
}

// The same over staged files that are found by their names.
#[tactic(auto, using(crate::proofs::Names::beside_staged))]
fn is_output_of(pattern: &str, staged: &StagedNames, name: &str) -> bool
    ensures { result ≡ is_output pattern.now staged.now.files.now name.now }
{
    is_seen_match(pattern, name) && (is_literal(pattern) || !staged.has(name))
}

// The same where no file was staged.
fn is_seen_match(pattern: &str, name: &str) -> bool
    ensures { result ≡ is_output pattern.now [] name.now }
{
    if begins_with_dot(name.as_bytes()) {
        return false;
    }
    if is_literal(pattern) {
        return pattern == name;
    }
    glob(pattern, name)
}

fn begins_with_dot(name: &[u8]) -> bool
    ensures { result ≡ begins_with_dot name.now }
{
    match name {
        [first, ..] => *first == b'.',
        [] => false,
    }
}

#[tactic(auto, using(crate::proofs::Names::at_name, crate::proofs::Names::past_name, crate::proofs::Names::no_name_left))]
fn is_among(files: &[FileRef], name: &str) -> bool
    ensures { result ≡ is_among files.now name.now }
{
    for file in files {
        if file.name.as_str() == name {
            return true;
        }
    }
    false
}

// The standard output of a folder's child, if it is wanted. A file that isn't there counts as empty.
pub(crate) fn captured<H: Host>(
    alloc: Global,
    host: &mut H,
    dir: &str,
    wants_stdout: bool,
) -> Result<Captured, HostRefusal>
    ensures later { H.faults host.old ≤ H.faults host.new }
    ensures cause { OnFailed result (Rose (H.faults host.old) (H.faults host.new)) }
    ensures no_start { H.started host.new ≡ H.started host.old }
    ensures same { H.files host.new ≡ H.files host.old }
    ensures output { IfOk result (IsOutput wants_stdout) }
    ensures content { OkOver (H.files host.old) result (λ f.
        IsOutputOf wants_stdout (f (path_in dir.now (codes ".command.out")))) }
{
    if !wants_stdout {
        return Ok(Captured::None);
    }
    let path = path_in(alloc, dir, ".command.out")?;
    let output = read_whole(alloc, host, path.as_str(), OUTPUT_LIMIT as u64)?;
    Ok(captured_of(alloc, output))
}

fn captured_of(alloc: Global, output: Whole) -> Captured
    requires { IsWithin OUTPUT_LIMIT output }
    ensures output { IsOutput true result }
    ensures content { (file : _) → IsWhole file OUTPUT_LIMIT output → IsOutputOf true file result }
{
    match output {
        Whole::Absent => Captured::Text(Txt::of(String::new(alloc))),
        Whole::TooLong => Captured::Bad,
        Whole::Bytes(bytes) => text_of(bytes),
    }
}

fn text_of(bytes: Bytes) -> Captured
    ensures { IsCaptured (Some bytes) result }
{
    match String::from_utf8(bytes.into_items()) {
        Ok(text) => Captured::Text(Txt::of(text)),
        Err(_) => Captured::Bad,
    }
}

// The files of a job's outputs, a list for each pattern. Each file is stored.
pub(crate) fn found<H: Host>(
    alloc: Global,
    host: &mut H,
    work: &str,
    dir: &str,
    parts: &JobParts,
) -> Result<Found, HostRefusal>
    requires { IsApart work.now dir.now }
    ensures later { H.faults host.old ≤ H.faults host.new }
    ensures cause { OnFailed result (Rose (H.faults host.old) (H.faults host.new)) }
    ensures no_start { H.started host.new ≡ H.started host.old }
    ensures kept { Both (H.files host.old) (H.files host.new) (KeepsOrStores work.now (scratch_in dir.now)) }
    ensures number { IfOk result (λ v. length v ≡ length parts.now.patterns) }
    ensures content { OkOver (H.files host.old) result (λ f. AreFoundIn f dir.now parts.now) }
    ensures stored { OkOver (H.files host.new) result (λ g v. All (AreStored work.now g) v) }
{
    let names = names_in(alloc, host, dir)?;
    found_among(alloc, host, work, dir, parts, &names)
}

// The names of a folder's own files. A folder that isn't there has none.
fn names_in<H: Host>(alloc: Global, host: &mut H, dir: &str) -> Result<Vec<Txt>, HostRefusal>
    ensures later { H.faults host.old ≤ H.faults host.new }
    ensures cause { OnFailed result (Rose (H.faults host.old) (H.faults host.new)) }
    ensures no_start { H.started host.new ≡ H.started host.old }
    ensures same { H.files host.new ≡ H.files host.old }
    ensures content { OkOver (H.files host.old) result (λ f v. IsListing f dir.now v.items) }
{
    match host.list(alloc, dir)? {
        Some(names) => Ok(names),
        None => Ok(Vec::new(alloc)),
    }
}

// The same among the files of these names.
fn found_among<H: Host>(
    alloc: Global,
    host: &mut H,
    work: &str,
    dir: &str,
    parts: &JobParts,
    names: &[Txt],
) -> Result<Found, HostRefusal>
    requires { IsApart work.now dir.now }
    ensures later { H.faults host.old ≤ H.faults host.new }
    ensures cause { OnFailed result (Rose (H.faults host.old) (H.faults host.new)) }
    ensures no_start { H.started host.new ≡ H.started host.old }
    ensures kept { Both (H.files host.old) (H.files host.new) (KeepsOrStores work.now (scratch_in dir.now)) }
    ensures number { IfOk result (λ v. length v ≡ length parts.now.patterns) }
    ensures content { OkOver (H.files host.old) result (λ f v.
        v ≡ lists_found (folder_of f dir.now) parts.now.staged names.now parts.now.patterns) }
    ensures stored { OkOver (H.files host.new) result (λ g v. All (AreStored work.now g) v) }
{
    let staged = StagedNames::of(alloc, parts.staged.items())?;
    let mut lists = Vec::new(alloc);
    for pattern in parts.patterns.items() {
        let pattern = pattern.as_str();
        let files = files_of(alloc, host, work, dir, pattern, &staged, names)?;
        lists.push(FileRefs::of(files))?;
    }
    Ok(Found::of(lists))
}

// The files of a pattern among these names.
fn files_of<H: Host>(
    alloc: Global,
    host: &mut H,
    work: &str,
    dir: &str,
    pattern: &str,
    staged: &StagedNames,
    names: &[Txt],
) -> Result<Vec<FileRef>, HostRefusal>
    requires { IsApart work.now dir.now }
    ensures later { H.faults host.old ≤ H.faults host.new }
    ensures cause { OnFailed result (Rose (H.faults host.old) (H.faults host.new)) }
    ensures no_start { H.started host.new ≡ H.started host.old }
    ensures kept { Both (H.files host.old) (H.files host.new) (KeepsOrStores work.now (scratch_in dir.now)) }
    ensures content { OkOver (H.files host.old) result (λ f v.
        v.items ≡ files_found (folder_of f dir.now) pattern.now staged.now.files.now names.now) }
    ensures stored { OkOver (H.files host.new) result (λ g v. AreStored work.now g v.items) }
{
    let mut files = Vec::new(alloc);
    for name in names {
        let file = output_of(alloc, host, work, dir, pattern, staged, name)?;
        push_found(&mut files, file)?;
    }
    Ok(files)
}

fn push_found(files: &mut Vec<FileRef>, file: Option<FileRef>) -> Result<(), Mem>
    ensures { OnOk result (files.new.items ≡ files.old.items ++ option_to_list file) }
{
    if let Some(file) = file {
        files.push(file)?;
    }
    Ok(())
}

// The file of this name, if it is an output of the pattern. It is stored.
fn output_of<H: Host>(
    alloc: Global,
    host: &mut H,
    work: &str,
    dir: &str,
    pattern: &str,
    staged: &StagedNames,
    name: &Txt,
) -> Result<Option<FileRef>, HostRefusal>
    requires { IsApart work.now dir.now }
    ensures later { H.faults host.old ≤ H.faults host.new }
    ensures cause { OnFailed result (Rose (H.faults host.old) (H.faults host.new)) }
    ensures no_start { H.started host.new ≡ H.started host.old }
    ensures kept { Both (H.files host.old) (H.files host.new) (KeepsOrStores work.now (scratch_in dir.now)) }
    ensures content { OkOver (H.files host.old) result (λ f o.
        o ≡ file_found (folder_of f dir.now) pattern.now staged.now.files.now name.now) }
    ensures stored { OkOver (H.files host.new) result (λ g o.
        IfSome o (λ r. IsTrue (is_stored g work.now r.digest.0))) }
{
    if !is_output_of(pattern, staged, name.as_str()) {
        return Ok(None);
    }
    store_output(alloc, host, work, dir, name)
}

// Stores a file of the folder, unless it is gone or too long.
fn store_output<H: Host>(
    alloc: Global,
    host: &mut H,
    work: &str,
    dir: &str,
    name: &Txt,
) -> Result<Option<FileRef>, HostRefusal>
    requires apart { IsApart work.now dir.now }
    requires seen { begins_with_dot name.now ≡ false }
    ensures later { H.faults host.old ≤ H.faults host.new }
    ensures cause { OnFailed result (Rose (H.faults host.old) (H.faults host.new)) }
    ensures no_start { H.started host.new ≡ H.started host.old }
    ensures kept { Both (H.files host.old) (H.files host.new) (KeepsOrStores work.now (scratch_in dir.now)) }
    ensures content { OkOver (H.files host.old) result (λ f o.
        o ≡ ref_of name.now (stored_of (f (path_in dir.now name.now)))) }
    ensures stored { OkOver (H.files host.new) result (λ g o.
        IfSome o (λ r. IsTrue (is_stored g work.now r.digest.0))) }
{
    let from = path_in(alloc, dir, name.as_str())?;
    let scratch = path_in(alloc, dir, ".command.new")?;
    match store_file(alloc, host, work, from.as_str(), scratch.as_str())? {
        Some(stored) => Ok(Some(ref_of(name, stored)?)),
        None => Ok(None),
    }
}

// A stored file by its name in the folder.
fn ref_of(name: &Txt, stored: Stored) -> Result<FileRef, Mem>
    ensures { IfOk result (λ r. r ≡ record { name = name.now; digest = stored.digest; len = stored.len }) }
{
    Ok(FileRef {
        name: name.copy()?,
        digest: stored.digest,
        len: stored.len,
    })
}
