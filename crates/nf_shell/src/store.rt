//! The file store: the bytes of files by their digests.

ghost use Rattle.std.specs.Prelude.{◌≡◌, ◌≤◌, IfNone, IfOk, IfSome, IsTrue, false, bytes_eq, string_bytes};
ghost use Rattle.nf_host.specs.Faults.{Rose, OnFailed};
ghost use Rattle.nf_host.specs.Files.{KeepsOthers};
ghost use Rattle.nf_host.specs.Told.{Both};
ghost use Rattle.nf_shell.specs.Damages.{found_digest, has_digest};
ghost use Rattle.nf_shell.specs.Outputs.{stored_of};
ghost use Rattle.nf_shell.specs.Over.{OkOver};
ghost use Rattle.nf_shell.specs.Places.{KeepsOrStores, job_dir, stored_at, is_stored};

use nf_host::{Digested, FILE_LIMIT, Host, HostRefusal, copy_file, digest_file, path_in};
use nf_job::work_name;
use nf_value::{Digest, Mem};
use std::alloc::Global;

/// The folder of the file store in the work folder (own).
const STORE: &str = ".files";

/// A file that was stored: the digest of its bytes, and how many they are.
#[derive(Clone, Copy, Drop)]
pub struct Stored {
    /// The digest of its bytes.
    pub digest: Digest,
    /// How many bytes it has.
    pub len: u64,
}

/// The folder of the job with this key (Nextflow's documentation, "Cache and resume", on the task's work directory).
///
/// # Errors
///
/// `Mem` if there is no memory for it.
pub fn job_folder(alloc: Global, work: &str, key: &Digest) -> Result<String, Mem>
    ensures { IfOk result (λ p. string_bytes p ≡ job_dir work.now key.now.0) }
{
    named(alloc, work, key)
}

/// The path of the file with this digest in the file store (own).
///
/// # Errors
///
/// `Mem` if there is no memory for it.
pub fn stored_path(alloc: Global, work: &str, digest: &Digest) -> Result<String, Mem>
    ensures { IfOk result (λ p. string_bytes p ≡ stored_at work.now digest.now.0) }
{
    let folder = path_in(alloc, work, STORE)?;
    named(alloc, folder.as_str(), digest)
}

// The path of a digest in a folder: two digits, a slash and the others.
fn named(alloc: Global, folder: &str, digest: &Digest) -> Result<String, Mem>
    ensures { IfOk result (λ p. string_bytes p ≡ job_dir folder.now digest.now.0) }
{
    let mut name = [0u8; 65];
    work_name(digest, &mut name);
    match str::from_utf8(&name) {
        Ok(name) => path_in(alloc, folder, name),
        // Digits and a slash are ASCII.
        Err(_) => unreachable!(),
    }
}

/// Whether the file with this digest stands whole in the file store, as it reads now.
///
/// # Errors
///
/// `Failed` if the host failed in this call; it counted that. `Mem` if there is no memory for it.
pub fn is_in_store<H: Host>(
    alloc: Global,
    host: &mut H,
    work: &str,
    digest: &Digest,
) -> Result<bool, HostRefusal>
    ensures later { H.faults host.old ≤ H.faults host.new }
    ensures cause { OnFailed result (Rose (H.faults host.old) (H.faults host.new)) }
    ensures same { H.files host.new ≡ H.files host.old }
    ensures no_start { H.started host.new ≡ H.started host.old }
    ensures content { OkOver (H.files host.old) result (λ f there. there ≡ is_stored f work.now digest.now.0) }
{
    let path = stored_path(alloc, work, digest)?;
    let found = digest_file(alloc, host, path.as_str(), FILE_LIMIT)?;
    Ok(has_digest(found, digest))
}

/// The digest of a whole file; none of one that is absent or too long. Takes no memory.
pub fn found_digest(found: Digested) -> Option<Digest>
    ensures { result ≡ found_digest found }
{
    match found {
        Digested::Whole { digest, .. } => Some(digest),
        Digested::Absent | Digested::TooLong => None,
    }
}

/// Whether a whole file with this digest was found. Takes no memory.
pub fn has_digest(found: Digested, due: &Digest) -> bool
    ensures { result ≡ has_digest found due.now.0 }
{
    match found {
        Digested::Whole { digest, .. } => digest.0 == due.0,
        Digested::Absent | Digested::TooLong => false,
    }
}

/// Stores a file: copies it whole under another name, `scratch`, and puts it then in its place in one step. So the store has
/// whole files alone, if `scratch` is no path of the store. Nothing is stored if there is no file at the path, or one longer
/// than a file may be.
///
/// # Errors
///
/// `Failed` if the host failed in this call; it counted that. `Mem` if there is no memory for it. All files but the one at
/// `scratch` are as they were, or were stored whole.
pub fn store_file<H: Host>(
    alloc: Global,
    host: &mut H,
    work: &str,
    from: &str,
    scratch: &str,
) -> Result<Option<Stored>, HostRefusal>
    requires { bytes_eq from.now scratch.now ≡ false }
    ensures later { H.faults host.old ≤ H.faults host.new }
    ensures cause { OnFailed result (Rose (H.faults host.old) (H.faults host.new)) }
    ensures no_start { H.started host.new ≡ H.started host.old }
    ensures kept { Both (H.files host.old) (H.files host.new) (KeepsOrStores work.now scratch.now) }
    ensures content { OkOver (H.files host.old) result (λ f o. o ≡ stored_of (f from.now)) }
    ensures nothing { Both (H.files host.old) (H.files host.new) (λ f g.
        IfOk result (λ o. IfNone o (KeepsOthers scratch.now f g))) }
    ensures stored { OkOver (H.files host.new) result (λ g o.
        IfSome o (λ s. IsTrue (is_stored g work.now s.digest.0))) }
{
    match copy_file(alloc, host, from, scratch, FILE_LIMIT)? {
        Digested::Absent | Digested::TooLong => Ok(None),
        Digested::Whole { digest, len } => {
            let path = stored_path(alloc, work, &digest)?;
            make_parent(host, path.as_str())?;
            host.rename(alloc, scratch, path.as_str())?;
            Ok(Some(Stored { digest, len }))
        }
    }
}

// Makes the folder of a path.
fn make_parent<H: Host>(host: &mut H, path: &str) -> Result<(), HostRefusal>
    ensures later { H.faults host.old ≤ H.faults host.new }
    ensures cause { OnFailed result (Rose (H.faults host.old) (H.faults host.new)) }
    ensures same { H.files host.new ≡ H.files host.old }
    ensures no_start { H.started host.new ≡ H.started host.old }
{
    match path.rsplit_once('/') {
        Some((folder, _)) => host.make_dir(folder),
        None => Ok(()),
    }
}
