//! Stores the file at a path.

ghost use Rattle.std.specs.Prelude.{◌≡◌, ◌≤◌, ◌⊎◌, IfErr, IfOk, IfSome, IsTrue, None, Some, false, true, bytes_eq, string_bytes};
ghost use Rattle.nf_host.specs.Faults.{OnFailed, Rose};
ghost use Rattle.nf_host.specs.Told.{Both};
ghost use Rattle.nf_shell.specs.Outputs.{stored_of};
ghost use Rattle.nf_shell.specs.Over.{OkOver};
ghost use Rattle.nf_shell.specs.Places.{KeepsOrStores, is_stored};
ghost use Rattle.nf_sources.specs.Sources.{IsLongAt, IsTaken, NamesLong, OnHostFailed, OnTooLong, scratch_in as scratch_in_of, store_in as store_in_of};

use crate::fault::SourceRefusal;
use nf_host::{Digested, FILE_LIMIT, Host, HostRefusal, digest_file, path_in};
use nf_shell::{Stored, is_in_store, store_file};
use nf_value::{Mem, Txt};
use std::alloc::Global;

/// The folder of the file store in the work folder (own).
const STORE: &str = ".files";

/// The name under which a source is copied before it is stored (own).
const SCRATCH: &str = ".new";

fn store_in(alloc: Global, work: &str) -> Result<String, Mem>
    ensures { IfOk result (λ p. string_bytes p ≡ store_in_of work.now) }
{
    path_in(alloc, work, STORE)
}

fn scratch_in(alloc: Global, work: &str) -> Result<String, Mem>
    ensures { IfOk result (λ p. string_bytes p ≡ scratch_in_of work.now) }
{
    let store = store_in(alloc, work)?;
    path_in(alloc, store.as_str(), SCRATCH)
}

/// Stores the file at a path, unless it stands whole in the file store. Nothing is stored if there is no file, or if the path is
/// that at which files are copied before they are stored.
pub(crate) fn store_source<H: Host>(
    alloc: Global,
    host: &mut H,
    work: &str,
    path: &str,
) -> Result<Option<Stored>, SourceRefusal>
    ensures later { H.faults host.old ≤ H.faults host.new }
    ensures cause { OnHostFailed result (Rose (H.faults host.old) (H.faults host.new)) }
    ensures no_start { H.started host.new ≡ H.started host.old }
    ensures kept { Both (H.files host.old) (H.files host.new) (KeepsOrStores work.now (scratch_in_of work.now)) }
    ensures content { bytes_eq path.now (scratch_in_of work.now) ≡ false
        → OkOver (H.files host.old) result (λ f o. IsTaken (f path.now) o) }
    ensures nothing { bytes_eq path.now (scratch_in_of work.now) ≡ true → IfOk result (λ o. o ≡ None) }
    ensures refused { IfErr result (λ e. OnTooLong e (λ p. (p ≡ path.now) × IsLongAt (H.files host.old) p)) }
    ensures stored { OkOver (H.files host.new) result (λ g o. IfSome o (λ s. IsTrue (is_stored g work.now s.digest.0))) }
{
    let scratch = scratch_in(alloc, work)?;
    if path == scratch.as_str() {
        return Ok(None);
    }
    store_other(alloc, host, work, path, scratch.as_str())
}

/// Stores the file at a path that isn't the one at which it is copied first, unless it stands whole in the file store.
fn store_other<H: Host>(
    alloc: Global,
    host: &mut H,
    work: &str,
    path: &str,
    scratch: &str,
) -> Result<Option<Stored>, SourceRefusal>
    requires other { bytes_eq path.now scratch.now ≡ false }
    ensures later { H.faults host.old ≤ H.faults host.new }
    ensures cause { OnHostFailed result (Rose (H.faults host.old) (H.faults host.new)) }
    ensures no_start { H.started host.new ≡ H.started host.old }
    ensures kept { Both (H.files host.old) (H.files host.new) (KeepsOrStores work.now scratch.now) }
    ensures content { OkOver (H.files host.old) result (λ f o. IsTaken (f path.now) o) }
    ensures refused { IfErr result (λ e. OnTooLong e (λ p. (p ≡ path.now) × IsLongAt (H.files host.old) p)) }
    ensures stored { OkOver (H.files host.new) result (λ g o. IfSome o (λ s. IsTrue (is_stored g work.now s.digest.0))) }
{
    let read = digest_file(alloc, host, path, FILE_LIMIT)?;
    match read {
        Digested::Absent => Ok(None),
        Digested::TooLong => Err(too_long(alloc, path)),
        Digested::Whole { digest, len } => {
            let found = Stored { digest, len };
            let stored = store_found(alloc, host, work, path, scratch, found)?;
            Ok(stored)
        }
    }
}

/// The refusal of a file that is too long.
fn too_long(alloc: Global, path: &str) -> SourceRefusal
    ensures { NamesLong path.now result }
{
    match String::from_str(alloc, path) {
        Ok(path) => SourceRefusal::FileTooLong {
            path: Txt::of(path),
        },
        Err(_) => SourceRefusal::Host(HostRefusal::Mem),
    }
}

/// Stores a file whose digest is known, unless it stands whole in the file store.
fn store_found<H: Host>(
    alloc: Global,
    host: &mut H,
    work: &str,
    path: &str,
    scratch: &str,
    found: Stored,
) -> Result<Option<Stored>, HostRefusal>
    requires other { bytes_eq path.now scratch.now ≡ false }
    ensures later { H.faults host.old ≤ H.faults host.new }
    ensures cause { OnFailed result (Rose (H.faults host.old) (H.faults host.new)) }
    ensures no_start { H.started host.new ≡ H.started host.old }
    ensures kept { Both (H.files host.old) (H.files host.new) (KeepsOrStores work.now scratch.now) }
    ensures content { OkOver (H.files host.old) result (λ f o. (o ≡ Some found) ⊎ (o ≡ stored_of (f path.now))) }
    ensures stored { OkOver (H.files host.new) result (λ g o. IfSome o (λ s. IsTrue (is_stored g work.now s.digest.0))) }
{
    let is_there = is_in_store(alloc, host, work, &found.digest)?;
    if is_there {
        return Ok(Some(found));
    }
    store_anew(alloc, host, work, path, scratch)
}

/// Stores a file, in a store whose folder may be missing.
fn store_anew<H: Host>(
    alloc: Global,
    host: &mut H,
    work: &str,
    path: &str,
    scratch: &str,
) -> Result<Option<Stored>, HostRefusal>
    requires other { bytes_eq path.now scratch.now ≡ false }
    ensures later { H.faults host.old ≤ H.faults host.new }
    ensures cause { OnFailed result (Rose (H.faults host.old) (H.faults host.new)) }
    ensures no_start { H.started host.new ≡ H.started host.old }
    ensures kept { Both (H.files host.old) (H.files host.new) (KeepsOrStores work.now scratch.now) }
    ensures content { OkOver (H.files host.old) result (λ f o. o ≡ stored_of (f path.now)) }
    ensures stored { OkOver (H.files host.new) result (λ g o. IfSome o (λ s. IsTrue (is_stored g work.now s.digest.0))) }
{
    let store = store_in(alloc, work)?;
    host.make_dir(store.as_str())?;
    store_file(alloc, host, work, path, scratch)
}
