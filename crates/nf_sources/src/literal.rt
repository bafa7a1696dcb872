//! The file at a literal path.

ghost use Rattle.std.specs.Prelude.{◌≡◌, ◌≤◌, IfErr, IfOk, IfSome, IsTrue, None, false, true, bytes_eq, option_map};
ghost use Rattle.std.specs.Str.{chars};
ghost use Rattle.nf_host.specs.Faults.{Rose};
ghost use Rattle.nf_host.specs.Told.{Both};
ghost use Rattle.nf_paths.specs.Paths.{name_at as name_at_of};
ghost use Rattle.nf_shell.specs.Over.{OkOver};
ghost use Rattle.nf_shell.specs.Places.{KeepsOrStores, is_stored};
ghost use Rattle.nf_sources.specs.Sources.{IsLongAt, IsTaken, OnHostFailed, OnTooLong, scratch_in, stored_as};

use crate::fault::SourceRefusal;
use crate::storing::store_source;
use nf_host::Host;
use nf_paths::name_at;
use nf_shell::Stored;
use nf_value::{FileRef, Mem, Txt};
use std::alloc::Global;

/// The file at a path of a source that has no pattern in it (Nextflow reference documentation, "Channel factories", "fromPath", and
/// "file"). It is read whole, and copied to the file store of the work folder unless it stands whole there (own). `None` if there is
/// no file, and for the path at which files are copied before they are stored.
///
/// If the host reveals its files, the file has exactly the digest and the length of its bytes, and `None` and `FileTooLong` come exactly
/// as said. Only the file store is written.
///
/// # Errors
///
/// `FileTooLong` if the file has more than 1,099,511,627,775 bytes. `Host` if the host failed in this call, which it counted, or if
/// there is no memory.
pub fn literal_file<H: Host>(
    alloc: Global,
    host: &mut H,
    work: &str,
    path: &str,
) -> Result<Option<FileRef>, SourceRefusal>
    ensures later { H.faults host.old ≤ H.faults host.new }
    ensures cause { OnHostFailed result (Rose (H.faults host.old) (H.faults host.new)) }
    ensures no_start { H.started host.new ≡ H.started host.old }
    ensures kept { Both (H.files host.old) (H.files host.new) (KeepsOrStores work.now (scratch_in work.now)) }
    ensures content { bytes_eq path.now (scratch_in work.now) ≡ false
        → OkOver (H.files host.old) result (λ f o. IsTaken (f path.now) (option_map stored_as o)) }
    ensures named { IfOk result (λ o. IfSome o (λ r. chars r.name ≡ name_at_of (chars path.now))) }
    ensures nothing { bytes_eq path.now (scratch_in work.now) ≡ true → IfOk result (λ o. o ≡ None) }
    ensures refused { IfErr result (λ e. OnTooLong e (λ p. (p ≡ path.now) × IsLongAt (H.files host.old) p)) }
    ensures stored { OkOver (H.files host.new) result (λ g o.
        IfSome o (λ r. IsTrue (is_stored g work.now r.digest.0))) }
{
    let stored = store_source(alloc, host, work, path)?;
    match stored {
        Some(stored) => Ok(Some(ref_at(alloc, path, stored)?)),
        None => Ok(None),
    }
}

/// A stored file by the last component of its path.
fn ref_at(alloc: Global, path: &str, stored: Stored) -> Result<FileRef, Mem>
    ensures stored { IfOk result (λ r. stored_as r ≡ stored) }
    ensures named { IfOk result (λ r. chars r.name ≡ name_at_of (chars path.now)) }
{
    let name = Txt::of(String::from_str(alloc, name_at(path))?);
    Ok(FileRef {
        name,
        digest: stored.digest,
        len: stored.len,
    })
}
