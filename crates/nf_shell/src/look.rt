//! A look for the files of a report in the file store.

ghost use Rattle.std.specs.Prelude.{◌≡◌, ◌≤◌, IfOk, IfSome, IsTrue, not, option_map};
ghost use Rattle.std.specs.List.{find};
ghost use Rattle.nf_host.specs.Faults.{Rose, OnFailed};
ghost use Rattle.nf_lane.specs.Store.{first_lacking, has_name};
ghost use Rattle.nf_shell.specs.Over.{OkOver};
ghost use Rattle.nf_shell.specs.Places.{stored_in, is_stored};
ghost use Rattle.nf_shell.specs.Outputs.{is_among};

use crate::store::is_in_store;
use nf_host::{Host, HostRefusal};
use nf_job::FileRefs;
use nf_value::{FileRef, Txt};
use std::alloc::Global;

// The name of the first file of a report that doesn't stand whole in the file store.
pub(crate) fn first_missing<H: Host>(
    alloc: Global,
    host: &mut H,
    work: &str,
    found: &[FileRefs],
) -> Result<Option<Txt>, HostRefusal>
    ensures later { H.faults host.old ≤ H.faults host.new }
    ensures cause { OnFailed result (Rose (H.faults host.old) (H.faults host.new)) }
    ensures same { H.files host.new ≡ H.files host.old }
    ensures no_start { H.started host.new ≡ H.started host.old }
    ensures named { IfOk result (λ o. IfSome o (λ name. IsTrue (has_name found.now name))) }
    ensures content { OkOver (H.files host.old) result (λ f o.
        o ≡ option_map (λ r. r.name) (first_lacking (stored_in f work.now) found.now)) }
{
    for files in found {
        if let Some(name) = missing_in(alloc, host, work, files.items())? {
            return Ok(Some(name));
        }
    }
    Ok(None)
}

// The same of one list of files.
fn missing_in<H: Host>(
    alloc: Global,
    host: &mut H,
    work: &str,
    files: &[FileRef],
) -> Result<Option<Txt>, HostRefusal>
    ensures later { H.faults host.old ≤ H.faults host.new }
    ensures cause { OnFailed result (Rose (H.faults host.old) (H.faults host.new)) }
    ensures same { H.files host.new ≡ H.files host.old }
    ensures no_start { H.started host.new ≡ H.started host.old }
    ensures named { IfOk result (λ o. IfSome o (λ name. IsTrue (is_among files.now name))) }
    ensures content { OkOver (H.files host.old) result (λ f o.
        o ≡ option_map (λ r. r.name) (find (λ r. not (is_stored f work.now r.digest.0)) files.now)) }
{
    for file in files {
        if !is_in_store(alloc, host, work, &file.digest)? {
            return Ok(Some(file.name.copy()?));
        }
    }
    Ok(None)
}
