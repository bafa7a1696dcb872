//! The files of all sources of a script.

ghost use Rattle.std.specs.Prelude.{◌≡◌, ◌≤◌, ◌++◌, ◌∷◌, [], All, map, OnOk};
ghost use Rattle.nf_host.specs.Faults.{Rose};
ghost use Rattle.nf_host.specs.Told.{Both};
ghost use Rattle.nf_shell.specs.Outputs.{AreStored};
ghost use Rattle.nf_shell.specs.Over.{OkOver};
ghost use Rattle.nf_shell.specs.Places.{KeepsOrStores};
ghost use Rattle.nf_sources.specs.Sources.{scratch_in};
ghost use Rattle.nf_plan.specs.Plans.{want_of};
ghost use Rattle.nf_found.specs.Refusal.{OnFailed};
ghost use Rattle.nf_found.specs.All.{FindsAll, FindsOne, GivesFound};
ghost use Rattle.nf_found.specs.Found.{must_exist as must_exist_of};

use crate::files::files_at;
use crate::found::Found;
use crate::refusal::FoundRefusal;
use nf_host::Host;
use nf_pattern::is_literal;
use nf_plan::Want;
use nf_value::{FileRef, Mem, Txt};
use std::alloc::Global;

/// The files of each path that a script's sources read, in their order (Nextflow reference documentation, "Channel
/// factories", "fromPath" and "fromFilePairs"). Each file is read whole, and copied to the file store of the work
/// folder unless it stands whole there (own).
///
/// If the host reveals its files, those of a path that doesn't lead into the file store are exactly the ones that match
/// it, with the digests and lengths of their bytes at the call's entry. Only the file store is written.
///
/// # Errors
///
/// The first refusal in the order of the paths ends the call. `NoFile` if no file matches a path and one must: a path
/// without a pattern, or one that asks for a file. `FileTooLong` if a file has more than 1,099,511,627,775 bytes, with
/// its path. `Host` if the host failed in this call, which it counted, or if there is no memory.
pub fn all_found<H: Host>(
    alloc: Global,
    host: &mut H,
    work: &str,
    wants: &[Want],
) -> Result<Vec<Found>, FoundRefusal>
    ensures later { H.faults host.old ≤ H.faults host.new }
    ensures cause { OnFailed result (Rose (H.faults host.old) (H.faults host.new)) }
    ensures no_start { H.started host.new ≡ H.started host.old }
    ensures kept { Both (H.files host.old) (H.files host.new) (KeepsOrStores work.now (scratch_in work.now)) }
    ensures finds { FindsAll work.now (H.files host.old) (map want_of wants.now) result }
    ensures stored { OkOver (H.files host.new) result (λ g v. All (λ x. AreStored work.now g x.files.items) v.items) }
{
    let mut found = Vec::new(alloc);
    for want in wants {
        let one = found_for(alloc, host, work, want)?;
        add_one(&mut found, one)?;
    }
    Ok(found)
}

fn add_one(found: &mut Vec<Found>, one: Found) -> Result<(), Mem>
    ensures { OnOk result (found.new.items ≡ found.old.items ++ one ∷ []) }
{
    found.push(one)?;
    Ok(())
}

/// The files of one path.
fn found_for<H: Host>(
    alloc: Global,
    host: &mut H,
    work: &str,
    want: &Want,
) -> Result<Found, FoundRefusal>
    ensures later { H.faults host.old ≤ H.faults host.new }
    ensures cause { OnFailed result (Rose (H.faults host.old) (H.faults host.new)) }
    ensures no_start { H.started host.new ≡ H.started host.old }
    ensures kept { Both (H.files host.old) (H.files host.new) (KeepsOrStores work.now (scratch_in work.now)) }
    ensures finds { FindsOne work.now (H.files host.old) (want_of want.now) result }
    ensures stored { OkOver (H.files host.new) result (λ g x. AreStored work.now g x.files.items) }
{
    let path = want.path.copy()?;
    let files = files_at(alloc, host, work, path.as_str())?;
    some_found(path, files, must_exist(want))
}

/// Whether a source must have a file.
fn must_exist(want: &Want) -> bool
    ensures { result ≡ must_exist_of (want_of want.now) }
{
    is_literal(want.path.as_str()) || want.must
}

/// What was found, unless it is nothing where something must be.
fn some_found(path: Txt, files: Vec<FileRef>, must: bool) -> Result<Found, FoundRefusal>
    ensures { GivesFound path files.items must result }
{
    if must && files.is_empty() {
        return Err(FoundRefusal::NoFile { path });
    }
    Ok(Found { path, files })
}
