//! The digests of the files of a report, and the files that a store of digests lacks.

ghost use Rattle.std.specs.Prelude.{◌≡◌, ◌≤◌, ◌++◌, IfOk, IsTrue, OnOk, map, not, option_copied};
ghost use Rattle.std.specs.List.{find};
ghost use Rattle.nf_lane.specs.Seen.{IsSeen, report_of_seen};
ghost use Rattle.nf_lane.specs.Store.{IsLook, OnThere, OnGone, digests_in, first_lacking, has_name, holds};

use crate::lane::Look;
use crate::seen::Seen;
use nf_job::{FileRefs, Report};
use nf_value::{Digest, FileRef, Mem};
use std::alloc::Global;

/// What a look at a report comes to over a store of these digests. It is the look of this number, from 1.
pub(crate) fn look_in(stored: &[Digest], report: &Report, number: u64) -> Result<Look<Seen>, Mem>
    requires { 1 ≤ number }
    ensures genuine { IfOk result (OnThere IsSeen) }
    ensures of_the_report { IfOk result (OnThere (λ s. report_of_seen s ≡ report.now)) }
    ensures named { IfOk result (OnGone (λ name. IsTrue (has_name report.now.found name))) }
    ensures looked { IfOk result (IsLook (holds stored.now) report.now.found) }
{
    match first_lacking(stored, report.found.items()) {
        Some(file) => Ok(Look::Gone {
            name: file.name.copy()?,
        }),
        None => Ok(Look::There(Seen::of(report, number)?)),
    }
}

/// The digests of the files of a report.
pub(crate) fn digests_in(alloc: Global, found: &[FileRefs]) -> Result<Vec<Digest>, Mem>
    ensures { IfOk result (λ v. v.items ≡ digests_in found.now) }
{
    let mut digests = Vec::new(alloc);
    for files in found {
        push_digests(&mut digests, files.items())?;
    }
    Ok(digests)
}

fn push_digests(digests: &mut Vec<Digest>, files: &[FileRef]) -> Result<(), Mem>
    ensures { OnOk result (digests.new.items ≡ digests.old.items ++ map (λ f. f.digest) files.now) }
{
    for file in files {
        digests.push(file.digest)?;
    }
    Ok(())
}

/// The first file of a report whose digest isn't among these.
#[tactic(auto, using(crate::proofs::Steps::at_list, crate::proofs::Steps::past_list, crate::proofs::Steps::no_list))]
pub(crate) fn first_lacking<'a>(stored: &[Digest], found: &'a [FileRefs]) -> Option<&'a FileRef>
    ensures { option_copied result ≡ first_lacking (holds stored.now) found.now }
{
    for files in found {
        if let Some(file) = lacking_in(stored, files.items()) {
            return Some(file);
        }
    }
    None
}

#[tactic(auto, using(crate::proofs::Steps::at_file, crate::proofs::Steps::past_file, crate::proofs::Steps::no_file))]
fn lacking_in<'a>(stored: &[Digest], files: &'a [FileRef]) -> Option<&'a FileRef>
    ensures { option_copied result ≡ find (λ f. not (holds stored.now f.digest.0)) files.now }
{
    for file in files {
        if !has_digest(stored, &file.digest) {
            return Some(file);
        }
    }
    None
}

#[tactic(auto, using(crate::proofs::Steps::at_digest, crate::proofs::Steps::past_digest, crate::proofs::Steps::no_digest))]
fn has_digest(stored: &[Digest], digest: &Digest) -> bool
    ensures { result ≡ holds stored.now digest.now.0 }
{
    for other in stored {
        if other.0 == digest.0 {
            return true;
        }
    }
    false
}
