//! Targets with two contents.

ghost use Rattle.std.specs.Prelude.{◌≡◌, IfOk, None, MatchOption, map, bytes_eq};
ghost use Rattle.nf_value.specs.View.{plain_of};
ghost use Rattle.nf_publish.specs.Clashes.{clash_after, clash_in, clash_of, target_plain};
ghost use Rattle.nf_publish.specs.Targets.{HaveOneContent, IsFirstClash};

use crate::fault::Clash;
use nf_bag::distinct;
use nf_tasks::Target;
use nf_value::{FileRef, Mem, Vals, Value};
use std::alloc::Global;

/// The first target in the order of bytes that has two contents, with the two least of its digests, if one has. Time:
/// some n log n comparisons of targets.
///
/// # Errors
///
/// `Mem` if there is no memory for the targets' order.
pub(crate) fn first_clash(alloc: Global, targets: &[Target]) -> Result<Option<Clash>, Mem>
    ensures { IfOk result (λ c. MatchOption c (HaveOneContent targets.now) (IsFirstClash targets.now)) }
{
    let files = distinct(target_values(alloc, targets)?)?;
    clash_in(files.items())
}

/// The targets as files of no length, since files stand in the order of their names and then of their digests.
fn target_values(alloc: Global, targets: &[Target]) -> Result<Vals, Mem>
    ensures { IfOk result (λ vs. vs ≡ map target_plain targets.now) }
{
    let mut values = Vec::new(alloc);
    for target in targets {
        values.push(Value::of_file(alloc, target_file(target)?)?)?;
    }
    Ok(Vals::of(values))
}

fn target_file(target: &Target) -> Result<FileRef, Mem>
    ensures { IfOk result (λ f. f ≡ record { name = target.now.name; digest = target.now.digest; len = 0 }) }
{
    let name = target.name.copy()?;
    let digest = target.digest;
    Ok(FileRef {
        name,
        digest,
        len: 0,
    })
}

/// The first two files of one name, of files in their order.
fn clash_in(files: &[Value]) -> Result<Option<Clash>, Mem>
    ensures { IfOk result (λ c. c ≡ clash_in (map plain_of files.now)) }
{
    match files {
        [Value::File(first), others @ ..] => clash_after(first.file(), others),
        _ => Ok(None),
    }
}

fn clash_after(first: &FileRef, others: &[Value]) -> Result<Option<Clash>, Mem>
    ensures { IfOk result
        (λ c. c ≡ clash_after first.now.name first.now.digest (map plain_of others.now)) }
{
    let mut before = first;
    for value in others {
        let Value::File(file) = value else {
            return Ok(None);
        };
        let file = file.file();
        if before.name.as_str() == file.name.as_str() {
            return Ok(Some(clash_of(before, file)?));
        }
        before = file;
    }
    Ok(None)
}

fn clash_of(first: &FileRef, second: &FileRef) -> Result<Clash, Mem>
    ensures { IfOk result (λ c. c ≡ clash_of first.now.name first.now.digest second.now.digest) }
{
    Ok(Clash {
        target: first.name.copy()?,
        first: first.digest,
        second: second.digest,
    })
}
