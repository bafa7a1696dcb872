//! `PathArgs`: the path of a source of files, and the files of it.

ghost use Rattle.std.specs.Prelude.{◌≡◌, IfOk, map};
ghost use Rattle.nf_value.specs.View.{plain_of};
ghost use Rattle.nf_around.specs.Gives.{Reads};
ghost use Rattle.nf_job.specs.JobText.{file_plain};
ghost use Rattle.nf_meaning.specs.Sources as meaning;
ghost use Rattle.nf_meaning.specs.Walk.{Around, State};
ghost use Rattle.nf_opargs.specs.Sources.{fits_kind};
ghost use Rattle.nf_plan.specs.Plans.{want_of};
ghost use Rattle.nf_taken.specs.Bodies.{IsPathArgs, path_args_of};
ghost use Rattle.nf_taken.specs.Paths.{path_walk, wanted_as};

use nf_meaning::LowerFault;
use nf_opargs::{PathKind, text_wanted};
use nf_paths::name_at;
use nf_plan::Want;
use nf_value::{Digest, FileBox, FileRef, Mem, Place, Txt, Value};
use std::alloc::Global;

/// A path, and whether there has to be a file (Nextflow reference documentation, "Channel factories", "fromPath").
#[derive(Drop)]
pub struct PathArgs {
    /// The path.
    pub path: Txt,
    /// Whether there has to be a file.
    pub must: bool,
}

impl PathArgs {
    /// Before any argument. Takes no memory.
    pub fn nothing(alloc: Global) -> PathArgs
        ensures { path_args_of result ≡ meaning.no_path }
    {
        PathArgs {
            path: Txt::of(String::new(alloc)),
            must: false,
        }
    }

    /// With the path that a value is, whose argument begins at `place`.
    ///
    /// # Errors
    ///
    /// `BadOption` there if it is no text, or no path of this kind.
    pub fn with_path(
        self,
        kind: PathKind,
        place: Place,
        value: Value,
    ) -> Result<PathArgs, LowerFault>
        ensures { (a : Around) (s : State)
            → Reads IsPathArgs (path_walk (fits_kind kind) place (plain_of value) (path_args_of self)) a s result }
    {
        let path = text_wanted(kind, place, value)?;
        Ok(PathArgs {
            path,
            must: self.must,
        })
    }

    /// The files that are wanted, which a source reads one by one or in pairs.
    ///
    /// # Errors
    ///
    /// `Mem` for want of memory.
    pub fn want(&self, pairs: bool) -> Result<Want, Mem>
        ensures { IfOk result (λ w. want_of w ≡ wanted_as pairs (path_args_of self.now)) }
    {
        Ok(Want {
            path: self.path.copy()?,
            must: self.must,
            pairs,
        })
    }
}

/// The file at a literal path, which is the first of those that were found there; where it wasn't looked for, an empty
/// one with a digest of zeros (own).
///
/// # Errors
///
/// `Mem` for want of memory.
pub fn first_file(alloc: Global, path: &str, files: &[FileRef]) -> Result<FileBox, Mem>
    ensures { IfOk result (λ f. file_plain f ≡ meaning.first_file path.now files.now) }
{
    let file = first_found(alloc, path, files)?;
    let held = FileBox::new(alloc, file)?;
    Ok(held)
}

fn first_found(alloc: Global, path: &str, files: &[FileRef]) -> Result<FileRef, Mem>
    ensures { IfOk result (λ f. file_plain f ≡ meaning.first_file path.now files.now) }
{
    let name = file_name(alloc, path)?;
    match files {
        [] => Ok(FileRef {
            name,
            digest: Digest([0; 32]),
            len: 0,
        }),
        [first, ..] => Ok(FileRef {
            name,
            digest: first.digest,
            len: first.len,
        }),
    }
}

/// The last component of a path.
fn file_name(alloc: Global, path: &str) -> Result<Txt, Mem>
    ensures { IfOk result (λ name. name ≡ meaning.file_name path.now) }
{
    let last = name_at(path);
    let text = String::from_str(alloc, last)?;
    Ok(Txt::of(text))
}

/// Files as the items of a channel.
///
/// # Errors
///
/// `Mem` for want of memory.
pub fn file_items(alloc: Global, files: &[FileRef]) -> Result<Vec<Value>, Mem>
    ensures { IfOk result (λ v. map plain_of v.items ≡ map file_plain files.now) }
{
    let mut items = Vec::new(alloc);
    for file in files {
        items.push(Value::of_file(alloc, file.copy()?)?)?;
    }
    Ok(items)
}
