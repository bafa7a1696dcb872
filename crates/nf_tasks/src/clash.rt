//! Clashes between the names of staged files.

ghost use Rattle.std.specs.Prelude.{◌≡◌, [], IfOk, option_map};
ghost use Rattle.nf_tasks.specs.Clash.{is_reserved, first_clash};

use nf_value::{FileRef, Mem};
use std::alloc::Global;
use std::collections::BTreeSet;

/// The first file whose name stood before: another file has it, or the task's own files do. Time: some n log n comparisons of names.
///
/// # Errors
///
/// `Mem` if there is no memory for the names' order.
pub(crate) fn first_clash(alloc: Global, files: &[FileRef]) -> Result<Option<&FileRef>, Mem>
    ensures { IfOk result (λ f. first_clash [] files.now ≡ option_map (λ x. x.now.name) f) }
{
    let mut seen = BTreeSet::new(alloc);
    for file in files {
        let name = file.name.as_str();
        if is_reserved(name) {
            return Ok(Some(file));
        }
        let is_new = seen.insert(name)?;
        if !is_new {
            return Ok(Some(file));
        }
    }
    Ok(None)
}

/// Whether the task's own files have the name: `.exitcode`, and each name that begins with `.command.` (own).
fn is_reserved(name: &str) -> bool
    ensures { result ≡ is_reserved name.now }
{
    name == ".exitcode" || name.starts_with(".command.")
}
