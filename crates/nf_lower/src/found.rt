//! The files that were found, by the paths of their sources.

ghost use Rattle.std.specs.Prelude.{◌∷◌, List, IfOk, OnOk, map};
ghost use Rattle.nf_found.specs.All.{found_of};
ghost use Rattle.nf_meaning.specs.Given as given;
ghost use Rattle.nf_lower.specs.Files.{HasFiles};

use indexmap::IndexMap;
use nf_found::Found;
use nf_value::{FileRef, Mem};
use std::alloc::Global;

/// The files by the paths of their sources. Of two entries of one path the first counts.
pub(crate) fn by_path<'a>(
    alloc: Global,
    found: &'a [Found],
) -> Result<IndexMap<String, &'a [FileRef]>, Mem>
    ensures { IfOk result (λ t. HasFiles (map found_of found.now) t.entries) }
{
    let mut table = IndexMap::new(alloc);
    let mut left = found.len();
    while left > 0 {
        left -= 1;
        put(alloc, &mut table, &found[left])?;
    }
    Ok(table)
}

/// Those that stand before all that are in the table.
fn put<'a>(
    alloc: Global,
    table: &mut IndexMap<String, &'a [FileRef]>,
    one: &'a Found,
) -> Result<(), Mem>
    ensures { OnOk result ((later : List given.Found) → HasFiles later table.old.entries
        → HasFiles (found_of one.now ∷ later) table.new.entries) }
{
    let path = String::from_str(alloc, one.path.as_str())?;
    table.insert(path, one.files.as_slice())?;
    Ok(())
}
