//! Pairs the files that match a path.

ghost use Rattle.std.specs.Prelude.{◌≡◌, ◌++◌, List, IfOk, OnOk};
ghost use Rattle.std.specs.Str.{chars};
ghost use Rattle.nf_paths.specs.Groups.{IsGrouped, pairs_in};
ghost use Rattle.nf_paths.specs.Pairs as pairs;
ghost use Rattle.nf_paths.specs.Pairs.{Keyed, keyed, with_key};
ghost use Rattle.nf_paths.specs.Texts.{pattern_of};

use crate::groups::{Members, add_file, put_pair};
use crate::keys::key_of;
use crate::paths::name_at;
use crate::pattern::{PairPattern, pair_pattern};
use indexmap::IndexMap;
use nf_value::{FileRef, Mem, Vals};
use std::alloc::Global;

/// The pairs of files that a source gives (Nextflow reference documentation, "Channel factories", "fromFilePairs"), each as a list of its key
/// and the list of its two files. The path is that of the source, and the files are those that match it, in the order of their names. The key
/// of a file is what `*` matches in its name, the longest text where there are several. A key that hasn't exactly two files is dropped (own).
///
/// # Errors
///
/// `Mem` if there is no memory for them.
pub fn pairs_of(alloc: Global, path: &str, files: &[FileRef]) -> Result<Vals, Mem>
    ensures { IfOk result (λ v. v ≡ pairs.pairs_of (chars path.now) files.now) }
{
    match pair_pattern(name_at(path)) {
        Some(pattern) => {
            let groups = grouped(alloc, &pattern, files)?;
            paired(alloc, &groups)
        }
        None => Ok(Vals::of(Vec::new(alloc))),
    }
}

/// The files by their keys.
fn grouped(
    alloc: Global,
    pattern: &PairPattern<'_>,
    files: &[FileRef],
) -> Result<IndexMap<String, Members>, Mem>
    ensures { IfOk result (λ m. IsGrouped (keyed (pattern_of pattern.now) files.now) m.entries) }
{
    let mut groups = IndexMap::new(alloc);
    for file in files {
        add_by_key(alloc, pattern, file, &mut groups)?;
    }
    Ok(groups)
}

/// Adds a file with its key, if it has one.
fn add_by_key(
    alloc: Global,
    pattern: &PairPattern<'_>,
    file: &FileRef,
    groups: &mut IndexMap<String, Members>,
) -> Result<(), Mem>
    ensures { OnOk result ((xs : List Keyed) → IsGrouped xs groups.old.entries
        → IsGrouped (xs ++ with_key file.now (pairs.key_of (pattern_of pattern.now) (chars file.now.name))) groups.new.entries) }
{
    match key_of(pattern, file.name.as_str()) {
        Some(key) => add_file(alloc, key, file, groups),
        None => Ok(()),
    }
}

/// The pairs of the keys that have two files.
fn paired(alloc: Global, groups: &IndexMap<String, Members>) -> Result<Vals, Mem>
    ensures { IfOk result (λ v. v ≡ pairs_in groups.now.entries) }
{
    let mut pairs = Vec::new(alloc);
    for (key, members) in groups {
        put_pair(alloc, key.as_str(), members, &mut pairs)?;
    }
    Ok(Vals::of(pairs))
}
