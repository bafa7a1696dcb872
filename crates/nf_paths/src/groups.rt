//! Files by their keys.

ghost use Rattle.std.specs.Prelude.{◌≡◌, ◌++◌, List, Some, map, OnOk, IfOk};
ghost use Rattle.std.specs.Option.{option_copied};
ghost use Rattle.std.specs.Str.{chars};
ghost use Rattle.nf_value.specs.View.{plain_of};
ghost use Rattle.nf_paths.specs.Groups.{IsGrouped, Grows, pair_in};
ghost use Rattle.nf_paths.specs.Pairs.{Keyed, with_key};

use indexmap::IndexMap;
use nf_value::{FileRef, Mem, Txt, Vals, Value};
use std::alloc::Global;

/// The files of a key: from the third on they don't count.
#[derive(Drop)]
pub(crate) enum Members {
    /// One file.
    One(FileRef),
    /// Two files, in their order.
    Two(FileRef, FileRef),
    /// More files.
    More,
}

/// Adds a file with its key.
pub(crate) fn add_file(
    alloc: Global,
    key: &str,
    file: &FileRef,
    groups: &mut IndexMap<String, Members>,
) -> Result<(), Mem>
    ensures { OnOk result ((xs : List Keyed) → IsGrouped xs groups.old.entries
        → IsGrouped (xs ++ with_key file.now (Some (chars key.now))) groups.new.entries) }
{
    let members = with_file(groups.get(key), file)?;
    let key = String::from_str(alloc, key)?;
    groups.insert(key, members)?;
    Ok(())
}

/// The files of a key with one more.
fn with_file(members: Option<&Members>, file: &FileRef) -> Result<Members, Mem>
    ensures { IfOk result (λ m. Grows (option_copied members.entry) file.now m) }
{
    match members {
        Some(members) => members.and(file),
        None => Ok(Members::One(file.copy()?)),
    }
}

impl Members {
    fn and(&self, file: &FileRef) -> Result<Members, Mem>
        ensures { IfOk result (λ m. Grows (Some self.now) file.now m) }
    {
        match self {
            Members::One(first) => Ok(Members::Two(first.copy()?, file.copy()?)),
            Members::Two(_, _) | Members::More => Ok(Members::More),
        }
    }
}

/// The list of a key and its two files, if it has two.
pub(crate) fn put_pair(
    alloc: Global,
    key: &str,
    members: &Members,
    pairs: &mut Vec<Value>,
) -> Result<(), Mem>
    ensures { OnOk result (map plain_of pairs.new.items ≡ map plain_of pairs.old.items ++ pair_in key.now members.now) }
{
    let Members::Two(first, second) = members else {
        return Ok(());
    };
    let mut files = Vec::new(alloc);
    files.push(Value::of_file(alloc, first.copy()?)?)?;
    files.push(Value::of_file(alloc, second.copy()?)?)?;
    let mut pair = Vec::new(alloc);
    pair.push(Value::Text(Txt::of(String::from_str(alloc, key)?)))?;
    pair.push(Value::List(Vals::of(files)))?;
    pairs.push(Value::List(Vals::of(pair)))?;
    Ok(())
}
