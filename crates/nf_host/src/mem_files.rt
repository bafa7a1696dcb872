//! Files in memory, by their paths.

ghost use Rattle.std.specs.Prelude.{◌≡◌, IfOk, OnOk, OnErr, option_map, is_some, unwrap_or, [], if◌then◌else◌, map, string_bytes, string_cmp};
ghost use Rattle.std.specs.List.{filter, filter_map, list_any};
ghost use Rattle.std.specs.BTreeMap.{IsOrdered, keys};
ghost use Rattle.nf_host.specs.Files.{put, appended, moved};
ghost use Rattle.nf_host.specs.Folders.{path_in, is_in, own_name, cleared, folder_of, IsListed, KeepsOutside};
ghost use Rattle.nf_host.specs.MemFiles.{files_in, written, removed, without, named_in, item_in as item_of};

use crate::folder::{is_in, name_in, own_name, path_in};
use nf_value::{Bytes, Mem, Txt};
use std::alloc::{AllocError, Global};
use std::collections::BTreeMap;

/// Files by their paths.
pub(crate) type FileMap = BTreeMap<String, Vec<u8>>;

/// Puts a file with these bytes at the path.
pub(crate) fn put(alloc: Global, files: &mut FileMap, path: &str, bytes: &[u8]) -> Result<(), Mem>
    ensures ok { OnOk result (files_in files.new ≡ put (files_in files.old) path.now bytes.now) }
    ensures err { OnErr result (files_in files.new ≡ files_in files.old) }
{
    let name = String::from_str(alloc, path)?;
    let copy = Vec::from_slice(alloc, bytes)?;
    files.insert(name, copy)?;
    Ok(())
}

/// Writes bytes at the end of a file, which is made if it isn't there.
pub(crate) fn append(
    alloc: Global,
    files: &mut FileMap,
    path: &str,
    piece: &[u8],
) -> Result<(), Mem>
    ensures ok { OnOk result (files_in files.new ≡ appended (files_in files.old) path.now piece.now) }
    ensures err { OnErr result (files_in files.new ≡ files_in files.old) }
{
    let mut bytes = bytes_at(alloc, files, path)?;
    bytes.extend_from_slice(piece)?;
    put(alloc, files, path, &bytes)?;
    Ok(())
}

// The bytes of a file, or none if there is no file.
fn bytes_at(alloc: Global, files: &FileMap, path: &str) -> Result<Vec<u8>, Mem>
    ensures { IfOk result (λ bytes. bytes.items ≡ unwrap_or (files_in files.now path.now) []) }
{
    match files.get(path) {
        Some(bytes) => Ok(bytes.clone()?),
        None => Ok(Vec::new(alloc)),
    }
}

/// Moves a file to another path. Gives whether there is one.
pub(crate) fn rename(alloc: Global, files: &mut FileMap, from: &str, to: &str) -> Result<bool, Mem>
    ensures ok { IfOk result (λ is_there. files_in files.new ≡ (if is_there then moved (files_in files.old) from.now to.now else files_in files.old)) }
    ensures there { IfOk result (λ is_there. is_there ≡ is_some (files_in files.old from.now)) }
    ensures err { OnErr result (files_in files.new ≡ files_in files.old) }
{
    let Some(bytes) = files.get(from) else {
        return Ok(false);
    };
    let copy = Vec::from_slice(alloc, bytes.as_slice())?;
    let name = String::from_str(alloc, to)?;
    files.insert(name, copy)?;
    if from != to {
        files.remove(from);
    }
    Ok(true)
}

/// Removes the files in a folder.
pub(crate) fn clear(alloc: Global, files: &mut FileMap, dir: &str) -> Result<(), Mem>
    ensures ok { OnOk result (files_in files.new ≡ cleared (files_in files.old) dir.now) }
    ensures err { OnErr result (files_in files.new ≡ files_in files.old) }
{
    let paths = paths_in(alloc, files, dir)?;
    remove_all(files, &paths);
    Ok(())
}

fn paths_in(alloc: Global, files: &FileMap, dir: &str) -> Result<Vec<String>, Mem>
    ensures { IfOk result (λ paths. map string_bytes paths.items ≡ filter (is_in dir.now) (map string_bytes (keys files.now))) }
{
    let mut paths = Vec::new(alloc);
    for path in files.keys() {
        if is_in(dir, path.as_str()) {
            paths.push(String::from_str(alloc, path.as_str())?)?;
        }
    }
    Ok(paths)
}

#[tactic(auto, using(crate::proofs::Writes::remove_more, crate::proofs::Writes::remove_none))]
fn remove_all(files: &mut FileMap, paths: &[String])
    ensures { files_in files.new ≡ without (files_in files.old) paths.now }
{
    for path in paths {
        remove(files, path);
    }
}

fn remove(files: &mut FileMap, path: &String)
    ensures { files_in files.new ≡ removed (files_in files.old) (string_bytes path.now) }
{
    files.remove(path.as_str());
}

/// The files in a folder, by their names in it.
pub(crate) fn folder(alloc: Global, files: &FileMap, dir: &str) -> Result<Vec<(Txt, Bytes)>, Mem>
    ensures { IfOk result (λ items. named_in items.items ≡ folder_of (files_in files.now) dir.now) }
{
    let items = items_in(alloc, files, dir)?;
    Ok(items)
}

fn items_in(alloc: Global, files: &FileMap, dir: &str) -> Result<Vec<(Txt, Bytes)>, Mem>
    ensures { IfOk result (λ items. items.items ≡ filter_map (item_of dir.now) files.now.entries) }
{
    let mut items = Vec::new(alloc);
    for (path, bytes) in files {
        if let Some(item) = item_in(alloc, dir, path, bytes)? {
            items.push(item)?;
        }
    }
    Ok(items)
}

fn item_in(
    alloc: Global,
    dir: &str,
    path: &String,
    bytes: &Vec<u8>,
) -> Result<Option<(Txt, Bytes)>, Mem>
    ensures { IfOk result (λ item. item ≡ item_of dir.now (path.now, bytes.now)) }
{
    let Some(name) = name_in(dir, path.as_str()) else {
        return Ok(None);
    };
    let name = Txt::of(String::from_str(alloc, name)?);
    let bytes = Bytes::of(bytes.clone()?);
    Ok(Some((name, bytes)))
}

/// The names of a folder's own files, or nothing if no file lies in it.
pub(crate) fn list(alloc: Global, files: &FileMap, dir: &str) -> Result<Option<Vec<Txt>>, Mem>
    ensures { IfOk result (λ names. IsListed (files_in files.now) dir.now (option_map (λ v. v.items) names)) }
{
    let names = own_names(alloc, files, dir)?;
    if has_path_in(files, dir) {
        Ok(Some(names))
    } else {
        Ok(None)
    }
}

fn own_names(alloc: Global, files: &FileMap, dir: &str) -> Result<Vec<Txt>, Mem>
    ensures names { IfOk result (λ names. names.items ≡ filter_map (own_name dir.now) (map string_bytes (keys files.now))) }
    ensures sorted { IsOrdered string_cmp files.now }
{
    let mut names = Vec::new(alloc);
    for path in files.keys() {
        if let Some(name) = own_name(dir, path.as_str()) {
            names.push(Txt::of(String::from_str(alloc, name)?))?;
        }
    }
    Ok(names)
}

fn has_path_in(files: &FileMap, dir: &str) -> bool
    ensures { result ≡ list_any (is_in dir.now) (map string_bytes (keys files.now)) }
{
    for path in files.keys() {
        if is_in(dir, path.as_str()) {
            return true;
        }
    }
    false
}

/// Writes files in a folder, one after another.
#[tactic(auto, using(crate::proofs::Writes::write_more, crate::proofs::Writes::write_none))]
pub(crate) fn write_all(
    alloc: Global,
    files: &mut FileMap,
    dir: &str,
    items: &[(Txt, Bytes)],
) -> Result<(), Mem>
    ensures ok { OnOk result (files_in files.new ≡ written (files_in files.old) dir.now items.now) }
    ensures others { KeepsOutside dir.now (files_in files.old) (files_in files.new) }
{
    for item in items {
        write(alloc, files, dir, item)?;
    }
    Ok(())
}

fn write(alloc: Global, files: &mut FileMap, dir: &str, item: &(Txt, Bytes)) -> Result<(), Mem>
    ensures ok { OnOk result (files_in files.new ≡ put (files_in files.old) (path_in dir.now item.now.0) item.now.1) }
    ensures others { KeepsOutside dir.now (files_in files.old) (files_in files.new) }
{
    let path = path_in(alloc, dir, item.0.as_str())?;
    put(alloc, files, path.as_str(), item.1.items())?;
    Ok(())
}
