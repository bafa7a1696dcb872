//! Paths in folders.

ghost use Rattle.std.specs.Prelude.{◌≡◌, ◌++◌, ◌∷◌, [], List, ℕ, IfOk, OnErr, if◌then◌else◌, is_ok, option_map, option_copied, string_bytes};
ghost use Rattle.nf_host.specs.Folders.{path_in, name_in, is_in, is_name, own_name};

use nf_value::{Mem, Txt};
use std::alloc::{AllocError, Global};

/// The path of a name in a folder: the folder, a slash and the name. In the empty path, which is the folder that the program
/// runs in, it is the name (own).
///
/// # Errors
///
/// `Mem` if there is no memory for it.
pub fn path_in(alloc: Global, dir: &str, name: &str) -> Result<String, Mem>
    ensures { IfOk result (λ path. string_bytes path ≡ path_in dir.now name.now) }
{
    if dir.is_empty() {
        return Ok(String::from_str(alloc, name)?);
    }
    let mut path = String::from_str(alloc, dir)?;
    path.push_str("/")?;
    path.push_str(name)?;
    Ok(path)
}

/// The name of a path in a folder, if it lies in it at any depth.
pub(crate) fn name_in<'a>(dir: &str, path: &'a str) -> Option<&'a str>
    ensures { option_copied result ≡ name_in dir.now path.now }
{
    if dir.is_empty() {
        return Some(path);
    }
    path.strip_prefix(dir)?.strip_prefix('/')
}

/// Whether a path lies in a folder, at any depth.
pub(crate) fn is_in(dir: &str, path: &str) -> bool
    ensures { result ≡ is_in dir.now path.now }
{
    name_in(dir, path).is_some()
}

/// Whether this is the name of a file and not of one in a folder below.
pub(crate) fn is_name(name: &str) -> bool
    ensures { result ≡ is_name name.now }
{
    !name.is_empty() && !name.as_bytes().contains(&b'/')
}

/// The name of a path, if it is one of the folder's own files.
pub(crate) fn own_name<'a>(dir: &str, path: &'a str) -> Option<&'a str>
    ensures { option_copied result ≡ own_name dir.now path.now }
{
    let name = name_in(dir, path)?;
    if is_name(name) { Some(name) } else { None }
}
