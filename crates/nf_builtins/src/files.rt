//! The properties and methods of files, which are parts of their names.

ghost use Rattle.std.specs.Prelude.{◌≡◌, [], MatchOption};
ghost use Rattle.nf_value.specs.View.{plain_of};
ghost use Rattle.nf_texts.specs.Outcome.{Gives};
ghost use Rattle.nf_builtins.specs.Files.{file_name, file_base_name, file_extension, file_simple_name, base_name_of, extension_of, simple_name_of};

use nf_texts::CallFault;
use nf_texts::args::{no_args, on_file};
use nf_texts::limits::text_value;
use nf_value::{Vals, Value};
use std::alloc::Global;

/// `name` and `getName()`.
pub(crate) fn name(alloc: Global, recv: &Value, args: &Vals) -> Result<Value, CallFault>
    ensures { Gives (file_name (plain_of recv.now) args.now) result }
{
    let file = on_file(recv)?;
    no_args(args)?;
    text_value(alloc, file.name.as_str())
}

/// `baseName` and `getBaseName()`: the name without its last extension.
pub(crate) fn base_name(alloc: Global, recv: &Value, args: &Vals) -> Result<Value, CallFault>
    ensures { Gives (file_base_name (plain_of recv.now) args.now) result }
{
    let file = on_file(recv)?;
    no_args(args)?;
    text_value(alloc, base_of(file.name.as_str()))
}

/// `extension` and `getExtension()`: what follows the last dot.
pub(crate) fn extension(alloc: Global, recv: &Value, args: &Vals) -> Result<Value, CallFault>
    ensures { Gives (file_extension (plain_of recv.now) args.now) result }
{
    let file = on_file(recv)?;
    no_args(args)?;
    text_value(alloc, end_of(file.name.as_str()))
}

/// `simpleName` and `getSimpleName()`: what stands before the first dot.
pub(crate) fn simple_name(alloc: Global, recv: &Value, args: &Vals) -> Result<Value, CallFault>
    ensures { Gives (file_simple_name (plain_of recv.now) args.now) result }
{
    let file = on_file(recv)?;
    no_args(args)?;
    text_value(alloc, front_of(file.name.as_str()))
}

/// The name without its last extension. A dot at the front begins no extension.
fn base_of(name: &str) -> &str
    ensures { result.now ≡ base_name_of name.now }
{
    match name.rsplit_once('.') {
        Some((base, _)) => if base.is_empty() { name } else { base },
        None => name,
    }
}

/// What follows the last dot, or nothing. A dot at the front begins no extension.
fn end_of(name: &str) -> &str
    ensures { result.now ≡ extension_of name.now }
{
    match name.rsplit_once('.') {
        Some((base, extension)) => if base.is_empty() { "" } else { extension },
        None => "",
    }
}

/// What stands before the first dot.
fn front_of(name: &str) -> &str
    ensures { result.now ≡ simple_name_of name.now }
{
    match name.split_once('.') {
        Some((front, _)) => front,
        None => name,
    }
}
