//! `a.name` of maps and files.

ghost use Rattle.std.specs.Prelude.{◌≡◌, ◌<◌, true, false, IfSome, slice_get};
ghost use Rattle.nf_value.specs.Plain.{file as file_plain};
ghost use Rattle.nf_value.specs.View.{plain_of};
ghost use Rattle.nf_texts.specs.Outcome.{Gives};
ghost use Rattle.nf_builtins.specs.Rows.{is_closure};
ghost use Rattle.nf_builtins.specs.Call.{builtin_rows, answer_of};
ghost use Rattle.nf_infix.specs.Property.{property as property_of, file_property};

use crate::reading::value_at;
use nf_builtins::{CallFault, call};
use nf_texts::limits::{copied, judged};
use nf_value::{EvalKind, Vals, Value};
use std::alloc::Global;

/// The numbers of the rows of files' properties in the table of methods.
const BASE_NAME: usize = 4;

const EXTENSION: usize = 11;

const NAME: usize = 30;

const SIMPLE_NAME: usize = 33;

/// `a.name`: the value of a key of a map, null where it has none, or the property of a file: `name`, `baseName`, `extension` and `simpleName`
/// (Nextflow reference documentation, "Syntax", "Property expression", and "Standard library: types", "Path").
///
/// # Errors
///
/// `NoProperty` of any other value or name (own); `TooLarge` and `TooDeep` where the value passes a limit by itself. `Mem` where there is no memory
/// for it.
pub fn property(alloc: Global, value: &Value, name: &str) -> Result<Value, CallFault>
    ensures { Gives (property_of (plain_of value.now) name.now) result }
{
    match value {
        Value::Map(pairs) => match value_at(pairs, name) {
            Some(found) => copied(found),
            None => judged(Value::Null),
        },
        Value::File(_) => of_file(alloc, value, name),
        _ => Err(CallFault::Kind(EvalKind::NoProperty)),
    }
}

fn of_file(alloc: Global, value: &Value, name: &str) -> Result<Value, CallFault>
    ensures { Gives (file_property name.now (plain_of value.now)) result }
{
    let none = Vals::of(Vec::new(alloc));
    if name == "name" {
        return call(alloc, NAME, value, &none);
    }
    if name == "baseName" {
        return call(alloc, BASE_NAME, value, &none);
    }
    if name == "extension" {
        return call(alloc, EXTENSION, value, &none);
    }
    if name == "simpleName" {
        return call(alloc, SIMPLE_NAME, value, &none);
    }
    Err(CallFault::Kind(EvalKind::NoProperty))
}
