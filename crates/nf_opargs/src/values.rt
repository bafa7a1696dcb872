//! Values of arguments.

ghost use Rattle.nf_value.specs.Plain as plain;
ghost use Rattle.nf_value.specs.View.{plain_of};
ghost use Rattle.nf_meaning.specs.Arguments as arguments;
ghost use Rattle.nf_meaning.specs.Sources as sources;
ghost use Rattle.nf_opargs.specs.Still.{IsStill};
ghost use Rattle.nf_opargs.specs.Sources.{fits_kind};

use crate::sources::PathKind;
use nf_meaning::LowerFault;
use nf_value::{Place, Txt, Vals, Value};

/// Whether an option is true, whose name stands at `place`.
///
/// # Errors
///
/// `BadOption` at its name if it is neither true nor false.
pub fn flag_in(place: Place, value: &Value) -> Result<bool, LowerFault>
    ensures { IsStill (arguments.flag_in place (plain_of value.now)) result }
{
    match value {
        Value::Truth(flag) => Ok(*flag),
        _ => Err(LowerFault::BadOption { place }),
    }
}

/// The items of a list, which begins at `place`.
///
/// # Errors
///
/// `BadOption` there if it is no list.
pub fn list_wanted(place: Place, value: Value) -> Result<Vals, LowerFault>
    ensures { IsStill (sources.list_wanted place (plain_of value)) result }
{
    match value {
        Value::List(items) => Ok(items),
        _ => Err(LowerFault::BadOption { place }),
    }
}

/// A text that is a path of this kind; the argument begins at `place`.
///
/// # Errors
///
/// `BadOption` there if it is none.
pub fn text_wanted(kind: PathKind, place: Place, value: Value) -> Result<Txt, LowerFault>
    ensures { IsStill (sources.path_wanted (fits_kind kind) place (plain_of value)) result }
{
    match value {
        Value::Text(text) => fitting(kind, place, text),
        _ => Err(LowerFault::BadOption { place }),
    }
}

fn fitting(kind: PathKind, place: Place, text: Txt) -> Result<Txt, LowerFault>
    ensures { IsStill (sources.path_wanted (fits_kind kind) place (plain.text text)) result }
{
    if kind.fits(text.as_str()) {
        Ok(text)
    } else {
        Err(LowerFault::BadOption { place })
    }
}
