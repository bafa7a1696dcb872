//! What is wanted of what a name or an expression stands for: a value, or no file.

ghost use Rattle.std.specs.Prelude.{◌≡◌};
ghost use Rattle.nf_value.specs.View.{plain_of};
ghost use Rattle.nf_meaning.specs.Expressions.{file_fault};
ghost use Rattle.nf_leading.specs.Wanted.{HasNoFile, WantsValue, fault_or_none};

use nf_known::holds_file;
use nf_meaning::LowerFault;
use nf_scopes::Thing;
use nf_value::{Place, Value};

/// The value that a thing is, which may hold a file. Its expression begins at `place`. Takes no memory.
///
/// # Errors
///
/// `BadOption` at that place if it is a channel, or what a call gives.
pub fn value_wanted(place: Place, thing: Thing) -> Result<Value, LowerFault>
    ensures { WantsValue place thing result }
{
    match thing {
        Thing::Known(value) => Ok(value),
        Thing::Channel(_) => Err(LowerFault::BadOption { place }),
        Thing::Outputs(_) => Err(LowerFault::BadOption { place }),
    }
}

/// Nothing, for a thing that is neither a file nor a list or map that holds one (own): such a value is no statement. Its
/// expression begins at `place`. Takes no memory.
///
/// # Errors
///
/// `BadOption` at that place if it is.
pub fn has_no_file(place: Place, thing: &Thing) -> Result<(), LowerFault>
    ensures { HasNoFile place thing.now result }
{
    match thing {
        Thing::Known(value) => value_has_no_file(place, value),
        Thing::Channel(_) => Ok(()),
        Thing::Outputs(_) => Ok(()),
    }
}

fn value_has_no_file(place: Place, value: &Value) -> Result<(), LowerFault>
    ensures { result ≡ fault_or_none (file_fault place (plain_of value.now)) }
{
    if holds_file(value) {
        return Err(LowerFault::BadOption { place });
    }
    Ok(())
}
