//! Parts of expressions at their places.

ghost use Rattle.std.specs.Prelude.{ℕ, List, Ok, map};
ghost use Rattle.nf_value.specs.Plain.{Plain, text as text_plain};
ghost use Rattle.nf_value.specs.View.{plain_of, pair_of};
ghost use Rattle.nf_infix.specs.Gathering.{IsGathered};
ghost use Rattle.nf_infix.specs.Literal.{new_list as new_list_of, new_map as new_map_of};
ghost use Rattle.nf_infix.specs.Property.{property as property_of};
ghost use Rattle.nf_infix.specs.Read.{index as index_of};
ghost use Rattle.nf_infix.specs.Template.{IsWritten};
ghost use Rattle.nf_placed.specs.Placed.{Evaluates, made};

use crate::places::placed;
use nf_infix::{Gathered, Written, index, new_list, new_map, property};
use nf_texts::limits::copied;
use nf_value::{EvalRefusal, Place, Txt, Value};
use std::alloc::Global;

/// `a.name` at the place of the name (Nextflow reference documentation, "Syntax", "Property expression").
///
/// # Errors
///
/// The fault of the property at its place: `NoProperty` where the value has none of that name, `TooLarge` and `TooDeep` where it passes a limit by
/// itself. `Mem` where there is no memory for it.
pub fn property_value(
    alloc: Global,
    place: Place,
    value: &Value,
    name: &str,
) -> Result<Value, EvalRefusal>
    ensures { Evaluates (made place (property_of (plain_of value.now) name.now)) result }
{
    placed(place, property(alloc, value, name))
}

/// `a[b]` at the place of the bracket (Nextflow reference documentation, "Syntax", "Index expression").
///
/// # Errors
///
/// The fault of the index at its place: `WrongKind` of values that it isn't for, `TooLarge` and `TooDeep` where the item passes a limit by itself.
/// `Mem` where there is no memory for a copy.
pub fn index_value(place: Place, value: &Value, at: &Value) -> Result<Value, EvalRefusal>
    ensures { Evaluates (made place (index_of (plain_of value.now) (plain_of at.now))) result }
{
    placed(place, index(value, at))
}

/// `[a, b]` at the place of the bracket (Nextflow reference documentation, "Syntax", "List").
///
/// # Errors
///
/// `TooLarge` and `TooDeep` at its place where the list passes a limit (own). Takes no memory.
pub fn list_value(place: Place, items: Vec<Value>) -> Result<Value, EvalRefusal>
    ensures { Evaluates (made place (new_list_of (map plain_of items.items))) result }
{
    placed(place, new_list(items))
}

/// The list of the values that were gathered, at the place of its bracket or of the method that made them (Nextflow reference documentation,
/// "Syntax", "List"). Takes no memory.
///
/// # Errors
///
/// `TooLarge` and `TooDeep` at its place where the list passes a limit (own).
pub fn gathered_value(place: Place, values: Gathered) -> Result<Value, EvalRefusal>
    ensures { (vs : List Plain) → IsGathered vs values → Evaluates (made place (new_list_of vs)) result }
{
    placed(place, values.end())
}

/// `[k: a, l: b]` at the place of the bracket, where of equal keys the last counts (Nextflow reference documentation, "Syntax", "Map"). Takes time by
/// the square of their number.
///
/// # Errors
///
/// `TooLarge` and `TooDeep` at its place where the map passes a limit (own). `Mem` where there is no memory for it.
pub fn map_value(
    alloc: Global,
    place: Place,
    pairs: Vec<(Txt, Value)>,
) -> Result<Value, EvalRefusal>
    ensures { Evaluates (made place (new_map_of (map pair_of pairs.items))) result }
{
    placed(place, new_map(alloc, pairs))
}

/// The text that was written of a template, at the place of its opening mark (Nextflow reference documentation, "Syntax", "Dynamic string"). Takes no
/// memory.
///
/// # Errors
///
/// `TooLarge` at its place where the text passes the limit (own).
pub fn text_value(place: Place, text: Written) -> Result<Value, EvalRefusal>
    ensures { (t : List ℕ) → IsWritten t text → Evaluates (made place (Ok (text_plain t))) result }
{
    placed(place, text.end())
}

/// A copy of a value that is made at a place.
///
/// # Errors
///
/// `TooLarge` and `TooDeep` at the place where the value passes a limit (own), which is told before it is copied. `Mem` where there is no memory for
/// it.
pub fn copy_value(place: Place, value: &Value) -> Result<Value, EvalRefusal>
    ensures { Evaluates (made place (Ok (plain_of value.now))) result }
{
    placed(place, copied(value))
}
