//! The values that JSON gives as parameters.

ghost use Rattle.std.specs.Prelude.{map};
ghost use Rattle.nf_value.specs.View.{plain_of};
ghost use Rattle.serde_json.specs.View.{view, number_view, items_view, members_view};
ghost use Rattle.nf_params.specs.Params.{plain_in, integer_in, items_in, members_in, Gives};

use crate::fault::ParamsFault;
use crate::pointer::{here, under_index, under_key};
use nf_value::{Pairs, Txt, Vals, Value};
use serde_json::{Map, Number, Value as Json};
use std::alloc::Global;

/// The value of JSON that lies this deep: how many parts its pointer has.
#[cycle(value)]
pub(crate) fn value_of(alloc: Global, json: &Json, depth: u32) -> Result<Value, ParamsFault>
    ensures { Gives plain_of (plain_in depth (view json.now)) result }
{
    if depth > 64 {
        return Err(here(alloc));
    }
    match json {
        Json::Null => Ok(Value::Null),
        Json::Bool(truth) => Ok(Value::Truth(*truth)),
        Json::Number(number) => integer(alloc, number),
        Json::String(text) => Ok(Value::Text(Txt::of(text.clone()?))),
        Json::Array(items) => Ok(Value::List(Vals::of(items_of(alloc, items, depth + 1)?))),
        Json::Object(members) => Ok(Value::Map(pairs_of(alloc, members, depth + 1)?)),
    }
}

fn integer(alloc: Global, number: &Number) -> Result<Value, ParamsFault>
    ensures { Gives plain_of (integer_in (number_view number.now)) result }
{
    match number.as_i64() {
        Some(number) => Ok(Value::Int(number)),
        None => Err(here(alloc)),
    }
}

#[cycle(value)]
fn items_of(alloc: Global, items: &Vec<Json>, depth: u32) -> Result<Vec<Value>, ParamsFault>
    ensures { Gives (λ v. map plain_of v.items) (items_in depth 0 (items_view items.now.items)) result }
{
    let mut values = Vec::new(alloc);
    for (i, item) in items.iter().enumerate() {
        match value_of(alloc, item, depth) {
            Ok(value) => values.push(value)?,
            Err(fault) => return Err(under_index(alloc, i, fault)),
        }
    }
    Ok(values)
}

/// The members of an object that lie this deep, in the order of their keys.
#[cycle(value)]
pub(crate) fn pairs_of(
    alloc: Global,
    members: &Map<String, Json>,
    depth: u32,
) -> Result<Pairs, ParamsFault>
    ensures { Gives (λ ps. ps) (members_in depth (members_view members.now.entries)) result }
{
    let mut pairs = Vec::new(alloc);
    for (key, member) in members.iter() {
        match value_of(alloc, member, depth) {
            Ok(value) => pairs.push((Txt::of(key.clone()?), value))?,
            Err(fault) => return Err(under_key(alloc, key.as_str(), fault)),
        }
    }
    Ok(Pairs::of(pairs))
}
