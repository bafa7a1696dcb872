//! Values that JSON spells.

ghost use Rattle.std.specs.Prelude.{◌≡◌, true, IfOk, map};
ghost use Rattle.nf_value.specs.View.{pair_of, rising};

use anyhow::{Result, bail};
use nf_value::{Pairs, Txt, Vals, Value, is_rising};
use serde_json::{Map, Value as Json};
use std::alloc::Global;

/// The value of a text.
pub(crate) fn value(alloc: Global, text: &str) -> Result<Value> {
    match Json::from_str(alloc, text) {
        Ok(json) => value_of(alloc, &json),
        Err(_) => bail!("{text}: no JSON"),
    }
}

#[cycle(value)]
fn value_of(alloc: Global, json: &Json) -> Result<Value> {
    match json {
        Json::Null => Ok(Value::Null),
        Json::Bool(truth) => Ok(Value::Truth(*truth)),
        Json::Number(number) => match number.as_i64() {
            Some(number) => Ok(Value::Int(number)),
            None => bail!("a number that has no 64 signed bits"),
        },
        Json::String(text) => Ok(Value::Text(Txt::of(text.clone()?))),
        Json::Array(items) => Ok(Value::List(Vals::of(values_of(alloc, items)?))),
        Json::Object(members) => Ok(Value::Map(Pairs::of(pairs_of(alloc, members)?))),
    }
}

#[cycle(value)]
fn values_of(alloc: Global, items: &Vec<Json>) -> Result<Vec<Value>> {
    let mut values = Vec::new(alloc);
    for item in items {
        values.push(value_of(alloc, item)?)?;
    }
    Ok(values)
}

#[cycle(value)]
fn pairs_of(alloc: Global, members: &Map<String, Json>) -> Result<Vec<(Txt, Value)>>
    ensures { IfOk result (λ ps. rising (map pair_of ps.items) ≡ true) }
{
    let mut pairs = Vec::new(alloc);
    for (name, member) in members.iter() {
        let name = Txt::of(name.clone()?);
        pairs.push((name, value_of(alloc, member)?))?;
    }
    if !is_rising(pairs.as_slice()) {
        bail!("a map whose keys don't rise");
    }
    Ok(pairs)
}
