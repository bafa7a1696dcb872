//! Values and lists that codes spell, and parts of rows.

use anyhow::{Result, bail};
use nf_value::{Vals, Value, text_of};
use std::alloc::Global;

/// The value whose code is this text.
pub(crate) fn value(alloc: Global, code: &str) -> Result<Value> {
    match nf_codec::decode(alloc, code.as_bytes()) {
        Ok((value, len)) if len == code.len() => Ok(value),
        _ => bail!("{code}: no code"),
    }
}

/// The list whose code is this text.
pub(crate) fn list(alloc: Global, code: &str) -> Result<Vals> {
    match value(alloc, code)? {
        Value::List(items) => Ok(items),
        _ => bail!("{code}: no list"),
    }
}

/// A row's two parts.
pub(crate) fn two<'a>(parts: &'a str) -> Result<(&'a str, &'a str)> {
    match parts.split_once(" | ") {
        Some(parts) => Ok(parts),
        None => bail!("{parts}: one part"),
    }
}

/// The text of a list.
pub(crate) fn list_text(alloc: Global, items: Vals) -> Result<String> {
    let text = text_of(alloc, &Value::List(items))?;
    Ok(String::from_str(alloc, text.as_str())?)
}
