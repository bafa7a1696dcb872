//! Values as they are shown: texts in quotes.

use anyhow::Result;
use nf_value::{Pairs, Value};
use std::alloc::Global;

/// The parameters, as `{NAME: VALUE, ..}`.
pub(crate) fn shown_pairs(alloc: Global, pairs: &Pairs) -> Result<String> {
    let mut text = String::from_str(alloc, "{")?;
    let mut is_first = true;
    for (name, value) in pairs.items() {
        if !is_first {
            text.push_str(", ")?;
        }
        is_first = false;
        text.push_str(name.as_str())?;
        text.push_str(": ")?;
        text.push_str(shown(alloc, value)?.as_str())?;
    }
    text.push_str("}")?;
    Ok(text)
}

/// A value. Texts alone stand in quotes; texts within lists and maps don't.
fn shown(alloc: Global, value: &Value) -> Result<String> {
    let text = nf_value::text_of(alloc, value)?;
    let text = text.as_str();
    match value {
        Value::Text(_) => Ok(format!(in alloc; "{text:?}")?),
        _ => Ok(String::from_str(alloc, text)?),
    }
}
