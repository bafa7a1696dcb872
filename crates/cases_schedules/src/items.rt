//! Parts of lines: items, lists of inputs, kinds of faults.

use crate::values::value;
use anyhow::{Result, bail};
use nf_value::{EvalFault, EvalKind, Place, Txt, Vals, Value};
use std::alloc::Global;

/// The value of a text: JSON, or `text LENGTH`.
pub(crate) fn item(alloc: Global, text: &str) -> Result<Value> {
    match text.strip_prefix("text ") {
        None => value(alloc, text),
        Some(length) => long_text(alloc, length.parse::<usize>()?),
    }
}

fn long_text(alloc: Global, length: usize) -> Result<Value> {
    let mut text = String::new(alloc);
    for _ in 0..length {
        text.push('x')?;
    }
    Ok(Value::Text(Txt::of(text)))
}

/// The values of a text, with semicolons between them.
pub(crate) fn items(alloc: Global, text: &str) -> Result<Vals> {
    let mut items = Vec::new(alloc);
    if !text.is_empty() {
        for given in text.split(';') {
            items.push(item(alloc, given.trim())?)?;
        }
    }
    Ok(Vals::of(items))
}

/// The list that a text spells.
pub(crate) fn list(alloc: Global, text: &str) -> Result<Vals> {
    match value(alloc, text)? {
        Value::List(items) => Ok(items),
        _ => bail!("{text}: no list"),
    }
}

/// The text of a JSON string.
pub(crate) fn text(alloc: Global, given: &str) -> Result<Txt> {
    match value(alloc, given)? {
        Value::Text(text) => Ok(text),
        _ => bail!("{given}: no text"),
    }
}

/// The fault of that kind. Its place says nothing.
pub(crate) fn fault(kind: &str) -> Result<EvalFault> {
    let kind = match kind {
        "DivZero" => EvalKind::DivZero,
        "WrongKind" => EvalKind::WrongKind,
        "Overflow" => EvalKind::Overflow,
        _ => bail!("{kind}: no kind of fault"),
    };
    Ok(EvalFault {
        kind,
        place: Place { line: 1, col: 1 },
    })
}

/// A place or a number of 32 bits.
pub(crate) fn small(number: usize) -> Result<u32> {
    match u32::try_from(number) {
        Ok(number) => Ok(number),
        Err(_) => bail!("{number}: too many"),
    }
}
