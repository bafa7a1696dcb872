//! How values compare.

use crate::values::list;
use anyhow::{Result, bail};
use nf_value::Value;
use std::alloc::Global;
use std::cmp::Ordering;

/// For each value of a list a word, in which a mark for each value of the list tells how the first compares with the second: `<`, `=` or `>`.
pub(crate) fn order(alloc: Global, parts: &str) -> Result<String> {
    let values = list(alloc, parts)?;
    let mut marks = String::new(alloc);
    for value in values.items() {
        if !marks.is_empty() {
            marks.push(' ')?;
        }
        push_marks(&mut marks, value, values.items())?;
    }
    Ok(marks)
}

/// How a copy of the value compares with each of the others.
fn push_marks(marks: &mut String, value: &Value, others: &[Value]) -> Result<()> {
    let copy = value.copy()?;
    for other in others {
        marks.push(mark(&copy, other)?)?;
    }
    Ok(())
}

fn mark(value: &Value, other: &Value) -> Result<char> {
    match (value.cmp(other), value == other) {
        (Ordering::Less, false) => Ok('<'),
        (Ordering::Equal, true) => Ok('='),
        (Ordering::Greater, false) => Ok('>'),
        _ => bail!("order and equality disagree"),
    }
}
