//! Bags of values.

use crate::values::{list, list_text, two, value};
use anyhow::Result;
use nf_bag::{count_of, same_bag};
use std::alloc::Global;

/// The values of a list in order.
pub(crate) fn sorted(alloc: Global, parts: &str) -> Result<String> {
    let items = nf_bag::sorted(list(alloc, parts)?)?;
    list_text(alloc, items)
}

/// The distinct values of a list in order.
pub(crate) fn distinct(alloc: Global, parts: &str) -> Result<String> {
    let items = nf_bag::distinct(list(alloc, parts)?)?;
    list_text(alloc, items)
}

/// How often a list has a value: `VALUE | LIST`.
pub(crate) fn count(alloc: Global, parts: &str) -> Result<String> {
    let (counted, items) = two(parts)?;
    let counted = value(alloc, counted)?;
    let items = list(alloc, items)?;
    let count = count_of(&items, &counted);
    Ok(format!(in alloc; "{count}")?)
}

/// Whether two lists hold the same values equally often: `LIST | LIST`.
pub(crate) fn is_same(alloc: Global, parts: &str) -> Result<String> {
    let (first, other) = two(parts)?;
    let first = list(alloc, first)?;
    let other = list(alloc, other)?;
    let is_same = same_bag(&first, &other);
    Ok(format!(in alloc; "{is_same}")?)
}
