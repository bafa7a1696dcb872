//! The parts of rows.

use anyhow::{Context, Result, bail};
use nf_codec::decode;
use nf_tasks::Target;
use nf_value::{Digest, Txt, Vals, Value};
use sha2::{Digest as Hasher, Sha256};
use std::alloc::Global;

/// Both parts of a row.
pub(crate) fn two(row: &str) -> (&str, &str) {
    match row.split_once('|') {
        Some((first, second)) => (first.trim(), second.trim()),
        None => (row.trim(), ""),
    }
}

/// The parts of `PATH=TEXT` or `TEXT=BYTES`.
pub(crate) fn sides(part: &str) -> Result<(&str, &str)> {
    part.trim().split_once('=').context("no `=`")
}

/// The digest of a text.
pub(crate) fn digest(text: &str) -> Digest {
    Digest(Sha256::digest(text.as_bytes()))
}

/// The targets, with commas between them.
pub(crate) fn targets(alloc: Global, row: &str) -> Result<Vec<Target>> {
    let mut targets = Vec::new(alloc);
    if row.is_empty() {
        return Ok(targets);
    }
    for part in row.split(',') {
        targets.push(target(alloc, part)?)?;
    }
    Ok(targets)
}

fn target(alloc: Global, part: &str) -> Result<Target> {
    let (path, text) = sides(part)?;
    Ok(Target {
        name: Txt::of(String::from_str(alloc, path)?),
        digest: digest(text),
    })
}

/// The views, with `&` between them.
pub(crate) fn views(alloc: Global, row: &str) -> Result<Vec<Vals>> {
    let mut views = Vec::new(alloc);
    if row.is_empty() {
        return Ok(views);
    }
    for code in row.split('&') {
        views.push(list(alloc, code.trim())?)?;
    }
    Ok(views)
}

fn list(alloc: Global, code: &str) -> Result<Vals> {
    match decode(alloc, code.as_bytes()) {
        Ok((Value::List(list), _)) => Ok(list),
        _ => bail!("{code}: no list"),
    }
}

/// The hexadecimal digits of a digest.
pub(crate) fn hex_of(alloc: Global, digest: &Digest) -> Result<String> {
    Ok(hex::encode(alloc, digest.0.as_slice())?)
}
