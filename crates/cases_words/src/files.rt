//! Parameter files.

use crate::shown::shown_pairs;
use anyhow::{Context, Result, bail};
use nf_params::{ParamsFault, params_of, params_over};
use nf_value::Pairs;
use std::alloc::Global;

/// What the bytes of a file give.
pub(crate) fn file(alloc: Global, bytes: &[u8]) -> Result<String> {
    match params_of(alloc, bytes) {
        Ok(pairs) => shown_pairs(alloc, &pairs),
        Err(ParamsFault::BadParams { pointer }) => Ok(format!(in alloc;
            "BadParams {:?}",
            pointer.as_str()
        )?),
        Err(ParamsFault::Mem) => bail!("no memory"),
    }
}

/// The same of bytes in hexadecimal.
pub(crate) fn bytes(alloc: Global, digits: &str) -> Result<String> {
    match hex::decode(alloc, digits) {
        Ok(bytes) => file(alloc, &bytes),
        Err(_) => bail!("{digits}: no bytes"),
    }
}

/// As many `[` as is said and as many `]`, under the key `a`.
pub(crate) fn nested(alloc: Global, count: &str) -> Result<String> {
    let count = count.parse::<u16>()?;
    let text = brackets(alloc, count, "")?;
    file(alloc, text.as_bytes())
}

/// A number in so many lists, under the key `a`.
pub(crate) fn deep(alloc: Global, count: &str) -> Result<String> {
    let count = count.parse::<u16>()?;
    let text = brackets(alloc, count, "7")?;
    file(alloc, text.as_bytes())
}

fn brackets(alloc: Global, count: u16, inner: &str) -> Result<String> {
    let mut text = String::from_str(alloc, "{\"a\":")?;
    for _ in 0..count {
        text.push_str("[")?;
    }
    text.push_str(inner)?;
    for _ in 0..count {
        text.push_str("]")?;
    }
    text.push_str("}")?;
    Ok(text)
}

/// Which of the parameters of a script, of a file and of the command line win, each written as a file.
pub(crate) fn over(alloc: Global, parts: &str) -> Result<String> {
    let (script, rest) = parts.split_once(" | ").context("no file")?;
    let (given, words) = rest.split_once(" | ").context("no words")?;
    let pairs = params_over(
        pairs(alloc, script)?,
        pairs(alloc, given)?,
        pairs(alloc, words)?,
    )?;
    shown_pairs(alloc, &pairs)
}

fn pairs(alloc: Global, text: &str) -> Result<Pairs> {
    match params_of(alloc, text.as_bytes()) {
        Ok(pairs) => Ok(pairs),
        Err(_) => bail!("{text}: no parameters"),
    }
}
