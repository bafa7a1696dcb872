//! Files and values in rows and in answers.

use anyhow::{Context, Result, bail};
use nf_codec::decode;
use nf_job::{FileRefs, Found};
use nf_value::{Digest, FileRef, Txt, Vals, Value, text_of};
use std::alloc::Global;

/// The items of a list that stands as its code.
pub(crate) fn list(alloc: Global, code: &str) -> Result<Vals> {
    match decode(alloc, code.as_bytes()) {
        Ok((Value::List(list), _)) => Ok(list),
        _ => bail!("{code}: no list"),
    }
}

/// Lists of files, with `; ` between them; none in an empty text.
pub(crate) fn found(alloc: Global, text: &str) -> Result<Found> {
    let mut lists = Vec::new(alloc);
    if text.is_empty() {
        return Ok(Found::of(lists));
    }
    for part in text.split(';') {
        lists.push(files(alloc, part.trim())?)?;
    }
    Ok(Found::of(lists))
}

fn files(alloc: Global, text: &str) -> Result<FileRefs> {
    let mut files = Vec::new(alloc);
    if text.is_empty() {
        return Ok(FileRefs::of(files));
    }
    for part in text.split(',') {
        files.push(file(alloc, part.trim())?)?;
    }
    Ok(FileRefs::of(files))
}

/// `NAME@K`: a file of K bytes, whose digest has K in each byte.
fn file(alloc: Global, text: &str) -> Result<FileRef> {
    let (name, number) = text.split_once('@').context("no `@` in a file")?;
    let number = number.parse::<u8>()?;
    Ok(FileRef {
        name: Txt::of(String::from_str(alloc, name)?),
        digest: Digest([number; 32]),
        len: u64::from(number),
    })
}

/// The text of each value, in double quotes.
pub(crate) fn push_texts(alloc: Global, shown: &mut String, values: &[Value]) -> Result<()> {
    for value in values {
        let text = text_of(alloc, value)?;
        let text = text.as_str();
        write!(shown, " {text:?}")?;
    }
    Ok(())
}

/// The names of files, after `, stages`; nothing where there are none.
pub(crate) fn push_names(shown: &mut String, files: &[FileRef]) -> Result<()> {
    if !files.is_empty() {
        shown.push_str(", stages")?;
    }
    for file in files {
        let name = file.name.as_str();
        write!(shown, " {name}")?;
    }
    Ok(())
}
