//! `Table`: what rows say of stored files and of children.

use crate::attempts::{after, part};
use crate::reports::unquoted;
use anyhow::{Context, Result};
use nf_host::{Child, MemHost};
use nf_shell::stored_path;
use nf_value::{Bytes, Digest, Txt};
use sha2::{Digest as Hasher, Sha256};
use std::alloc::Global;

/// The work folder of each run.
pub(crate) const WORK: &str = "work";

/// The files that the file store has, and what children do, as rows.
#[derive(Drop)]
pub(crate) struct Table {
    stored: Vec<String>,
    children: Vec<String>,
}

impl Table {
    pub(crate) fn new(alloc: Global) -> Table {
        Table {
            stored: Vec::new(alloc),
            children: Vec::new(alloc),
        }
    }

    /// Adds what `stored: ROW` says.
    pub(crate) fn add_stored(&mut self, alloc: Global, row: &str) -> Result<()> {
        self.stored.push(String::from_str(alloc, row)?)?;
        Ok(())
    }

    /// Adds what `child: ROW` says.
    pub(crate) fn add_child(&mut self, alloc: Global, row: &str) -> Result<()> {
        self.children.push(String::from_str(alloc, row)?)?;
        Ok(())
    }

    /// A host in memory with all of it.
    pub(crate) fn host(&self, alloc: Global) -> Result<MemHost> {
        let mut host = MemHost::new(alloc);
        for row in &self.stored {
            store(alloc, &mut host, row.as_str())?;
        }
        for row in &self.children {
            add_child(alloc, &mut host, row.as_str())?;
        }
        Ok(host)
    }
}

/// `TEXT`: a file of this text stands in its place.
fn store(alloc: Global, host: &mut MemHost, row: &str) -> Result<()> {
    let text = unquoted(alloc, row)?;
    let digest = Digest(Sha256::digest(text.as_str().as_bytes()));
    put(alloc, host, &digest, text.as_str())
}

fn put(alloc: Global, host: &mut MemHost, digest: &Digest, text: &str) -> Result<()> {
    let path = stored_path(alloc, WORK, digest)?;
    host.put(path.as_str(), text.as_bytes())?;
    Ok(())
}

/// `SCRIPT | STATUS | FILES`: what a child with this script writes, and how it ends.
fn add_child(alloc: Global, host: &mut MemHost, row: &str) -> Result<()> {
    let script = unquoted(alloc, part(row))?;
    let status = part(after(row)).parse::<u8>()?;
    let files = files(alloc, part(after(after(row))))?;
    host.add_child(script.as_str().as_bytes(), Child { status, files })?;
    Ok(())
}

/// Files with `, ` between them; none in an empty text.
fn files(alloc: Global, text: &str) -> Result<Vec<(Txt, Bytes)>> {
    let mut files = Vec::new(alloc);
    if text.is_empty() {
        return Ok(files);
    }
    for part in text.split(',') {
        files.push(file(alloc, part.trim())?)?;
    }
    Ok(files)
}

/// `NAME TEXT`: a file of this name and text.
fn file(alloc: Global, row: &str) -> Result<(Txt, Bytes)> {
    let (name, text) = row.split_once(' ').context("no text of a file")?;
    let name = Txt::of(String::from_str(alloc, name)?);
    let text = unquoted(alloc, text)?;
    let bytes = Bytes::of(Vec::from_slice(alloc, text.as_str().as_bytes())?);
    Ok((name, bytes))
}
