//! What a row asks for.

use crate::parts::add_part;
use crate::text::text;
use anyhow::{Result, bail};
use nf_host::{MemHost, MemSink};
use std::alloc::Global;

/// Steps after each other, what is around the first of them, how the calls are made, and the paths of files that are shown
/// after the last.
#[derive(Drop)]
pub(crate) struct Row {
    pub(crate) steps: Vec<Step>,
    pub(crate) shown: Vec<String>,
    pub(crate) way: Way,
    pub(crate) host: MemHost,
    pub(crate) sink: MemSink,
}

/// What is done with the files that the steps before left.
#[derive(Drop)]
pub(crate) enum Step {
    /// A call with these words.
    Call(Vec<String>),
    /// The folder at this path is taken away.
    Clear(String),
    /// The lanes of the calls behind it answer from what the records hold.
    Table,
}

/// How the calls of a row are made.
#[derive(Clone, Copy, Drop)]
pub(crate) struct Way {
    /// Each lane holds its first run until a second one's begins.
    pub(crate) lanes_meet: bool,
    /// `meet` is the only function, and its first call waits for a second.
    pub(crate) calls_meet: bool,
    /// The node whose takes before its first give are counted.
    pub(crate) counted: Option<u32>,
}

/// The row that a line spells: `WORDS «SCRIPT»` or `WORDS`, and parts, each after `; `.
pub(crate) fn read_row(alloc: Global, line: &str) -> Result<Row> {
    let mut row = Row {
        steps: Vec::new(alloc),
        shown: Vec::new(alloc),
        way: Way {
            lanes_meet: false,
            calls_meet: false,
            counted: None,
        },
        host: MemHost::new(alloc),
        sink: MemSink::new(alloc),
    };
    let (words, parts) = first_part(line);
    match words.split_once('«') {
        Some((words, script)) => {
            add_call(alloc, &mut row, words)?;
            add_script(alloc, &mut row, script)?;
        }
        None => add_call(alloc, &mut row, words)?,
    }
    let mut left = parts;
    for _ in 0..line.len() {
        if left.is_empty() {
            break;
        }
        let (part, rest) = first_part(left);
        add_part(alloc, &mut row, part)?;
        left = rest;
    }
    Ok(row)
}

/// What stands before the first `; ` that is in no text, and what stands behind it.
fn first_part(line: &str) -> (&str, &str) {
    let mut depth = 0u32;
    for (at, character) in line.char_indices() {
        match character {
            '«' => depth = depth.saturating_add(1),
            '»' => depth = depth.saturating_sub(1),
            ';' if depth == 0 => return (
                &line[..at],
                line.get(at + 1..).unwrap_or("").trim_start(),
            ),
            _ => {}
        }
    }
    (line, "")
}

/// Adds a call with these words, whose pictures are read.
pub(crate) fn add_call(alloc: Global, row: &mut Row, words: &str) -> Result<()> {
    let mut call = Vec::new(alloc);
    for word in words.split_whitespace() {
        call.push(text(alloc, word)?)?;
    }
    row.steps.push(Step::Call(call))?;
    Ok(())
}

/// Puts the script into the host.
fn add_script(alloc: Global, row: &mut Row, rest: &str) -> Result<()> {
    let Some((script, _)) = rest.split_once('»') else {
        bail!("{rest}: no end");
    };
    let script = text(alloc, script)?;
    row.host.put("a.nf", script.as_bytes())?;
    Ok(())
}
