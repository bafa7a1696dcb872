//! Texts of rows. A picture such as `␊` stands for a byte that a line can't have or doesn't show, and `⟨x×3⟩` for `xxx`.

use anyhow::{Result, bail};
use std::alloc::Global;

/// The text that a row spells.
pub(crate) fn text(alloc: Global, row: &str) -> Result<String> {
    let mut out = String::new(alloc);
    for piece in row.split('⟨') {
        match piece.split_once('⟩') {
            Some((repeated, after)) => {
                add_repeated(&mut out, repeated)?;
                add(&mut out, after)?;
            }
            None => add(&mut out, piece)?,
        }
    }
    Ok(out)
}

/// Adds `xxx` for `x×3`.
fn add_repeated(out: &mut String, repeated: &str) -> Result<()> {
    let Some((part, count)) = repeated.split_once('×') else {
        bail!("{repeated}: no count");
    };
    let Ok(count) = count.parse::<u32>() else {
        bail!("{count}: no number");
    };
    for _ in 0..count {
        add(out, part)?;
    }
    Ok(())
}

/// Adds a part with the bytes that its pictures stand for.
fn add(out: &mut String, part: &str) -> Result<()> {
    for character in part.chars() {
        out.push(match character {
            '␀' => '\0',
            '␈' => '\u{8}',
            '␉' => '\t',
            '␊' => '\n',
            '␌' => '\u{c}',
            '␍' => '\r',
            character => character,
        })?;
    }
    Ok(())
}

/// The text with the pictures of these bytes.
pub(crate) fn pictured(alloc: Global, text: &str) -> Result<String> {
    let mut out = String::new(alloc);
    for character in text.chars() {
        out.push(match character {
            '\0' => '␀',
            '\u{8}' => '␈',
            '\t' => '␉',
            '\n' => '␊',
            '\u{c}' => '␌',
            '\r' => '␍',
            character => character,
        })?;
    }
    Ok(out)
}
