//! Replaces each `from` in a text by `to`.

ghost use Rattle.std.specs.Prelude.{◌≡◌, ◌<◌, ◌^◌, IfOk, string_bytes, length, min};
ghost use Rattle.nf_texts.specs.Texts.{replaced as replaced_of};

use crate::limits::capped_len;
use std::alloc::{AllocError, Global};

/// The number of bytes of the text with each `from` replaced, `LONGEST` at most.
pub fn replaced_len(text: &str, from: &str, to: &str) -> u64
    requires { 0 < length from.now }
    ensures { result ≡ min (length (replaced_of from.now to.now text.now)) (2 ^ 32) }
{
    let mut len = 0;
    let mut left = text;
    while let Some((front, rest)) = left.split_once(from) {
        let before = capped_len(len, front.len());
        len = capped_len(before, to.len());
        left = rest;
    }
    capped_len(len, left.len())
}

/// The text with each `from` replaced by `to`, from left to right.
pub fn replaced(alloc: Global, text: &str, from: &str, to: &str) -> Result<String, AllocError>
    requires { 0 < length from.now }
    ensures { IfOk result (λ s. string_bytes s ≡ replaced_of from.now to.now text.now) }
{
    let mut out = String::new(alloc);
    let mut left = text;
    while let Some((front, rest)) = left.split_once(from) {
        out.push_str(front)?;
        out.push_str(to)?;
        left = rest;
    }
    out.push_str(left)?;
    Ok(out)
}
