//! Texts and places for the tests.

use nf_value::{Mem, Place, Txt};
use std::alloc::Global;

/// A place in the first line.
pub const PLACE: Place = Place { line: 1, col: 3 };

/// A text.
pub fn txt(alloc: Global, text: &str) -> Result<Txt, Mem> {
    Ok(Txt::of(String::from_str(alloc, text)?))
}
