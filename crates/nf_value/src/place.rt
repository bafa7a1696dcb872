//! Places in a script.

ghost use Rattle.std.specs.Prelude.{◌≡◌, Some};
ghost use Rattle.nf_value.specs.Place.{place_text};

use std::fmt;

/// A place in a script (own). Lines and columns count from 1, and a column counts bytes. Displayed as `LINE:COL`.
#[derive(Debug, Clone, Copy, PartialEq, Eq)]
pub struct Place {
    /// The line.
    pub line: u32,
    /// The byte in the line.
    pub col: u32,
}

impl fmt::Display for Place {
    ghost output = { λ p. Some (place_text p.line p.col) };

    fn fmt<W: fmt::Write>(&self, f: &mut fmt::Formatter<W>) -> fmt::Result {
        let line = self.line;
        let col = self.col;
        write!(f, "{line}:{col}")
    }
}
