//! `Report`: how one attempt at a job ended.

ghost use Rattle.std.specs.Prelude.{◌≡◌, IfOk};

use crate::found::Found;
use nf_value::{Mem, Txt};

/// A task's standard output as it was kept (own).
pub enum Captured {
    /// It wasn't wanted.
    None,
    /// It isn't UTF-8, or has more than 1,048,576 bytes.
    Bad,
    /// Its text.
    Text(Txt),
}

impl Drop for Captured {
    fn drop(self) {
        match self {
            Captured::None | Captured::Bad | Captured::Text(_) => {}
        }
    }
}

impl Captured {
    /// A copy of it.
    ///
    /// # Errors
    ///
    /// `Mem` if there is no memory for the text.
    pub fn copy(&self) -> Result<Captured, Mem>
        ensures { IfOk result (λ c. c ≡ self.now) }
    {
        match self {
            Captured::None => Ok(Captured::None),
            Captured::Bad => Ok(Captured::Bad),
            Captured::Text(text) => Ok(Captured::Text(text.copy()?)),
        }
    }
}

/// How one attempt at a job ended (own).
pub struct Report {
    /// The exit status; 255 if a signal ended the child.
    pub exit: i32,
    /// The standard output.
    pub captured: Captured,
    /// The files that it left, one list for each pattern.
    pub found: Found,
}

impl Drop for Report {
    fn drop(self) {
        let Report {
            exit: _,
            captured: _,
            found: _,
        } = self;
    }
}

impl Report {
    /// A copy of the report.
    ///
    /// # Errors
    ///
    /// `Mem` if there is no memory for it.
    pub fn copy(&self) -> Result<Report, Mem>
        ensures { IfOk result (λ r. r ≡ self.now) }
    {
        let captured = self.captured.copy()?;
        let found = self.found.copy()?;
        Ok(Report {
            exit: self.exit,
            captured,
            found,
        })
    }
}
