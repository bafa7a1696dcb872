//! `Damage`: a file of the store that isn't what it should be.

ghost use Rattle.std.specs.Prelude.{◌≡◌, IfOk};
ghost use Rattle.nf_shell.specs.Damages.{found_digest};

use crate::store::found_digest;
use nf_host::Digested;
use nf_value::{Digest, FileRef, Mem, Txt};

/// A file that was to be put into a job's folder, and whose stored bytes aren't those that were due (own).
pub struct Damage {
    /// The file's name.
    pub name: Txt,
    /// The digest that was due.
    pub due: Digest,
    /// The digest that was found; none if the stored file is absent, or longer than a file may be.
    pub found: Option<Digest>,
}

impl Drop for Damage {
    fn drop(self) {
        let Damage {
            name: _,
            due: _,
            found: _,
        } = self;
    }
}

impl Damage {
    // The damage of a file, whose stored bytes came to this.
    pub(crate) fn of(file: &FileRef, found: Digested) -> Result<Damage, Mem>
        ensures name { IfOk result (λ d. d.name ≡ file.now.name) }
        ensures due { IfOk result (λ d. d.due ≡ file.now.digest) }
        ensures found { IfOk result (λ d. d.found ≡ found_digest found) }
    {
        Ok(Damage {
            name: file.name.copy()?,
            due: file.digest,
            found: found_digest(found),
        })
    }
}
