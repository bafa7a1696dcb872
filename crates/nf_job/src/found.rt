//! `Found`: the files that a task left.

ghost use Rattle.std.specs.Prelude.{◌≡◌, IfOk};

use crate::files::FileRefs;
use nf_value::Mem;
use std::marker::Model;

/// The files that a task left: one list for each pattern of the process's outputs, in the order of the patterns.
pub struct Found {
    items: Vec<FileRefs>,
}

impl Drop for Found {
    fn drop(self) {
        let Found { items: _ } = self;
    }
}

impl Model for Found {
    ghost use Rattle.std.specs.Prelude.{List};
    ghost use Rattle.nf_value.specs.declared.file.FileRef.{FileRef};

    ghost Value = { List (List FileRef) };

    ghost view = { λ f. f.items.items };
}

impl Found {
    /// The lists of a vector. Takes no memory.
    pub fn of(items: Vec<FileRefs>) -> Found
        ensures { result ≡ items.items }
    {
        Found { items }
    }

    /// The lists in order. Takes no memory.
    pub fn items(&self) -> &[FileRefs]
        ensures { result.now ≡ self.now }
    {
        self.items.as_slice()
    }

    /// A copy of the lists.
    ///
    /// # Errors
    ///
    /// `Mem` if there is no memory for it.
    pub fn copy(&self) -> Result<Found, Mem>
        ensures { IfOk result (λ f. f ≡ self.now) }
    {
        let mut copies = Vec::new(*self.items.allocator());
        for item in &self.items {
            copies.push(item.copy()?)?;
        }
        Ok(Found { items: copies })
    }
}
