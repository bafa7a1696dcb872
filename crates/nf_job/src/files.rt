//! `FileRefs`: a list of files.

ghost use Rattle.std.specs.Prelude.{◌≡◌, IfOk};

use nf_value::{FileRef, Mem};
use std::marker::Model;

/// A list of files. Contracts see the list of their names, digests and lengths.
pub struct FileRefs {
    items: Vec<FileRef>,
}

impl Drop for FileRefs {
    fn drop(self) {
        let FileRefs { items: _ } = self;
    }
}

impl Model for FileRefs {
    ghost use Rattle.std.specs.Prelude.{List};
    ghost use Rattle.nf_value.specs.declared.file.FileRef.{FileRef};

    ghost Value = { List FileRef };

    ghost view = { λ f. f.items.items };
}

impl FileRefs {
    /// The list of a vector. Takes no memory.
    pub fn of(items: Vec<FileRef>) -> FileRefs
        ensures { result ≡ items.items }
    {
        FileRefs { items }
    }

    /// The files in order. Takes no memory.
    pub fn items(&self) -> &[FileRef]
        ensures { result.now ≡ self.now }
    {
        self.items.as_slice()
    }

    /// A copy of the list.
    ///
    /// # Errors
    ///
    /// `Mem` if there is no memory for it.
    pub fn copy(&self) -> Result<FileRefs, Mem>
        ensures { IfOk result (λ f. f ≡ self.now) }
    {
        let mut copies = Vec::new(*self.items.allocator());
        for item in &self.items {
            copies.push(item.copy()?)?;
        }
        Ok(FileRefs { items: copies })
    }
}
