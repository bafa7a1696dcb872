//! Files as values.

ghost use Rattle.std.specs.Prelude.{◌≡◌, IfOk};

use crate::mem::Mem;
use crate::text::Txt;
use std::alloc::Global;
use std::marker::Model;

/// A SHA-256 digest (FIPS 180-4): its 32 bytes in the order in which that standard writes them.
#[derive(Clone, Copy, Drop)]
pub struct Digest(pub [u8; 32]);

/// A file as a value: its name and what is in it (own). The folder that it lies in isn't part of the value.
pub struct FileRef {
    /// The last part of the path.
    pub name: Txt,
    /// The digest of the bytes.
    pub digest: Digest,
    /// How many bytes there are.
    pub len: u64,
}

impl Drop for FileRef {
    fn drop(self) {
        let FileRef {
            name: _,
            digest: _,
            len: _,
        } = self;
    }
}

impl FileRef {
    /// Another value for the same file.
    ///
    /// # Errors
    ///
    /// `Mem` where there is no memory for its name.
    pub fn copy(&self) -> Result<FileRef, Mem>
        ensures { IfOk result (λ f. f ≡ self.now) }
    {
        let name = self.name.copy()?;
        Ok(FileRef {
            name,
            digest: self.digest,
            len: self.len,
        })
    }
}

/// A file as a value holds it: in memory of its own, so that a value takes no more than its other kinds need. Contracts see the file.
pub struct FileBox {
    file: Box<FileRef>,
}

impl Drop for FileBox {
    fn drop(self) {
        let FileBox { file: _ } = self;
    }
}

impl Model for FileBox {
    ghost use Rattle.nf_value.specs.declared.file.FileRef.{FileRef};

    ghost Value = { FileRef };

    ghost view = { λ b. b.file.value };
}

impl FileBox {
    /// Holds a file.
    ///
    /// # Errors
    ///
    /// `Mem` where there is no memory for it.
    pub fn new(alloc: Global, file: FileRef) -> Result<FileBox, Mem>
        ensures { IfOk result (λ b. b ≡ file) }
    {
        let file = Box::new(alloc, file)?;
        Ok(FileBox { file })
    }

    /// The file. Takes no memory.
    pub fn file(&self) -> &FileRef
        ensures { result.now ≡ self.now }
    {
        self.file.as_ref()
    }

    /// Another value for the same file.
    ///
    /// # Errors
    ///
    /// `Mem` where there is no memory for it.
    pub fn copy(&self) -> Result<FileBox, Mem>
        ensures { IfOk result (λ b. b ≡ self.now) }
    {
        let file = self.file.as_ref().copy()?;
        FileBox::new(*Box::allocator(&self.file), file)
    }
}
