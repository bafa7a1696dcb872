//! Bytes.

ghost use Rattle.std.specs.Prelude.{◌≡◌, IfOk};

use crate::mem::Mem;
use std::marker::Model;

/// Any bytes, UTF-8 or not. Contracts see their list.
pub struct Bytes {
    items: Vec<u8>,
}

impl Drop for Bytes {
    fn drop(self) {
        let Bytes { items: _ } = self;
    }
}

impl Model for Bytes {
    ghost use Rattle.std.specs.Prelude.{List, ℕ};

    ghost Value = { List ℕ };

    ghost view = { λ b. b.items.items };
}

impl Bytes {
    /// The bytes of a vector. Takes no memory.
    pub fn of(items: Vec<u8>) -> Bytes
        ensures { result ≡ items.items }
    {
        Bytes { items }
    }

    /// The bytes in order. Takes no memory.
    pub fn items(&self) -> &[u8]
        ensures { result.now ≡ self.now }
    {
        self.items.as_slice()
    }

    /// The vector that holds them. Takes no memory.
    pub fn into_items(self) -> Vec<u8>
        ensures { result.items ≡ self }
    {
        let Bytes { items } = self;
        items
    }

    /// Other bytes, equal to these.
    ///
    /// # Errors
    ///
    /// `Mem` where there is no memory for them.
    pub fn copy(&self) -> Result<Bytes, Mem>
        ensures { IfOk result (λ b. b ≡ self.now) }
    {
        let items = self.items.clone()?;
        Ok(Bytes { items })
    }
}
