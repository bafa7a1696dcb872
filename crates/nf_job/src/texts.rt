//! `Txts`: a list of texts.

ghost use Rattle.std.specs.Prelude.{◌≡◌, IfOk};

use nf_value::{Mem, Txt};
use std::marker::Model;

/// A list of texts. Contracts see the list of their bytes.
pub struct Txts {
    items: Vec<Txt>,
}

impl Drop for Txts {
    fn drop(self) {
        let Txts { items: _ } = self;
    }
}

impl Model for Txts {
    ghost use Rattle.std.specs.Prelude.{List, ℕ};

    ghost Value = { List (List ℕ) };

    ghost view = { λ t. t.items.items };
}

impl Txts {
    /// The list of a vector. Takes no memory.
    pub fn of(items: Vec<Txt>) -> Txts
        ensures { result ≡ items.items }
    {
        Txts { items }
    }

    /// The texts in order. Takes no memory.
    pub fn items(&self) -> &[Txt]
        ensures { result.now ≡ self.now }
    {
        self.items.as_slice()
    }

    /// A copy of the list.
    ///
    /// # Errors
    ///
    /// `Mem` if there is no memory for it.
    pub fn copy(&self) -> Result<Txts, Mem>
        ensures { IfOk result (λ t. t ≡ self.now) }
    {
        let mut copies = Vec::new(*self.items.allocator());
        for item in &self.items {
            copies.push(item.copy()?)?;
        }
        Ok(Txts { items: copies })
    }
}
