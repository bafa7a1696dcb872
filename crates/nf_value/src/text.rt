//! Texts in UTF-8.

ghost use Rattle.std.specs.Prelude.{◌≡◌, IfOk, string_bytes};

use crate::mem::Mem;
use std::marker::Model;

/// A text in UTF-8. Contracts see its bytes.
pub struct Txt {
    text: String,
}

impl Drop for Txt {
    fn drop(self) {
        let Txt { text: _ } = self;
    }
}

impl Model for Txt {
    ghost use Rattle.std.specs.Prelude.{List, ℕ, string_bytes};

    ghost Value = { List ℕ };

    ghost view = { λ t. string_bytes t.text };
}

impl Txt {
    /// The text of a string. Takes no memory.
    pub fn of(text: String) -> Txt
        ensures { result ≡ string_bytes text }
    {
        Txt { text }
    }

    /// The text as std knows it. Takes no memory.
    pub fn as_str(&self) -> &str
        ensures { result.now ≡ self.now }
    {
        self.text.as_str()
    }

    /// Another text of the same bytes.
    ///
    /// # Errors
    ///
    /// `Mem` where there is no memory for it.
    pub fn copy(&self) -> Result<Txt, Mem>
        ensures { IfOk result (λ t. t ≡ self.now) }
    {
        let text = self.text.clone()?;
        Ok(Txt { text })
    }
}
