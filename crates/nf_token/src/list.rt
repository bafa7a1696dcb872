//! The list of a script's tokens.

ghost use Rattle.std.specs.Prelude.{◌≡◌};

use crate::token::Lexeme;
use nf_value::Place;
use std::marker::Model;

/// The tokens of a script, and the place of its end. Contracts see the pair of both.
pub struct Tokens {
    items: Vec<Lexeme>,
    end: Place,
}

impl Drop for Tokens {
    fn drop(self) {
        let Tokens { items: _, end: _ } = self;
    }
}

impl Model for Tokens {
    ghost use Rattle.std.specs.Prelude.{List};
    ghost use Rattle.nf_value.specs.declared.place.Place.{Place};
    ghost use Rattle.nf_token.specs.declared.token.Lexeme.{Lexeme};

    ghost Value = { List Lexeme × Place };

    ghost view = { λ t. (t.items.items, t.end) };
}

impl Tokens {
    /// These tokens, of a script that ends at this place. Takes no memory.
    pub fn of(items: Vec<Lexeme>, end: Place) -> Tokens
        ensures { result ≡ (items.items, end) }
    {
        Tokens { items, end }
    }

    /// The tokens in order. Takes no memory.
    pub fn items(&self) -> &[Lexeme]
        ensures { result.now ≡ self.now.0 }
    {
        self.items.as_slice()
    }

    /// The place after the script's last byte. Takes no memory.
    pub fn end(&self) -> Place
        ensures { result ≡ self.now.1 }
    {
        self.end
    }
}
