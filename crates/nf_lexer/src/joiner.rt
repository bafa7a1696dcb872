//! Joins the bytes of strings, patterns and templates into their texts.

ghost use Rattle.std.specs.Prelude.{◌≡◌, [], ◌∷◌, List, None, OnOk, IfOk};
ghost use Rattle.nf_lexer.specs.Front.{written, lexed, string_end, pattern_end};
ghost use Rattle.nf_lexer.specs.Joined.{Placed, at, nothing, text, joined, more, text_before};
ghost use Rattle.nf_lexer.specs.Separators.{Segment, settled};
ghost use Rattle.nf_lexer.specs.View.{outcome, joined_outcome, held_view, bit_view, raw_view, part_view};
ghost use Rattle.std.specs.String.{string_bytes};

use crate::front::{Bit, Part, Raw};
use crate::settler::Settler;
use crate::word::token_of;
use nf_token::{Lexeme, PlainKind, Token};
use nf_value::{Mem, Place, Txt};
use std::alloc::Global;

/// The bytes so far of a string, pattern or template's text, and where it begins.
#[derive(Drop)]
pub struct Holding {
    pub start: Place,
    pub text: String,
}

/// The tokens so far, and the text that isn't complete.
#[derive(Drop)]
pub struct Joiner {
    pub settler: Settler,
    pub held: Option<Holding>,
}

impl Joiner {
    pub fn new(alloc: Global) -> Joiner
        ensures { (rest : List Placed) → joined_outcome result rest ≡ settled [] (joined nothing rest) }
    {
        Joiner {
            settler: Settler::new(alloc),
            held: None,
        }
    }

    /// Takes a part.
    pub fn part(&mut self, alloc: Global, part: Part, place: Place) -> Result<(), Mem>
        ensures { OnOk result ((rest : List Placed) → joined_outcome self.new rest ≡ joined_outcome self.old (at (part_view part.entry) place ∷ rest)) }
    {
        match part {
            Part::Silent => Ok(()),
            Part::LineEnd => {
                self.settler.line_end(place);
                Ok(())
            }
            Part::Written(bit) => self.written(alloc, bit, place),
            Part::Lexed(raw) => self.lexed(alloc, raw, place),
            Part::StringEnd(kind) => self.string_end(alloc, kind, place),
            Part::PatternEnd => self.pattern_end(alloc, place),
        }
    }

    /// The tokens of all parts that it took.
    pub fn finish(self) -> Result<Vec<Lexeme>, Mem>
        ensures { IfOk result (λ v. v.items ≡ joined_outcome self []) }
    {
        self.settler.finish()
    }

    fn written(&mut self, alloc: Global, bit: Bit, place: Place) -> Result<(), Mem>
        ensures { OnOk result ((rest : List Placed) → joined_outcome self.new rest ≡ joined_outcome self.old (at (written (bit_view bit.entry)) place ∷ rest)) }
    {
        let mut held = self.take(alloc, place);
        match bit {
            Bit::Nothing => {}
            Bit::Run(run) => held.text.push_str(run)?,
            Bit::Char(c) => held.text.push(c)?,
        }
        self.held = Some(held);
        Ok(())
    }

    fn lexed(&mut self, alloc: Global, raw: Raw, place: Place) -> Result<(), Mem>
        ensures { OnOk result ((rest : List Placed) → joined_outcome self.new rest ≡ joined_outcome self.old (at (lexed (raw_view raw.entry)) place ∷ rest)) }
    {
        let token = token_of(alloc, raw)?;
        self.settle_text()?;
        self.settler.token(Lexeme { token, place })
    }

    fn string_end(&mut self, alloc: Global, kind: PlainKind, place: Place) -> Result<(), Mem>
        ensures { OnOk result ((rest : List Placed) → joined_outcome self.new rest ≡ joined_outcome self.old (at (string_end kind) place ∷ rest)) }
    {
        let held = self.take(alloc, place);
        self.settler.token(Lexeme {
            token: Token::Plain(kind, Txt::of(held.text)),
            place: held.start,
        })
    }

    fn pattern_end(&mut self, alloc: Global, place: Place) -> Result<(), Mem>
        ensures { OnOk result ((rest : List Placed) → joined_outcome self.new rest ≡ joined_outcome self.old (at pattern_end place ∷ rest)) }
    {
        let held = self.take(alloc, place);
        self.settler.token(Lexeme {
            token: Token::Pattern(Txt::of(held.text)),
            place: held.start,
        })
    }

    /// Takes out the text that is held, or an empty one that begins here.
    fn take(&mut self, alloc: Global, place: Place) -> Holding
        ensures text { text result.start (string_bytes result.text) ≡ more (held_view self.old.held) place [] }
        ensures held { self.new.held ≡ None }
        ensures settler { self.new.settler ≡ self.old.settler }
    {
        match self.held.take() {
            Some(held) => held,
            None => Holding {
                start: place,
                text: String::new(alloc),
            },
        }
    }

    /// Where a template's text ends here: its token, unless it is empty.
    fn settle_text(&mut self) -> Result<(), Mem>
        ensures held { OnOk result (self.new.held ≡ None) }
        ensures outcome { OnOk result ((rest : List Segment) → outcome self.new.settler rest ≡ outcome self.old.settler (text_before (held_view self.old.held) rest)) }
    {
        if let Some(held) = self.held.take() {
            if !held.text.is_empty() {
                self.settler.token(Lexeme {
                    token: Token::TemplateText(Txt::of(held.text)),
                    place: held.start,
                })?;
            }
        }
        Ok(())
    }
}
