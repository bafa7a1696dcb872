//! The text that is printed so far, and what can be added to it: a token, a string, a blank, a line end.

ghost use Rattle.std.specs.Prelude.{◌≡◌, [], ◌∷◌, ◌++◌, OnOk, if◌then◌else◌};
ghost use Rattle.nf_writer.specs.Ink as ink;
ghost use Rattle.nf_writer.specs.Ink.{inked, escaped, with_letter, spaced};
ghost use Rattle.nf_writer.specs.Styles.{kind_of};

use crate::escapes::{Style, letter};
use crate::spellings::{keyword_text, mark_text};
use itoa::Buffer;
use nf_token::{Keyword, Mark, PlainKind, TemplateKind};
use nf_value::{Mem, Txt};
use std::alloc::Global;
use std::marker::Model;

/// The text of a script while it is printed. Contracts see its bytes.
///
/// Each method adds at the end, and gives `Mem` where there is no memory for that; how much of it was added then is not said.
#[derive(Drop)]
pub struct Writer {
    bytes: Vec<u8>,
}

impl Model for Writer {
    ghost use Rattle.std.specs.Prelude.{List, ℕ};

    ghost Value = { List ℕ };

    ghost view = { λ w. w.bytes.items };
}

impl Writer {
    /// Nothing is printed yet.
    pub fn new(alloc: Global) -> Writer
        ensures { result ≡ [] }
    {
        Writer {
            bytes: Vec::new(alloc),
        }
    }

    /// All that was printed.
    pub fn into_bytes(self) -> Vec<u8>
        ensures { result.items ≡ self }
    {
        let Writer { bytes } = self;
        bytes
    }

    /// These bytes, as they are.
    fn put(&mut self, text: &[u8]) -> Result<(), Mem>
        ensures { OnOk result (self.new ≡ self.old ++ text.now) }
    {
        self.bytes.extend_from_slice(text)?;
        Ok(())
    }

    /// A mark: `(`, `,`, `->` and their like.
    pub fn mark(&mut self, mark: Mark) -> Result<(), Mem>
        ensures { OnOk result (self.new ≡ self.old ++ inked (ink.mark mark ∷ [])) }
    {
        self.put(mark_text(mark).as_bytes())
    }

    /// A keyword.
    pub fn keyword(&mut self, keyword: Keyword) -> Result<(), Mem>
        ensures { OnOk result (self.new ≡ self.old ++ inked (ink.keyword keyword ∷ [])) }
    {
        self.put(keyword_text(keyword).as_bytes())
    }

    /// A name.
    pub fn name(&mut self, name: &str) -> Result<(), Mem>
        ensures { OnOk result (self.new ≡ self.old ++ inked (ink.name name.now ∷ [])) }
    {
        self.put(name.as_bytes())
    }

    /// A number, in decimal digits.
    pub fn number(&mut self, number: i64) -> Result<(), Mem>
        ensures { OnOk result (self.new ≡ self.old ++ inked (ink.number number ∷ [])) }
    {
        let mut buffer = Buffer::new();
        self.put(buffer.format(number).as_bytes())
    }

    /// A blank.
    pub fn blank(&mut self) -> Result<(), Mem>
        ensures { OnOk result (self.new ≡ self.old ++ inked (ink.blank ∷ [])) }
    {
        self.put(b" ")
    }

    /// A line end, and the blanks that the next line begins with.
    pub fn line(&mut self, margin: &[u8]) -> Result<(), Mem>
        ensures { OnOk result (self.new ≡ self.old ++ inked (ink.line margin.now ∷ [])) }
    {
        self.put(b"\n")?;
        self.put(margin)
    }

    /// A `;`, without its blank.
    pub fn separator(&mut self) -> Result<(), Mem>
        ensures { OnOk result (self.new ≡ self.old ++ inked (ink.separator ∷ [])) }
    {
        self.put(b";")
    }

    /// A mark with a blank on both sides.
    pub fn spaced(&mut self, mark: Mark) -> Result<(), Mem>
        ensures { OnOk result (self.new ≡ self.old ++ inked (spaced (ink.mark mark))) }
    {
        self.blank()?;
        self.mark(mark)?;
        self.blank()
    }

    /// A keyword with a blank on both sides.
    pub fn spaced_keyword(&mut self, keyword: Keyword) -> Result<(), Mem>
        ensures { OnOk result (self.new ≡ self.old ++ inked (spaced (ink.keyword keyword))) }
    {
        self.blank()?;
        self.keyword(keyword)?;
        self.blank()
    }

    /// A byte as it is, or a backslash and this letter in its place.
    fn byte(&mut self, byte: u8, letter: Option<u8>) -> Result<(), Mem>
        ensures { OnOk result (self.new ≡ self.old ++ with_letter byte letter) }
    {
        match letter {
            None => self.put(&[byte]),
            Some(letter) => self.put(&[b'\\', letter]),
        }
    }

    /// The bytes of a string, each as it is or escaped.
    fn escaped(&mut self, style: Style, on_line: bool, text: &[u8]) -> Result<(), Mem>
        ensures { OnOk result (self.new ≡ self.old ++ escaped (kind_of style) on_line text.now) }
    {
        for byte in text {
            self.byte(*byte, letter(style, on_line, *byte))?;
        }
        Ok(())
    }

    /// A string between its quotes. `text` is what the string stands for; where `on_line`, a line end in it is printed as `\n`.
    pub fn plain(&mut self, kind: PlainKind, on_line: bool, text: &Txt) -> Result<(), Mem>
        ensures { OnOk result (self.new ≡ self.old ++ inked (ink.plain kind on_line text.now ∷ [])) }
    {
        let style = Style::Plain(kind);
        self.put(style.closing().as_bytes())?;
        self.escaped(style, on_line, text.as_str().as_bytes())?;
        self.put(style.closing().as_bytes())
    }

    /// A pattern, `~/../`. `text` is what it stands for.
    pub fn pattern(&mut self, text: &Txt) -> Result<(), Mem>
        ensures { OnOk result (self.new ≡ self.old ++ inked (ink.pattern text.now ∷ [])) }
    {
        self.put(b"~/")?;
        self.escaped(Style::Pattern, true, text.as_str().as_bytes())?;
        self.put(b"/")
    }

    /// The quotes that open a template.
    pub fn open_template(&mut self, kind: TemplateKind) -> Result<(), Mem>
        ensures { OnOk result (self.new ≡ self.old ++ inked (ink.open_template kind ∷ [])) }
    {
        self.put(Style::Template(kind).closing().as_bytes())
    }

    /// The quotes that close a template.
    pub fn close_template(&mut self, kind: TemplateKind) -> Result<(), Mem>
        ensures { OnOk result (self.new ≡ self.old ++ inked (ink.close_template kind ∷ [])) }
    {
        self.put(Style::Template(kind).closing().as_bytes())
    }

    /// A text of a template, outside its holes; where `on_line`, a line end in it is printed as `\n`.
    pub fn template_text(
        &mut self,
        kind: TemplateKind,
        on_line: bool,
        text: &Txt,
    ) -> Result<(), Mem>
        ensures { OnOk result (self.new ≡ self.old ++ inked (ink.template_text kind on_line text.now ∷ [])) }
    {
        self.escaped(Style::Template(kind), on_line, text.as_str().as_bytes())
    }

    /// The `${` of a hole.
    pub fn open_hole(&mut self) -> Result<(), Mem>
        ensures { OnOk result (self.new ≡ self.old ++ inked (ink.open_hole ∷ [])) }
    {
        self.put(b"${")
    }

    /// The `}` of a hole.
    pub fn close_hole(&mut self) -> Result<(), Mem>
        ensures { OnOk result (self.new ≡ self.old ++ inked (ink.close_hole ∷ [])) }
    {
        self.put(b"}")
    }

    /// A `(` where `brackets` holds, else nothing.
    pub fn open_round(&mut self, brackets: bool) -> Result<(), Mem>
        ensures { OnOk result (self.new ≡ self.old ++ inked (if brackets then ink.mark Mark.OpenRound ∷ [] else [])) }
    {
        if brackets {
            self.mark(Mark::OpenRound)?;
        }
        Ok(())
    }

    /// A `)` where `brackets` holds, else nothing.
    pub fn close_round(&mut self, brackets: bool) -> Result<(), Mem>
        ensures { OnOk result (self.new ≡ self.old ++ inked (if brackets then ink.mark Mark.CloseRound ∷ [] else [])) }
    {
        if brackets {
            self.mark(Mark::CloseRound)?;
        }
        Ok(())
    }
}
