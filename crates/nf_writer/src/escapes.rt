//! How each byte of a string is printed: as it is, or as a backslash and a letter (own).

ghost use Rattle.std.specs.Prelude.{◌≡◌, ◌==◌, ◌||◌, if◌then◌else◌};
ghost use Rattle.nf_token.specs.Spellings.{closing};
ghost use Rattle.nf_writer.specs.Ink.{letter as letter_of, blank_letter as blank_letter_of, line_letter as line_letter_of};
ghost use Rattle.nf_writer.specs.Styles.{kind_of};

use nf_token::{PlainKind, TemplateKind};

/// What kind of string is printed.
#[derive(Clone, Copy)]
pub enum Style {
    /// A plain string of a kind.
    Plain(PlainKind),
    /// A pattern.
    Pattern,
    /// A template of a kind.
    Template(TemplateKind),
}

impl Style {
    /// The quotes that close it. They open it too; a pattern has a `~` before them.
    pub fn closing(self) -> &'static str
        ensures { result.now ≡ closing (kind_of self) }
    {
        match self {
            Style::Plain(PlainKind::Single) => "'",
            Style::Plain(PlainKind::TripleSingle) => "'''",
            Style::Plain(PlainKind::Slashes) => "/",
            Style::Pattern => "/",
            Style::Template(TemplateKind::Double) => "\"",
            Style::Template(TemplateKind::TripleDouble) => "\"\"\"",
        }
    }
}

/// The letter that stands after a backslash for this byte, or none where the byte is printed as it is: `n` for a line end in single
/// quotes, the byte itself for a `$` of a template or a `/` of a pattern. Where `on_line`, the string must not go over a line end.
pub fn letter(style: Style, on_line: bool, byte: u8) -> Option<u8>
    ensures { result ≡ letter_of (kind_of style) on_line byte }
{
    match style {
        Style::Plain(PlainKind::Single) => {
            if is_single_special(byte) {
                Some(byte)
            } else {
                blank_letter(byte)
            }
        }
        Style::Plain(PlainKind::TripleSingle) => {
            if is_single_special(byte) {
                Some(byte)
            } else {
                line_letter(on_line, byte)
            }
        }
        Style::Plain(PlainKind::Slashes) | Style::Pattern => slash_letter(byte),
        Style::Template(TemplateKind::Double) => {
            if is_double_special(byte) {
                Some(byte)
            } else {
                blank_letter(byte)
            }
        }
        Style::Template(TemplateKind::TripleDouble) => {
            if is_double_special(byte) {
                Some(byte)
            } else {
                line_letter(on_line, byte)
            }
        }
    }
}

/// A backslash or `'`, which single quotes always escape.
fn is_single_special(byte: u8) -> bool
    ensures { result ≡ (byte == 92 || byte == 39) }
{
    byte == b'\\' || byte == b'\''
}

/// A backslash, `"` or `$`, which templates always escape.
fn is_double_special(byte: u8) -> bool
    ensures { result ≡ (byte == 92 || byte == 34 || byte == 36) }
{
    byte == b'\\' || byte == b'"' || byte == b'$'
}

/// A line end, a tab and a carriage return, in strings that stand on one line.
fn blank_letter(byte: u8) -> Option<u8>
    ensures { result ≡ blank_letter_of byte }
{
    match byte {
        b'\n' => Some(b'n'),
        b'\t' => Some(b't'),
        b'\r' => Some(b'r'),
        _ => None,
    }
}

/// A line end in triple quotes: as it is, unless the string has to stay on its line.
fn line_letter(on_line: bool, byte: u8) -> Option<u8>
    ensures { result ≡ line_letter_of on_line byte }
{
    if on_line && byte == b'\n' {
        Some(b'n')
    } else {
        None
    }
}

/// Between slashes only `/` is escaped.
fn slash_letter(byte: u8) -> Option<u8>
    ensures { result ≡ (if byte == 47 then Some byte else None) }
{
    if byte == b'/' { Some(byte) } else { None }
}
