//! What stands first outside strings, templates and comments.

ghost use Rattle.std.specs.Prelude.{◌≡◌, [], ◌∷◌};
ghost use Rattle.nf_lexer.specs.Bytes.{is_blank as is_blank_of};
ghost use Rattle.nf_lexer.specs.First.{in_code as in_code_of, line_item, opens, quote as quote_of, slash as slash_of, tilde as tilde_of, begun as begun_of};
ghost use Rattle.nf_lexer.specs.Front.{passes};
ghost use Rattle.nf_lexer.specs.declared.open.Change.TheVariants.{Keep};
ghost use Rattle.nf_lexer.specs.View.{front_view, part_view};

use crate::front::{Bit, Front, Part, Raw, bad_byte, next};
use crate::marks::marked;
use crate::open::{Change, Open, Opened};
use crate::quoted::closing;
use crate::word::{begins_name, number, word};
use nf_token::{PlainKind, TemplateKind, TextKind};
use nf_value::Place;

/// What stands first where a token may begin.
#[tactic(auto, unfolding(crate::specs::First::in_code))]
pub fn in_code<'a>(
    opened: &Opened,
    place: Place,
    b: u8,
    rest: &'a [u8],
    bytes: &'a [u8],
) -> Front<'a>
    requires { bytes.now ≡ b ∷ rest.now }
    ensures { front_view result ≡ in_code_of opened.now place b rest.now }
{
    if is_blank(b) {
        Front::Passes(Part::Silent, Change::Keep, 1)
    } else if b == b'\n' {
        line_end(opened)
    } else if b == b';' {
        Front::Passes(Part::Lexed(Raw::Separator), Change::Keep, 1)
    } else if begins_name(b) {
        word(bytes)
    } else if b.is_ascii_digit() {
        number(place, bytes)
    } else if b == b'\'' {
        quote(
            TextKind::Plain(PlainKind::TripleSingle),
            TextKind::Plain(PlainKind::Single),
            place,
            bytes,
        )
    } else if b == b'"' {
        quote(
            TextKind::Template(TemplateKind::TripleDouble),
            TextKind::Template(TemplateKind::Double),
            place,
            bytes,
        )
    } else if b == b'/' {
        slash(place, rest)
    } else if b == b'~' {
        tilde(place, rest)
    } else {
        marked(opened, place, bytes)
    }
}

fn is_blank(b: u8) -> bool
    ensures { result ≡ is_blank_of b }
{
    b == b' ' || b == b'\t' || b == b'\r'
}

/// A line end. Where a bracket other than `{` is innermost it is a blank.
fn line_end<'a>(opened: &Opened) -> Front<'a>
    ensures { front_view result ≡ passes (line_item opened.now) Keep 1 }
{
    let part = if opened.let_lines_end() {
        Part::LineEnd
    } else {
        Part::Silent
    };
    Front::Passes(part, Change::Keep, 1)
}

/// A string, pattern or template opens here; its quotes have so many bytes.
fn text<'a>(kind: TextKind, place: Place, bytes: usize) -> Front<'a>
    ensures { front_view result ≡ opens kind place bytes }
{
    Front::Passes(begun(kind), Change::Enter(Open::Text(kind, place)), bytes)
}

/// The opening of a template is a token; that of a string or pattern begins its text.
fn begun<'a>(kind: TextKind) -> Part<'a>
    ensures { part_view result ≡ begun_of kind }
{
    match kind {
        TextKind::Template(kind) => Part::Lexed(Raw::OpenTemplate(kind)),
        _ => Part::Written(Bit::Nothing),
    }
}

/// A string or template, with three quotes or one.
fn quote<'a>(triple: TextKind, single: TextKind, place: Place, bytes: &'a [u8]) -> Front<'a>
    ensures { front_view result ≡ quote_of triple single place bytes.now }
{
    if bytes.starts_with(closing(triple)) {
        text(triple, place, 3)
    } else {
        text(single, place, 1)
    }
}

/// After a `/`: a comment, or a string `/../`.
fn slash(place: Place, rest: &[u8]) -> Front
    ensures { front_view result ≡ slash_of place rest.now }
{
    match next(rest) {
        Some((b'/', _)) => Front::Passes(Part::Silent, Change::Enter(Open::LineComment), 2),
        Some((b'*', _)) => Front::Passes(Part::Silent, Change::Enter(Open::Comment(place)), 2),
        _ => text(TextKind::Plain(PlainKind::Slashes), place, 1),
    }
}

/// After a `~`: a pattern, or a byte that begins no token.
fn tilde(place: Place, rest: &[u8]) -> Front
    ensures { front_view result ≡ tilde_of place rest.now }
{
    match next(rest) {
        Some((b'/', _)) => text(TextKind::Pattern, place, 2),
        _ => bad_byte(place),
    }
}
