//! What stands first in strings, patterns and templates.

ghost use Rattle.std.specs.Prelude.{◌≡◌, ◌<◌, ◌≤◌, ◌+◌, ◌^◌, [], ◌∷◌, length, take_while, if◌then◌else◌};
ghost use Rattle.std.specs.List.{prefix_len};
ghost use Rattle.nf_lexer.specs.Bytes.{is_special as is_special_of, is_ordinary};
ghost use Rattle.nf_lexer.specs.Escape.{escape as escape_of, kept as kept_of};
ghost use Rattle.nf_lexer.specs.First.{in_text as in_text_of, ended as ended_of, has_escapes as has_escapes_of, has_holes as has_holes_of, hole as hole_of};
ghost use Rattle.nf_lexer.specs.Front.{written, passes, checked};
ghost use Rattle.nf_token.specs.Spellings.{closing as closing_of};
ghost use Rattle.nf_lexer.specs.View.{front_view, part_view};
ghost use Rattle.nf_lexer.specs.declared.open.Change.TheVariants.{Keep};

use crate::escape::{escape, kept};
use crate::front::{Bit, Front, Part, Raw, bad_byte, next};
use crate::open::{Change, Open};
use crate::place::further;
use crate::word::begins_name;
use nf_token::{PlainKind, TemplateKind, TextKind};
use nf_value::Place;

/// What stands first in a string, pattern or template of this kind.
#[tactic(auto, unfolding(crate::specs::First::in_text))]
pub fn in_text<'a>(
    kind: TextKind,
    place: Place,
    b: u8,
    rest: &'a [u8],
    bytes: &'a [u8],
) -> Front<'a>
    requires whole { bytes.now ≡ b ∷ rest.now }
    requires col { place.col + length bytes.now < 2 ^ 32 }
    ensures { front_view result ≡ in_text_of kind place b rest.now }
{
    if bytes.starts_with(closing(kind)) {
        Front::Passes(ended(kind), Change::Leave, closing(kind).len())
    } else if b == b'\\' {
        backslash(kind, place, rest)
    } else if b == b'$' && has_holes(kind) {
        hole(rest)
    } else if is_special(b) {
        itself(b)
    } else {
        run(place, bytes)
    }
}

/// The bytes that close a string, pattern or template of this kind.
pub fn closing(kind: TextKind) -> &'static [u8]
    ensures { result.now ≡ closing_of kind }
{
    match kind {
        TextKind::Plain(PlainKind::Single) => b"'",
        TextKind::Plain(PlainKind::TripleSingle) => b"'''",
        TextKind::Plain(PlainKind::Slashes) | TextKind::Pattern => b"/",
        TextKind::Template(TemplateKind::Double) => b"\"",
        TextKind::Template(TemplateKind::TripleDouble) => b"\"\"\"",
    }
}

fn ended<'a>(kind: TextKind) -> Part<'a>
    ensures { part_view result ≡ ended_of kind }
{
    match kind {
        TextKind::Plain(kind) => Part::StringEnd(kind),
        TextKind::Pattern => Part::PatternEnd,
        TextKind::Template(kind) => Part::Lexed(Raw::CloseTemplate(kind)),
    }
}

fn has_escapes(kind: TextKind) -> bool
    ensures { result ≡ has_escapes_of kind }
{
    !matches!(
        kind,
        TextKind::Plain(PlainKind::Slashes) | TextKind::Pattern
    )
}

fn has_holes(kind: TextKind) -> bool
    ensures { result ≡ has_holes_of kind }
{
    matches!(kind, TextKind::Template(_))
}

/// What a backslash stands for, with the bytes after it.
fn backslash(kind: TextKind, place: Place, rest: &[u8]) -> Front
    ensures { front_view result ≡ (if has_escapes_of kind then escape_of place rest.now else kept_of rest.now) }
{
    if has_escapes(kind) {
        escape(place, rest)
    } else {
        kept(rest)
    }
}

/// After a `$` in a template: a hole `${` or `$name`, or the `$` itself.
fn hole(rest: &[u8]) -> Front
    ensures { front_view result ≡ hole_of rest.now }
{
    match next(rest) {
        Some((b'{', _)) => Front::Passes(Part::Lexed(Raw::OpenHole), Change::Enter(Open::Hole), 2),
        Some((b, _)) if begins_name(b) => {
            Front::Passes(
                Part::Lexed(Raw::OpenHole),
                Change::Enter(Open::NamedHole),
                1,
            )
        }
        _ => itself(b'$'),
    }
}

fn is_special(b: u8) -> bool
    ensures { result ≡ is_special_of b }
{
    matches!(b, b'\n' | b'"' | b'$' | b'\'' | b'/' | b'\\')
}

/// One ASCII byte that stands for itself.
fn itself<'a>(b: u8) -> Front<'a>
    requires { b < 128 }
    ensures { front_view result ≡ passes (written (b ∷ [])) Keep 1 }
{
    Front::Passes(Part::Written(Bit::Char(char::from(b))), Change::Keep, 1)
}

/// All bytes up to one that may mean something else. They stand for themselves.
fn run(place: Place, bytes: &[u8]) -> Front
    requires { place.col + length bytes.now < 2 ^ 32 }
    ensures { let w = take_while is_ordinary bytes.now in front_view result ≡ checked place w (written w) Keep }
{
    let (run, _) = bytes.split_at(run_len(bytes));
    match str::from_utf8(run) {
        Ok(run) => Front::Passes(Part::Written(Bit::Run(run)), Change::Keep, run.len()),
        Err(error) => bad_byte(further(place, error.valid_up_to())),
    }
}

/// The number of bytes up to one that may mean something else.
fn run_len(bytes: &[u8]) -> usize
    ensures is { result ≡ prefix_len is_ordinary bytes.now }
    ensures within { result ≤ length bytes.now }
{
    bytes.iter().take_while(|b| !is_special(**b)).count()
}
