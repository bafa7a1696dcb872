//! What an escape in a string or template stands for.

ghost use Rattle.std.specs.Prelude.{◌≡◌, ◌<◌, ◌*◌, ◌+◌, [], ◌∷◌, None, MatchOption, SomeIff, IsTrue};
ghost use Rattle.std.specs.Char.{is_ascii_hexdigit, digit_value};
ghost use Rattle.nf_lexer.specs.Escape.{escape as escape_of, kept as kept_of, escaped as escaped_of, hex_number as hex_number_of, character as character_of, written_or_bad as written_or_bad_of};
ghost use Rattle.nf_lexer.specs.View.{front_view, bits_view};

use crate::fault::LexFault;
use crate::front::{Bit, Front, Part, next};
use crate::open::Change;
use nf_value::Place;

/// An escape, whose backslash stands at `place`, by the bytes after the backslash.
pub fn escape(place: Place, rest: &[u8]) -> Front
    ensures { front_view result ≡ escape_of place rest.now }
{
    match next(rest) {
        None => bad_escape(place),
        Some((b'u', digits)) => written_or_bad(place, character(hex_number(digits)), 6),
        Some((b, _)) => written_or_bad(place, escaped(b), 2),
    }
}

/// A backslash in `/../` or a pattern, where `\/` is the one escape, by the bytes after it.
pub fn kept(rest: &[u8]) -> Front
    ensures { front_view result ≡ kept_of rest.now }
{
    match next(rest) {
        Some((b'/', _)) => Front::Passes(Part::Written(Bit::Char('/')), Change::Keep, 2),
        _ => Front::Passes(Part::Written(Bit::Char('\\')), Change::Keep, 1),
    }
}

fn bad_escape<'a>(place: Place) -> Front<'a>
    ensures { front_view result ≡ written_or_bad_of place None 0 }
{
    Front::Broken(LexFault::BadEscape { place })
}

fn written_or_bad<'a>(place: Place, bit: Option<Bit<'a>>, bytes: usize) -> Front<'a>
    ensures { front_view result ≡ written_or_bad_of place (bits_view bit.entry) bytes }
{
    match bit {
        Some(bit) => Front::Passes(Part::Written(bit), Change::Keep, bytes),
        None => bad_escape(place),
    }
}

/// What a byte after a backslash stands for.
fn escaped<'a>(b: u8) -> Option<Bit<'a>>
    ensures { bits_view result ≡ escaped_of b }
{
    match b {
        b'n' => Some(Bit::Char('\n')),
        b't' => Some(Bit::Char('\t')),
        b'r' => Some(Bit::Char('\r')),
        b'b' => Some(Bit::Char('\u{8}')),
        b'f' => Some(Bit::Char('\u{c}')),
        b'\\' => Some(Bit::Char('\\')),
        b'\'' => Some(Bit::Char('\'')),
        b'"' => Some(Bit::Char('"')),
        b'$' => Some(Bit::Char('$')),
        b'\n' => Some(Bit::Nothing),
        _ => None,
    }
}

/// The character of this number, unless it is a surrogate.
fn character<'a>(number: Option<u32>) -> Option<Bit<'a>>
    requires { MatchOption number (Unit {0}) (λ n. n < 65536) }
    ensures { bits_view result ≡ character_of number }
{
    match char::from_u32(number?) {
        Some(c) => Some(Bit::Char(c)),
        None => None,
    }
}

/// The number of four hexadecimal digits.
fn hex_number(bytes: &[u8]) -> Option<u32>
    ensures is { result ≡ hex_number_of bytes.now }
    ensures within { MatchOption result (Unit {0}) (λ n. n < 65536) }
{
    match bytes {
        [a, b, c, d, ..] => Some(
            4096 * hex_digit(*a)? + 256 * hex_digit(*b)? + 16 * hex_digit(*c)? + hex_digit(*d)?,
        ),
        _ => None,
    }
}

fn hex_digit(b: u8) -> Option<u32>
    ensures is { SomeIff result (IsTrue (is_ascii_hexdigit b)) (digit_value b) }
    ensures within { MatchOption result (Unit {0}) (λ n. n < 16) }
{
    char::from(b).to_digit(16)
}
