//! What stands first in comments and in holes `$name`.

ghost use Rattle.std.specs.Prelude.{◌≡◌, ◌<◌, ◌≤◌, ◌+◌, ◌^◌, [], ◌∷◌, length};
ghost use Rattle.std.specs.List.{prefix_len};
ghost use Rattle.nf_lexer.specs.Bytes.{is_not_line_feed, is_in_comment as is_in_comment_of};
ghost use Rattle.nf_lexer.specs.First.{in_comment as in_comment_of, in_line_comment as in_line_comment_of, in_named_hole as in_named_hole_of, star as star_of};
ghost use Rattle.nf_lexer.specs.View.{front_view};

use crate::front::{Front, Part, Raw, checked, next};
use crate::open::Change;
use crate::word::{begins_name, begins_property, word};
use nf_token::Mark;
use nf_value::Place;

/// In a comment `//`, or in a first line that is skipped: all up to the line's end.
pub fn in_line_comment(place: Place, bytes: &[u8]) -> Front
    requires { place.col + length bytes.now < 2 ^ 32 }
    ensures { front_view result ≡ in_line_comment_of place bytes.now }
{
    let (line, _) = bytes.split_at(line_len(bytes));
    checked(place, line, Part::Silent, Change::Leave)
}

/// The number of bytes before the line's end.
fn line_len(bytes: &[u8]) -> usize
    ensures is { result ≡ prefix_len is_not_line_feed bytes.now }
    ensures within { result ≤ length bytes.now }
{
    bytes.iter().take_while(|b| **b != b'\n').count()
}

/// In a comment `/*`: its end, a line end, or bytes up to the next `*` or line end.
pub fn in_comment<'a>(place: Place, b: u8, rest: &'a [u8], bytes: &'a [u8]) -> Front<'a>
    requires whole { bytes.now ≡ b ∷ rest.now }
    requires col { place.col + length bytes.now < 2 ^ 32 }
    ensures { front_view result ≡ in_comment_of place b rest.now }
{
    if b == b'*' {
        star(rest)
    } else if b == b'\n' {
        Front::Passes(Part::Silent, Change::Keep, 1)
    } else {
        let (run, _) = bytes.split_at(comment_len(bytes));
        checked(place, run, Part::Silent, Change::Keep)
    }
}

/// After a `*` in a comment, which a `/` ends.
fn star(rest: &[u8]) -> Front
    ensures { front_view result ≡ star_of rest.now }
{
    match next(rest) {
        Some((b'/', _)) => Front::Passes(Part::Silent, Change::Leave, 2),
        _ => Front::Passes(Part::Silent, Change::Keep, 1),
    }
}

/// The number of bytes before the next `*` or line end.
fn comment_len(bytes: &[u8]) -> usize
    ensures is { result ≡ prefix_len is_in_comment_of bytes.now }
    ensures within { result ≤ length bytes.now }
{
    bytes.iter().take_while(|b| is_in_comment(**b)).count()
}

fn is_in_comment(b: u8) -> bool
    ensures { result ≡ is_in_comment_of b }
{
    !(b == b'\n' || b == b'*')
}

/// In a hole `$name`: a name or keyword, a `.` before a name, or the end of the hole.
pub fn in_named_hole<'a>(b: u8, rest: &'a [u8], bytes: &'a [u8]) -> Front<'a>
    requires { bytes.now ≡ b ∷ rest.now }
    ensures { front_view result ≡ in_named_hole_of b rest.now }
{
    if begins_name(b) {
        word(bytes)
    } else if b == b'.' && begins_property(rest) {
        Front::Passes(Part::Lexed(Raw::Mark(Mark::Dot)), Change::Keep, 1)
    } else {
        Front::Passes(Part::Lexed(Raw::CloseHole), Change::Leave, 0)
    }
}
