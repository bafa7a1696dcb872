//! What stands first in the rest of a script, by what is open there.

ghost use Rattle.std.specs.Prelude.{◌≡◌, ◌<◌, ◌+◌, ◌^◌, [], ◌∷◌, length, MatchOption};
ghost use Rattle.nf_lexer.specs.declared.fault.LexFault.TheVariants.{BadByte};
ghost use Rattle.nf_lexer.specs.First.{first as first_of, in_open as in_open_of, broken_or, fault_at as fault_at_of};
ghost use Rattle.nf_lexer.specs.Front.{finished, broken, checked as checked_of};
ghost use Rattle.nf_lexer.specs.Open.{innermost};
ghost use Rattle.nf_lexer.specs.View.{front_view, part_view};

use crate::code::in_code;
use crate::comment::{in_comment, in_line_comment, in_named_hole};
use crate::fault::LexFault;
use crate::open::{Change, Open, Opened};
use crate::place::further;
use crate::quoted::in_text;
use nf_token::{Mark, PlainKind, TemplateKind};
use nf_value::Place;

/// A token that takes no memory yet: a name or keyword is its bytes.
#[derive(Clone, Copy)]
pub enum Raw<'a> {
    Word(&'a str),
    Number(i64),
    Mark(Mark),
    Separator,
    OpenTemplate(TemplateKind),
    CloseTemplate(TemplateKind),
    OpenHole,
    CloseHole,
}

/// What some bytes of a string or template stand for: nothing, themselves, or one character.
#[derive(Clone, Copy)]
pub enum Bit<'a> {
    Nothing,
    Run(&'a str),
    Char(char),
}

/// What the bytes in front are: of no account, a line end that may separate, bytes of a string, a token, or the end of a string or
/// pattern, whose token is made of the bytes before.
#[derive(Clone, Copy)]
pub enum Part<'a> {
    Silent,
    LineEnd,
    Written(Bit<'a>),
    Lexed(Raw<'a>),
    StringEnd(PlainKind),
    PatternEnd,
}

/// What stands first: a part, what it opens or closes, and its number of bytes; the script's end; or the rule that is broken here.
#[derive(Clone, Copy)]
pub enum Front<'a> {
    Passes(Part<'a>, Change, usize),
    Finished,
    Broken(LexFault),
}

/// What stands first in `bytes`, the rest of a script from `place` on.
#[tactic(auto, unfolding(crate::specs::First::first))]
pub fn first<'a>(opened: &Opened, place: Place, bytes: &'a [u8]) -> Front<'a>
    requires { place.col + length bytes.now < 2 ^ 32 }
    ensures { front_view result ≡ first_of opened.now place bytes.now }
{
    let Some((b, rest)) = next(bytes) else {
        return at_end(opened.end_fault());
    };
    match fault_at(opened, b) {
        Some(fault) => Front::Broken(fault),
        None => in_open(opened, place, b, rest, bytes),
    }
}

/// The first byte, and those after it.
pub fn next(bytes: &[u8]) -> Option<(u8, &[u8])>
    ensures { MatchOption result (bytes.now ≡ []) (λ x. bytes.now ≡ x.0 ∷ x.1.now) }
{
    match bytes {
        [] => None,
        [b, rest @ ..] => Some((*b, rest)),
    }
}

/// These bytes are this part, unless they aren't UTF-8. They stand at this place, on one line.
pub fn checked<'a>(place: Place, bytes: &'a [u8], part: Part<'a>, change: Change) -> Front<'a>
    requires { place.col + length bytes.now < 2 ^ 32 }
    ensures { front_view result ≡ checked_of place bytes.now (part_view part.entry) change }
{
    match str::from_utf8(bytes) {
        Ok(_) => Front::Passes(part, change, bytes.len()),
        Err(error) => bad_byte(further(place, error.valid_up_to())),
    }
}

pub fn bad_byte<'a>(place: Place) -> Front<'a>
    ensures { front_view result ≡ broken (BadByte place) }
{
    Front::Broken(LexFault::BadByte { place })
}

fn at_end<'a>(fault: Option<LexFault>) -> Front<'a>
    ensures { front_view result ≡ broken_or fault finished }
{
    match fault {
        Some(fault) => Front::Broken(fault),
        None => Front::Finished,
    }
}

/// The rule that this byte breaks, where it is a line end.
fn fault_at(opened: &Opened, b: u8) -> Option<LexFault>
    ensures { result ≡ fault_at_of b opened.now }
{
    if b == b'\n' {
        opened.line_fault()
    } else {
        None
    }
}

/// What stands first, by the innermost that is open.
fn in_open<'a>(opened: &Opened, place: Place, b: u8, rest: &'a [u8], bytes: &'a [u8]) -> Front<'a>
    requires whole { bytes.now ≡ b ∷ rest.now }
    requires col { place.col + length bytes.now < 2 ^ 32 }
    ensures { front_view result ≡ in_open_of (innermost opened.now) opened.now place b rest.now }
{
    match opened.innermost() {
        Some(Open::NamedHole) => in_named_hole(b, rest, bytes),
        Some(Open::LineComment) => in_line_comment(place, bytes),
        Some(Open::Comment(_)) => in_comment(place, b, rest, bytes),
        Some(Open::Text(kind, _)) => in_text(kind, place, b, rest, bytes),
        _ => in_code(opened, place, b, rest, bytes),
    }
}
