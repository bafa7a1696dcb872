//! The longest mark in front, and what it opens or closes.

ghost use Rattle.std.specs.Prelude.{◌≡◌, [], ◌∷◌, Some};
ghost use Rattle.nf_lexer.specs.Mark.{mark as mark_of, mark_or, past, brace_token as brace_token_of, mark_token as mark_token_of, mark_change as mark_change_of, leaves_round as leaves_round_of, leaves_square as leaves_square_of, marked as marked_of};
ghost use Rattle.nf_lexer.specs.View.{front_view, raw_view};

use crate::front::{Front, Part, Raw, bad_byte, next};
use crate::open::{Change, Open, Opened};
use nf_token::Mark;
use nf_value::Place;

/// The longest mark in front, with what it opens or closes.
pub fn marked<'a>(opened: &Opened, place: Place, bytes: &'a [u8]) -> Front<'a>
    ensures { front_view result ≡ marked_of opened.now place (mark_of bytes.now) }
{
    match mark(bytes) {
        Some((mark, len)) => Front::Passes(
            Part::Lexed(mark_token(mark, opened)),
            mark_change(mark, opened),
            len,
        ),
        None => bad_byte(place),
    }
}

fn mark_token<'a>(mark: Mark, opened: &Opened) -> Raw<'a>
    ensures { raw_view result ≡ mark_token_of mark opened.now }
{
    match mark {
        Mark::CloseBrace => brace_token(opened.nearest()),
        _ => Raw::Mark(mark),
    }
}

/// The token of a `}`, by the nearest brace or hole.
fn brace_token<'a>(nearest: Option<Open>) -> Raw<'a>
    ensures { raw_view result ≡ brace_token_of nearest }
{
    match nearest {
        Some(Open::Hole) => Raw::CloseHole,
        _ => Raw::Mark(Mark::CloseBrace),
    }
}

fn mark_change(mark: Mark, opened: &Opened) -> Change
    ensures { result ≡ mark_change_of mark opened.now }
{
    match mark {
        Mark::OpenRound => Change::Enter(Open::Round),
        Mark::OpenSquare => Change::Enter(Open::Square),
        Mark::OpenBrace => Change::Enter(Open::Brace),
        Mark::CloseRound => leaves_round(opened.innermost()),
        Mark::CloseSquare => leaves_square(opened.innermost()),
        Mark::CloseBrace => Change::LeaveBrace,
        _ => Change::Keep,
    }
}

fn leaves_round(innermost: Option<Open>) -> Change
    ensures { result ≡ leaves_round_of innermost }
{
    match innermost {
        Some(Open::Round) => Change::Leave,
        _ => Change::Keep,
    }
}

fn leaves_square(innermost: Option<Open>) -> Change
    ensures { result ≡ leaves_square_of innermost }
{
    match innermost {
        Some(Open::Square) => Change::Leave,
        _ => Change::Keep,
    }
}

/// The longest mark in front, and how many bytes it has.
#[tactic(auto, unfolding(crate::specs::Mark::mark))]
fn mark(bytes: &[u8]) -> Option<(Mark, usize)>
    ensures { result ≡ mark_of bytes.now }
{
    let Some((b, rest)) = next(bytes) else {
        return None;
    };
    match b {
        b'(' => Some((Mark::OpenRound, 1)),
        b')' => Some((Mark::CloseRound, 1)),
        b'[' => Some((Mark::OpenSquare, 1)),
        b']' => Some((Mark::CloseSquare, 1)),
        b'{' => Some((Mark::OpenBrace, 1)),
        b'}' => Some((Mark::CloseBrace, 1)),
        b',' => Some((Mark::Comma, 1)),
        b':' => Some((Mark::Colon, 1)),
        b'+' => Some((Mark::Plus, 1)),
        b'*' => Some((Mark::Times, 1)),
        b'%' => Some((Mark::Percent, 1)),
        b'.' => one_or_two(Mark::Dot, b'.', Mark::DotDot, rest),
        b'-' => one_or_two(Mark::Minus, b'>', Mark::Arrow, rest),
        b'=' => equals(rest),
        b'<' => one_or_two(Mark::Less, b'=', Mark::AtMost, rest),
        b'>' => one_or_two(Mark::Greater, b'=', Mark::AtLeast, rest),
        b'!' => one_or_two(Mark::Not, b'=', Mark::Differs, rest),
        b'&' => and(rest),
        b'|' => one_or_two(Mark::Pipe, b'|', Mark::Or, rest),
        b'?' => question(rest),
        _ => None,
    }
}

/// The mark of two bytes where the second comes next, else the mark of one.
fn one_or_two(one: Mark, second: u8, two: Mark, bytes: &[u8]) -> Option<(Mark, usize)>
    ensures { result ≡ mark_or (past (second ∷ []) bytes.now) two 2 (Some (one, 1)) }
{
    match next(bytes) {
        Some((b, _)) if b == second => Some((two, 2)),
        _ => Some((one, 1)),
    }
}

/// After `=`.
#[tactic(auto, unfolding(crate::specs::Mark::mark))]
fn equals(bytes: &[u8]) -> Option<(Mark, usize)>
    ensures { result ≡ mark_of (61 ∷ bytes.now) }
{
    match next(bytes) {
        Some((b'=', rest)) => matches(rest),
        _ => Some((Mark::Equals, 1)),
    }
}

/// After `==`.
#[tactic(auto, unfolding(crate::specs::Mark::mark))]
fn matches(bytes: &[u8]) -> Option<(Mark, usize)>
    ensures { result ≡ mark_of (61 ∷ 61 ∷ bytes.now) }
{
    match next(bytes) {
        Some((b'~', _)) => Some((Mark::Matches, 3)),
        _ => Some((Mark::Same, 2)),
    }
}

/// After `&`.
#[tactic(auto, unfolding(crate::specs::Mark::mark))]
fn and(bytes: &[u8]) -> Option<(Mark, usize)>
    ensures { result ≡ mark_of (38 ∷ bytes.now) }
{
    match next(bytes) {
        Some((b'&', _)) => Some((Mark::And, 2)),
        _ => None,
    }
}

/// After `?`.
#[tactic(auto, unfolding(crate::specs::Mark::mark))]
fn question(bytes: &[u8]) -> Option<(Mark, usize)>
    ensures { result ≡ mark_of (63 ∷ bytes.now) }
{
    match next(bytes) {
        Some((b'.', _)) => Some((Mark::QuestionDot, 2)),
        Some((b':', _)) => Some((Mark::Elvis, 2)),
        _ => Some((Mark::Question, 1)),
    }
}
