//! Matches plain patterns, which have no alternatives. A plain pattern is a list of symbols: `*`, `?`, and characters that
//! stand for themselves.

ghost use Rattle.std.specs.Prelude.{◌≡◌, ◌<◌, ◌≤◌, ◌+◌, [], ◌∷◌, length, IsSome, IfSome, MatchOption};
ghost use Rattle.std.specs.Str.{chars};
ghost use Rattle.nf_pattern.specs.Glob.{takes, takes_dotted, is_plain_match as is_match_of, takes_one};
ghost use Rattle.nf_pattern.specs.Parts.{characters};
ghost use Rattle.nf_pattern.specs.Reach.{Reaches, takes_some, AfterDot};

use crate::parts::{Parts, first_char, first_of};

/// What is left of a plain pattern and of a name.
#[derive(Clone, Copy)]
pub(crate) struct Place<'a> {
    pub(crate) pattern: Parts<'a>,
    pub(crate) name: &'a str,
}

/// What the symbols before the next `*` of a plain pattern do with the characters of a name.
#[derive(Clone, Copy)]
pub(crate) enum Reach<'a> {
    /// There is no `*`, and the symbols take all the characters.
    Whole,
    /// The symbols don't take the characters.
    Nothing,
    /// The symbols take some characters, and a `*` comes next. This is what follows the `*`, and the characters that are left.
    Star(Place<'a>),
}

/// Whether a plain pattern matches a name.
pub(crate) fn is_plain_match(pattern: &Parts<'_>, name: &str) -> bool
    ensures { result ≡ is_match_of (characters pattern.now) (chars name.now) }
{
    match first_char(name) {
        Some(('.', rest)) => match after_dot(pattern) {
            Some(pattern) => is_taken(&Place {
                pattern,
                name: rest,
            }),
            None => false,
        },
        _ => is_taken(&Place {
            pattern: *pattern,
            name,
        }),
    }
}

/// The rest of a plain pattern after the dot that takes a leading dot; nothing where no dot takes it. A `*` before the dot
/// takes no character.
fn after_dot<'a>(pattern: &Parts<'a>) -> Option<Parts<'a>>
    ensures { AfterDot (characters pattern.now) result }
{
    let mut left = *pattern;
    while let Some((symbol, rest)) = first_of(&left) {
        match symbol {
            '*' => left = rest,
            '.' => return Some(rest),
            _ => return None,
        }
    }
    None
}

/// Whether a plain pattern takes all the characters.
fn is_taken(place: &Place<'_>) -> bool
    ensures { result ≡ takes (characters place.now.pattern) (chars place.now.name.now) }
{
    match next_star(place) {
        Reach::Whole => true,
        Reach::Nothing => false,
        Reach::Star(next) => is_taken_later(&next),
    }
}

/// Whether a plain pattern takes some end of the characters. The symbols before the next `*` are tried at each character
/// until they fit. From then on only what follows that `*` is tried.
fn is_taken_later(place: &Place<'_>) -> bool
    ensures { result ≡ takes_some (characters place.now.pattern) (chars place.now.name.now) }
{
    let mut place = *place;
    loop {
        match next_star(&place) {
            Reach::Whole => return true,
            Reach::Star(next) => place = next,
            Reach::Nothing => match first_char(place.name) {
                Some((_, rest)) => place.name = rest,
                None => return false,
            },
        }
    }
}

/// Takes characters by the symbols before the next `*`.
fn next_star<'a>(place: &Place<'a>) -> Reach<'a>
    ensures { Reaches (characters place.now.pattern) (chars place.now.name.now) result }
{
    let mut pattern = place.pattern;
    let mut name = place.name;
    loop {
        let Some((symbol, others)) = first_of(&pattern) else {
            return at_end(name);
        };
        if symbol == '*' {
            return Reach::Star(Place {
                pattern: others,
                name,
            });
        }
        match first_char(name) {
            Some((first, rest)) if accepts(symbol, first) => {
                pattern = others;
                name = rest;
            }
            _ => return Reach::Nothing,
        }
    }
}

/// What no symbols do with the characters: they take all of them where there are none.
fn at_end(name: &str) -> Reach<'_>
    ensures { Reaches [] (chars name.now) result }
{
    match first_char(name) {
        None => Reach::Whole,
        Some(_) => Reach::Nothing,
    }
}

/// Whether a symbol other than `*` takes a character of a name.
fn accepts(symbol: char, first: char) -> bool
    ensures { result ≡ takes_one symbol first }
{
    symbol == '?' || symbol == first
}
