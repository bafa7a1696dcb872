//! Matches a glob of one path component against a name, by trying each choice of its alternatives.

ghost use Rattle.std.specs.Prelude.{◌≡◌, ◌++◌};
ghost use Rattle.std.specs.Str.{chars};
ghost use Rattle.nf_pattern.specs.Glob.{is_match, is_plain_match as is_plain_match_of, plain_patterns};
ghost use Rattle.nf_pattern.specs.Parts.{characters, chosen_characters};
ghost use Rattle.nf_pattern.specs.Choices.{some_match};

use crate::alternatives::{first_alternatives, first_piece};
use crate::parts::Parts;
use crate::plain::is_plain_match;

/// Whether a pattern matches a name, both of one path component (own; the Nextflow reference documentation has glob
/// patterns under "Channel factories", "fromPath").
///
/// `*` is any number of characters, `?` one character, and `{a,b}` alternatives. Read from the left, a `{` with a `}`
/// after it begins alternatives: the pieces between commas up to the first `}`. A piece may hold `*` and `?`. A `{` in a
/// piece, and any other `{`, `}` or comma, stands for itself. A dot that stands first in the name is taken neither by
/// `*` nor by `?`, but by a dot of the pattern.
///
/// Takes no memory. Without alternatives its time grows at most as the product of both lengths; each group of
/// alternatives multiplies it by its number of pieces. It calls itself once for each group, so a pattern of more than
/// some ten thousand groups can run out of stack.
pub fn glob(pattern: &str, name: &str) -> bool
    ensures { result ≡ is_match (chars pattern.now) (chars name.now) }
{
    is_some_choice(&Parts::End, pattern, name)
}

/// Whether the chosen parts (listed from the last to the first), followed by some choice of the rest of the pattern,
/// match a name.
fn is_some_choice<'a>(chosen: &'a Parts<'a>, rest: &'a str, name: &str) -> bool
    ensures { result ≡ some_match (chosen_characters chosen.now) (plain_patterns (chars rest.now)) (chars name.now) }
{
    let Some(found) = first_alternatives(rest) else {
        // Lent again: the list after it lives for this call alone.
        return is_match_of_all(&*chosen, &Parts::Part(rest, &Parts::End), name);
    };
    let before = Parts::Part(found.before, chosen);
    let mut left = found.within;
    while let Some((piece, others)) = first_piece(left) {
        if is_some_choice(&Parts::Part(piece, &before), found.after, name) {
            return true;
        }
        left = others;
    }
    is_some_choice(&Parts::Part(left, &before), found.after, name)
}

/// Whether the chosen parts (listed from the last to the first), followed by the other parts, match a name.
fn is_match_of_all<'a>(chosen: &'a Parts<'a>, others: &'a Parts<'a>, name: &str) -> bool
    ensures { result ≡ is_plain_match_of (chosen_characters chosen.now ++ characters others.now) (chars name.now) }
{
    match chosen {
        Parts::End => is_plain_match(others, name),
        Parts::Part(part, earlier) => is_match_of_all(earlier, &Parts::Part(part, others), name),
    }
}
