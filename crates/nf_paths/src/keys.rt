//! The key of a file: what the `*` of a pattern of pairs takes of its name.

ghost use Rattle.std.specs.Prelude.{◌≡◌, option_map};
ghost use Rattle.std.specs.Str.{chars};
ghost use Rattle.nf_paths.specs.Pairs as pairs;
ghost use Rattle.nf_paths.specs.Texts.{pattern_of, text_of};

use crate::pattern::PairPattern;
use crate::texts::{after_front, before_end, char_count, first_char};

/// The longest text that `*` takes of a name, so that the rest of the pattern takes the rest of the name.
pub(crate) fn key_of<'a>(pattern: &PairPattern<'_>, name: &'a str) -> Option<&'a str>
    ensures { option_map text_of result ≡ pairs.key_of (pattern_of pattern.now) (chars name.now) }
{
    let one = key_with(pattern, pattern.first, name);
    let other = key_with(pattern, pattern.second, name);
    longer(one, other)
}

/// What `*` takes with one of the two alternatives.
fn key_with<'a>(pattern: &PairPattern<'_>, alternative: &str, name: &'a str) -> Option<&'a str>
    ensures { option_map text_of result ≡ pairs.key_with (pattern_of pattern.now) (chars alternative.now) (chars name.now) }
{
    let rest = after_front(name, pattern.front)?;
    let rest = before_end(rest, pattern.back)?;
    let rest = before_end(rest, alternative)?;
    let key = before_end(rest, pattern.between)?;
    undotted(pattern.front, key)
}

/// The key, unless it is the start of a name and begins with a dot.
fn undotted<'a>(front: &str, key: &'a str) -> Option<&'a str>
    ensures { option_map text_of result ≡ pairs.undotted (chars front.now) (chars key.now) }
{
    match (first_char(front), first_char(key)) {
        (None, Some('.')) => None,
        _ => Some(key),
    }
}

/// The longer of two keys; of two that are as long the first.
fn longer<'a>(first: Option<&'a str>, second: Option<&'a str>) -> Option<&'a str>
    ensures { option_map text_of result ≡ pairs.longer (option_map text_of first.entry) (option_map text_of second.entry) }
{
    let (Some(one), Some(other)) = (first, second) else {
        return first.or(second);
    };
    if char_count(one) < char_count(other) {
        second
    } else {
        first
    }
}
