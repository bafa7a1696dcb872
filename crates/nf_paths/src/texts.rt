//! Takes texts apart by their characters.

ghost use Rattle.std.specs.Prelude.{◌≡◌, ◌<◌, ◌∷◌, option_map, IfSome, length};
ghost use Rattle.std.specs.Str.{chars};
ghost use Rattle.nf_pattern.specs.Parting.{has as has_mark};
ghost use Rattle.nf_pattern.specs.Literal.{has_alternatives as has_alternatives_in};
ghost use Rattle.nf_paths.specs.Pairs.{parted_at, stripped, end_stripped};
ghost use Rattle.nf_paths.specs.Texts.{first_of, parts_of, text_of};

/// What stands before and after the first such character.
pub(crate) fn parted(text: &str, mark: char) -> Option<(&str, &str)>
    requires { mark < 128 }
    ensures { option_map parts_of result ≡ parted_at mark (chars text.now) }
{
    text.split_once(mark)
}

/// Whether there is such a character.
pub(crate) fn has(text: &str, mark: char) -> bool
    requires { mark < 128 }
    ensures { result ≡ has_mark mark (chars text.now) }
{
    parted(text, mark).is_some()
}

/// Whether there is a `{` with a `}` after it.
pub(crate) fn has_alternatives(text: &str) -> bool
    ensures { result ≡ has_alternatives_in (chars text.now) }
{
    match parted(text, '{') {
        Some((_, rest)) => has(rest, '}'),
        None => false,
    }
}

/// What stands after a front.
pub(crate) fn after_front<'a>(text: &'a str, front: &str) -> Option<&'a str>
    ensures { option_map text_of result ≡ stripped (chars front.now) (chars text.now) }
{
    text.strip_prefix(front)
}

/// What stands before an end.
pub(crate) fn before_end<'a>(text: &'a str, end: &str) -> Option<&'a str>
    ensures { option_map text_of result ≡ end_stripped (chars end.now) (chars text.now) }
{
    text.strip_suffix(end)
}

/// The first character.
pub(crate) fn first_char(text: &str) -> Option<char>
    ensures { result ≡ first_of (chars text.now) }
{
    text.chars().next()
}

/// How many characters there are.
pub(crate) fn char_count(text: &str) -> usize
    ensures { result ≡ length (chars text.now) }
{
    text.chars().count()
}
