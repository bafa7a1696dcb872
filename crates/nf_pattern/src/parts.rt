//! Reads texts by characters, and parts of patterns in a row as one text.

ghost use Rattle.std.specs.Prelude.{◌≡◌, ◌<◌, [], ◌∷◌, false, MatchOption};
ghost use Rattle.std.specs.Str.{chars};
ghost use Rattle.nf_pattern.specs.Parting.{has, IsParted};
ghost use Rattle.nf_pattern.specs.Parts.{characters};

/// Parts of a pattern in a row. Each stands on the stack of the call that chose it, so they take no memory.
#[derive(Clone, Copy)]
pub(crate) enum Parts<'a> {
    /// No parts.
    End,
    /// A part, and the parts after it.
    Part(&'a str, &'a Parts<'a>),
}

/// The first character of a text, and the rest of the text.
pub(crate) fn first_char(text: &str) -> Option<(char, &str)>
    ensures { MatchOption result (chars text.now ≡ []) (λ first. chars text.now ≡ first.0 ∷ chars first.1.now) }
{
    let mut characters = text.chars();
    match characters.next() {
        Some(first) => Some((first, characters.as_str())),
        None => None,
    }
}

/// What stands before and after the first such delimiter (`{`, `,` or `}`) of a text.
pub(crate) fn parted(text: &str, delimiter: char) -> Option<(&str, &str)>
    requires { delimiter < 128 }
    ensures { MatchOption result (has delimiter (chars text.now) ≡ false)
        (λ found. IsParted delimiter (chars text.now) (chars found.0.now) (chars found.1.now)) }
{
    text.split_once(delimiter)
}

/// The first character of parts in a row, and the rest of the parts.
pub(crate) fn first_of<'a>(parts: &Parts<'a>) -> Option<(char, Parts<'a>)>
    ensures { MatchOption result (characters parts.now ≡ []) (λ first. characters parts.now ≡ first.0 ∷ characters first.1) }
{
    let mut left = *parts;
    while let Parts::Part(part, others) = left {
        if let Some((first, rest)) = first_char(part) {
            return Some((first, Parts::Part(rest, others)));
        }
        left = *others;
    }
    None
}
