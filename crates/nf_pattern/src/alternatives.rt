//! Finds the first `{a,b}` in a pattern and cuts it into its pieces.

ghost use Rattle.std.specs.Prelude.{◌≡◌, [], ◌∷◌, ◌++◌, ◌+◌, ◌<◌, map, length, MatchOption, IfSome};
ghost use Rattle.std.specs.Str.{chars};
ghost use Rattle.nf_pattern.specs.Glob.{joined, pieces, plain_patterns};

use crate::parts::parted;

/// The first alternatives of a pattern, as `{a,b}`.
#[derive(Clone, Copy)]
pub(crate) struct Alternatives<'a> {
    /// What stands before the `{`.
    pub(crate) before: &'a str,
    /// What stands between the braces.
    pub(crate) within: &'a str,
    /// What stands after the `}`.
    pub(crate) after: &'a str,
}

/// The first alternatives of a pattern. They go from the first `{` to the first `}` after it; without such a `}` there are none.
pub(crate) fn first_alternatives(pattern: &str) -> Option<Alternatives<'_>>
    ensures spelled { MatchOption result (plain_patterns (chars pattern.now) ≡ chars pattern.now ∷ [])
        (λ a. plain_patterns (chars pattern.now) ≡ map (λ rest. chars a.before.now ++ rest) (joined (pieces (chars a.within.now)) (plain_patterns (chars a.after.now)))) }
    ensures shorter { IfSome result (λ a. length (chars a.after.now) < length (chars pattern.now)) }
{
    match parted(pattern, '{') {
        Some((before, opened)) => match parted(opened, '}') {
            Some((within, after)) => Some(Alternatives {
                before,
                within,
                after,
            }),
            None => None,
        },
        None => None,
    }
}

/// The piece before the first comma and the text after that comma; nothing where there is no comma.
pub(crate) fn first_piece(within: &str) -> Option<(&str, &str)>
    ensures pieces { MatchOption result (pieces (chars within.now) ≡ chars within.now ∷ [])
        (λ r. pieces (chars within.now) ≡ chars r.0.now ∷ pieces (chars r.1.now)) }
    ensures shorter { IfSome result (λ r. length (chars r.1.now) < length (chars within.now)) }
{
    parted(within, ',')
}
