//! Tells whether a path is literal, that is, holds no glob.

ghost use Rattle.std.specs.Prelude.{◌≡◌};
ghost use Rattle.std.specs.Str.{chars};
ghost use Rattle.nf_pattern.specs.Literal.{is_literal_path};

use crate::parts::first_char;

/// Whether a path is literal: it has no `*`, no `?`, and no `{` with a `}` after it in the same component (own; see
/// `glob`). A `/` ends a component. Takes no memory, and time that grows with the length of the path.
pub fn is_literal(path: &str) -> bool
    ensures { result ≡ is_literal_path (chars path.now) }
{
    let mut opened = false;
    let mut left = path;
    while let Some((first, rest)) = first_char(left) {
        match first {
            '*' | '?' => return false,
            '}' if opened => return false,
            '{' => opened = true,
            '/' => opened = false,
            _ => {}
        }
        left = rest;
    }
    true
}
