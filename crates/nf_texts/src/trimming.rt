//! Takes blanks off both ends of a text: characters up to U+0020.

ghost use Rattle.std.specs.Prelude.{◌≡◌, [], ◌∷◌, ◌++◌, MatchOption, reverse};
ghost use Rattle.std.specs.Str.{chars, encode_utf8_all};
ghost use Rattle.nf_texts.specs.Texts.{without_blanks as without_blanks_of, trimmed};

/// The first character of a text, and the rest of the text.
pub fn first_char(text: &str) -> Option<(char, &str)>
    ensures { MatchOption result (chars text.now ≡ []) (λ first. chars text.now ≡ first.0 ∷ chars first.1.now) }
{
    let mut characters = text.chars();
    match characters.next() {
        Some(first) => Some((first, characters.as_str())),
        None => None,
    }
}

/// The last character of a text, and the text before it.
fn last_char(text: &str) -> Option<(char, &str)>
    ensures { MatchOption result (chars text.now ≡ []) (λ last. chars text.now ≡ chars last.1.now ++ last.0 ∷ []) }
{
    let mut characters = text.chars();
    match characters.next_back() {
        Some(last) => Some((last, characters.as_str())),
        None => None,
    }
}

/// The text without characters up to U+0020 at both ends.
pub fn without_blanks(text: &str) -> &str
    ensures { result.now ≡ encode_utf8_all (trimmed (chars text.now)) }
{
    without_last_blanks(without_first_blanks(text))
}

fn without_first_blanks(text: &str) -> &str
    ensures { chars result.now ≡ without_blanks_of (chars text.now) }
{
    let mut left = text;
    while let Some((first, rest)) = first_char(left) {
        if first > ' ' {
            return left;
        }
        left = rest;
    }
    left
}

fn without_last_blanks(text: &str) -> &str
    ensures { chars result.now ≡ reverse (without_blanks_of (reverse (chars text.now))) }
{
    let mut left = text;
    while let Some((last, front)) = last_char(left) {
        if last > ' ' {
            return left;
        }
        left = front;
    }
    left
}
