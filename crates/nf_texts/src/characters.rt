//! Counts, takes and finds characters (Unicode scalar values) of texts.

ghost use Rattle.std.specs.Prelude.{◌≡◌, IfSome, ◌<◌, ◌^◌, IfOk, string_bytes, length, take, drop, reverse, nat_eq};
ghost use Rattle.std.specs.List.{starts_with, ends_with};
ghost use Rattle.std.specs.Str.{chars, encode_utf8_all};
ghost use Rattle.nf_texts.specs.Texts.{place_of as place_of_text};

use std::alloc::{AllocError, Global};

/// The number of characters.
pub fn char_count(text: &str) -> usize
    ensures count { result ≡ length (chars text.now) }
    ensures small { result < 2 ^ 63 }
{
    text.chars().count()
}

/// The first `count` characters.
pub fn first_chars(alloc: Global, text: &str, count: usize) -> Result<String, AllocError>
    ensures { IfOk result (λ s. string_bytes s ≡ encode_utf8_all (take count (chars text.now))) }
{
    text.chars().take(count).collect(alloc)
}

/// All characters but the first `count`.
pub fn later_chars(alloc: Global, text: &str, count: usize) -> Result<String, AllocError>
    ensures { IfOk result (λ s. string_bytes s ≡ encode_utf8_all (drop count (chars text.now))) }
{
    text.chars().skip(count).collect(alloc)
}

/// The characters from the last to the first.
pub fn reversed(alloc: Global, text: &str) -> Result<String, AllocError>
    ensures { IfOk result (λ s. string_bytes s ≡ encode_utf8_all (reverse (chars text.now))) }
{
    text.chars().rev().collect(alloc)
}

/// At most `count` characters, from the place `from` on.
pub fn inner_chars(
    alloc: Global,
    text: &str,
    from: usize,
    count: usize,
) -> Result<String, AllocError>
    ensures { IfOk result (λ s. string_bytes s ≡ encode_utf8_all (take count (drop from (chars text.now)))) }
{
    text.chars().skip(from).take(count).collect(alloc)
}

/// Whether a text stands at the front of another.
pub fn is_front(text: &str, front: &str) -> bool
    ensures { result ≡ starts_with nat_eq text.now front.now }
{
    text.starts_with(front)
}

/// Whether a text stands at the end of another.
pub fn is_end(text: &str, end: &str) -> bool
    ensures { result ≡ ends_with nat_eq text.now end.now }
{
    text.ends_with(end)
}

/// The place, counted in characters from 0, at which `part` first stands in the text.
pub fn place_of(text: &str, part: &str) -> Option<usize>
    ensures place { result ≡ place_of_text part.now text.now }
    ensures small { IfSome result (λ k. k < 2 ^ 63) }
{
    match text.find(part) {
        Some(at) => Some(char_count(&text[..at])),
        None => None,
    }
}
