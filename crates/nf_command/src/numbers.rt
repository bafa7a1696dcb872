//! Numbers among words.

ghost use Rattle.std.specs.Prelude.{◌≡◌, ◌≤◌, ◌^◌, ◌-◌, ◌&&◌, nat_le, if◌then◌else◌, Some, None, IfSome};
ghost use Rattle.nf_command.specs.Numbers.{number_within as number_within_of, integer_in as integer_in_of};

/// The number that a word is, in decimal, if it is from `low` to `high`.
pub(crate) fn number_within(low: u64, high: u64, word: &str) -> Option<u64>
    ensures number { result ≡ number_within_of low high word.now }
    ensures high { IfSome result (λ n. n ≤ high) }
{
    match number_in(word) {
        Some(number) => kept(low, high, number),
        None => None,
    }
}

fn kept(low: u64, high: u64, number: u64) -> Option<u64>
    ensures number { result ≡ (if nat_le low number && nat_le number high then Some number else None) }
    ensures high { IfSome result (λ n. n ≤ high) }
{
    if low <= number && number <= high {
        Some(number)
    } else {
        None
    }
}

fn number_in(word: &str) -> Option<u64>
    ensures { result ≡ number_within_of 0 (2 ^ 64 - 1) word.now }
{
    if word.starts_with('+') {
        return None;
    }
    word.parse::<u64>().ok()
}

/// The number of 64 signed bits that a word is: digits after a minus sign or none.
pub(crate) fn integer_in(word: &str) -> Option<i64>
    ensures { result ≡ integer_in_of word.now }
{
    if word.starts_with('+') {
        return None;
    }
    word.parse::<i64>().ok()
}
