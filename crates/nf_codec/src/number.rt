//! Reads decimals.

ghost use Rattle.std.specs.Prelude.{◌≡◌, ◌<◌, ◌^◌, length, nat_lt, if◌then◌else◌, Some, None, true};
ghost use Rattle.std.specs.Char.{is_ascii_digit};
ghost use Rattle.std.specs.List.{take_while};
ghost use Rattle.std.specs.Option.{option_and_then};
ghost use Rattle.std.specs.Str.{all_ascii_digits};
ghost use Rattle.std.specs.Str.Parse.{digits_value};
ghost use Rattle.nf_value.specs.Plain.{int};
ghost use Rattle.nf_codec.specs.Heads as heads;
ghost use Rattle.nf_codec.specs.Heads.{whole};
ghost use Rattle.nf_codec.specs.Fronts.{IsDecimalBefore, IsFront};

fn digit_count(bytes: &[u8]) -> usize
    ensures { result ≡ length (take_while is_ascii_digit bytes.now) }
{
    bytes
        .iter()
        .take_while(|byte| byte.is_ascii_digit())
        .count()
}

fn is_decimal(digits: &[u8]) -> bool
    ensures { result ≡ heads.is_decimal digits.now }
{
    match digits {
        [] => false,
        [_] => true,
        [first, ..] => *first != b'0',
    }
}

/// How many digits the decimal at the front has, if the byte `end` follows it.
pub(crate) fn decimal_before(bytes: &[u8], end: u8) -> Option<usize>
    ensures { IsDecimalBefore end bytes.now result }
{
    let count = digit_count(bytes);
    if count == bytes.len() {
        return None;
    }
    if bytes[count] != end {
        return None;
    }
    if !is_decimal(&bytes[..count]) {
        return None;
    }
    Some(count)
}

/// The number that the digits spell, if it fits 64 bits.
pub(crate) fn value_of(digits: &[u8]) -> Option<u64>
    requires digits { all_ascii_digits digits.now ≡ true }
    requires some { 0 < length digits.now }
    ensures { result ≡ (if nat_lt (digits_value 10 digits.now) (2 ^ 64) then Some (digits_value 10 digits.now) else None) }
{
    match std::str::from_utf8(digits) {
        Ok(text) => text.parse::<u64>().ok(),
        Err(_) => None,
    }
}

/// The number after the letter `i` with its `;`, and how many bytes they take.
pub(crate) fn int_at(bytes: &[u8]) -> Option<(i64, usize)>
    ensures { IsFront (λ i. whole (int i)) (heads.int_at bytes.now) bytes.now result }
{
    if bytes.is_empty() {
        return None;
    }
    if bytes[0] == b'-' {
        let (number, used) = negative_at(&bytes[1..])?;
        return Some((number, used + 1));
    }
    positive_at(bytes)
}

fn positive_at(bytes: &[u8]) -> Option<(i64, usize)>
    ensures { IsFront (λ i. whole (int i)) (option_and_then heads.fits_positive (heads.decimal_before 59 bytes.now)) bytes.now result }
{
    let count = decimal_before(bytes, b';')?;
    let value = value_of(&bytes[..count])?;
    if value >= 1 << 63 {
        return None;
    }
    Some((value as i64, count + 1))
}

fn negative_at(bytes: &[u8]) -> Option<(i64, usize)>
    ensures { IsFront (λ i. whole (int i)) (option_and_then heads.fits_negative (heads.decimal_before 59 bytes.now)) bytes.now result }
{
    let count = decimal_before(bytes, b';')?;
    let value = value_of(&bytes[..count])?;
    if value == 0 {
        return None;
    }
    if value > 1 << 63 {
        return None;
    }
    Some((-1 - (value - 1) as i64, count + 1))
}
