//! A value's truth, depth and weight.

ghost use Rattle.std.specs.Prelude.{◌≡◌, ◌+◌, ◌^◌, ◌≤◌, ◌∷◌, [], min, length, suc, ℕ};
ghost use Rattle.nf_value.specs.Plain.{plains_of, plain_pairs_of};
ghost use Rattle.nf_value.specs.View.{plain_of};
ghost use Rattle.nf_value.specs.Code.{code, all_code, pairs_code, text_code, file_code, head_code};
ghost use Rattle.nf_value.specs.Depth.{depth_of, deepest, deepest_pair};
ghost use Rattle.nf_value.specs.Truth.{truth_of};
ghost use Rattle.std.specs.Fmt.{signed_decimal};
ghost use Rattle.nf_value.specs.Code.{int_code};

use crate::file::FileRef;
use crate::list::Vals;
use crate::map::Pairs;
use crate::text::Txt;
use crate::value::Value;
use itoa::Buffer;

/// The most that a depth or a weight is given as.
const MOST: u64 = 1 << 63;

/// The number of hexadecimal digits of a digest.
const DIGEST_DIGITS: u64 = 64;

/// Whether a value counts as true (Groovy truth). `null`, `false`, 0 and an empty text, list or map don't; everything else does.
pub fn truth(value: &Value) -> bool
    ensures { result ≡ truth_of (plain_of value.now) }
{
    match value {
        Value::Null => false,
        Value::Truth(b) => *b,
        Value::Int(number) => *number != 0,
        Value::Text(text) => !text.as_str().is_empty(),
        Value::File(_) => true,
        Value::List(list) => list.len() != 0,
        Value::Map(pairs) => pairs.len() != 0,
    }
}

/// The depth of a value (own): how many lists and maps stand in one another. `7` has depth 0, `[]` has 1, `[1, [2]]` has 2. A greater
/// depth than 2^63 is given as 2^63.
#[cycle(depth)]
pub fn depth(value: &Value) -> u64
    ensures { result ≡ min (depth_of (plain_of value.now)) (2 ^ 63) }
{
    match value {
        Value::List(list) => one_more(depth_all(list)),
        Value::Map(pairs) => one_more(depth_pairs(pairs)),
        _ => 0,
    }
}

fn one_more(n: u64) -> u64
    requires { n ≤ 2 ^ 63 }
    ensures { result ≡ min (suc n) (2 ^ 63) }
{
    if n < MOST { n + 1 } else { n }
}

#[cycle(depth)]
fn depth_all(list: &Vals) -> u64
    ensures { result ≡ min (deepest (plains_of list.now)) (2 ^ 63) }
{
    let mut most = 0;
    for item in &list.items {
        most = depth(item).max(most);
    }
    most
}

#[cycle(depth)]
fn depth_pairs(pairs: &Pairs) -> u64
    ensures { result ≡ min (deepest_pair (plain_pairs_of pairs.now)) (2 ^ 63) }
{
    let mut most = 0;
    for (_, item) in &pairs.items {
        most = depth(item).max(most);
    }
    most
}

/// The weight of a value (own): the number of bytes of its code (`code` in `specs/Code.antt`). `7` has the code `i7;` and weighs 3. A
/// greater weight than 2^63 is given as 2^63.
#[cycle(weight)]
pub fn weight(value: &Value) -> u64
    ensures { result ≡ min (length (code (plain_of value.now))) (2 ^ 63) }
{
    match value {
        Value::Null | Value::Truth(_) => 1,
        Value::Int(number) => int_weight(*number),
        Value::Text(text) => text_weight(text),
        Value::File(file) => file_weight(file.file()),
        Value::List(list) => capped(head_len(list.len()), weight_all(list)),
        Value::Map(pairs) => capped(head_len(pairs.len()), weight_pairs(pairs)),
    }
}

fn capped(a: u64, b: u64) -> u64
    requires a { a ≤ 2 ^ 63 }
    requires b { b ≤ 2 ^ 63 }
    ensures { result ≡ min (a + b) (2 ^ 63) }
{
    (a + b.min(MOST - a)).min(MOST)
}

fn head_len(count: usize) -> u64
    ensures len { (letter : ℕ) → result ≡ length (head_code (letter ∷ []) count) }
    ensures small { result ≤ 2 ^ 63 }
{
    let mut buffer = Buffer::new();
    buffer.format(count).len() as u64 + 2
}

fn int_weight(number: i64) -> u64
    ensures { result ≡ min (length (int_code (signed_decimal number))) (2 ^ 63) }
{
    let mut buffer = Buffer::new();
    buffer.format(number).len() as u64 + 2
}

fn text_weight(text: &Txt) -> u64
    ensures { result ≡ min (length (text_code text.now)) (2 ^ 63) }
{
    let len = text.as_str().len();
    capped(head_len(len), (len as u64).min(MOST))
}

fn file_weight(file: &FileRef) -> u64
    ensures { result ≡ min (length (file_code file.now.name file.now.digest.0 file.now.len)) (2 ^ 63) }
{
    let len = file.name.as_str().len();
    let mut buffer = Buffer::new();
    let digits = buffer.format(file.len).len() as u64;
    let name = capped(head_len(len), (len as u64).min(MOST));
    capped(name, DIGEST_DIGITS + digits + 1)
}

#[cycle(weight)]
fn weight_all(list: &Vals) -> u64
    ensures { result ≡ min (length (all_code (plains_of list.now))) (2 ^ 63) }
{
    let mut sum = 0;
    for item in &list.items {
        sum = capped(sum, weight(item));
    }
    sum
}

#[cycle(weight)]
fn weight_pairs(pairs: &Pairs) -> u64
    ensures { result ≡ min (length (pairs_code (plain_pairs_of pairs.now))) (2 ^ 63) }
{
    let mut sum = 0;
    for (key, item) in &pairs.items {
        sum = capped(sum, capped(text_weight(key), weight(item)));
    }
    sum
}
