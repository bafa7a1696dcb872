//! The lengths of values' texts, which are counted before the texts are made, so that no text beyond the limits takes memory.

ghost use Rattle.std.specs.Prelude.{◌≡◌, ◌≤◌, ◌^◌, ◌+◌, min, length};
ghost use Rattle.std.specs.Fmt.{signed_decimal};
ghost use Rattle.nf_value.specs.Plain.{plains_of, plain_pairs_of};
ghost use Rattle.nf_value.specs.View.{plain_of};
ghost use Rattle.nf_value.specs.Text.{value_text, bracketed, with_commas, entries_text, item_texts, pair_texts};

use crate::limits::{LONGEST, capped_len};
use itoa::Buffer;
use nf_value::{Pairs, Vals, Value};

/// The number of bytes of the text of a value, `LONGEST` at most.
#[cycle(text_len)]
pub fn text_len(value: &Value) -> u64
    ensures { result ≡ min (length (value_text (plain_of value.now))) (2 ^ 32) }
{
    match value {
        Value::Null => 4,
        Value::Truth(true) => 4,
        Value::Truth(false) => 5,
        Value::Int(number) => number_len(*number),
        Value::Text(text) => capped_len(0, text.as_str().len()),
        Value::File(file) => capped_len(0, file.file().name.as_str().len()),
        Value::List(list) => list_len(list),
        Value::Map(pairs) => map_len(pairs),
    }
}

fn number_len(number: i64) -> u64
    ensures { result ≡ min (length (signed_decimal number)) (2 ^ 32) }
{
    let mut buffer = Buffer::new();
    buffer.format(number).len() as u64
}

/// The sum of two such lengths, `LONGEST` at most.
pub fn sum_len(len: u64, more: u64) -> u64
    requires len { len ≤ 2 ^ 32 }
    requires more { more ≤ 2 ^ 32 }
    ensures { result ≡ min (len + more) (2 ^ 32) }
{
    (len + more).min(LONGEST)
}

#[cycle(text_len)]
fn list_len(list: &Vals) -> u64
    ensures { result ≡ min (length (bracketed (with_commas (item_texts (plains_of list.now))))) (2 ^ 32) }
{
    let mut sum = 0;
    for item in list.items() {
        sum = sum_len(sum_len(sum, 2), text_len(item));
    }
    sum.max(2)
}

#[cycle(text_len)]
fn map_len(pairs: &Pairs) -> u64
    ensures { result ≡ min (length (bracketed (entries_text (pair_texts (plain_pairs_of pairs.now))))) (2 ^ 32) }
{
    let mut sum = 0;
    for (key, item) in pairs.items() {
        let before = capped_len(sum_len(sum, 3), key.as_str().len());
        sum = sum_len(before, text_len(item));
    }
    sum.max(3)
}
