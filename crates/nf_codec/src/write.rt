//! `encode`: writes a value as bytes.

ghost use Rattle.std.specs.Prelude.{◌≡◌, ◌++◌, length, OnOk, IfOk, codes, string_bytes};
ghost use Rattle.hex.specs.Hex.{encode_lower, IsBytes};
ghost use Rattle.std.specs.Fmt.{signed_decimal};
ghost use Rattle.nf_value.specs.Plain.{plains_of, plain_pairs_of};
ghost use Rattle.nf_value.specs.Plain as plain;
ghost use Rattle.nf_value.specs.View.{plain_of};
ghost use Rattle.nf_codec.specs.Whole.{IsWhole, IsWholeText, IsWholeInt};
ghost use Rattle.nf_value.specs.Code.{code, all_code, pairs_code, text_code, file_code, int_code, head_code, count, count_pairs};

use itoa::{Buffer, Integer};
use nf_value::{Digest, FileRef, Mem, Pairs, Txt, Vals, Value};
use std::alloc::Global;

/// The code of a value (own). Equal values have equal codes, and [`decode`](crate::decode) reads a code back. All counts and lengths
/// are decimals:
///
/// - null `n`, true `t`, false `f`
/// - a number: `i`, the number, `;`
/// - a text: `s`, its count of bytes, `:`, the bytes
/// - a file: `p`, the count of bytes of its name, `:`, the name, the digest in 64 lower-case hexadecimal digits, its length, `;`
/// - a list: `l`, its count of items, `:`, the items' codes
/// - a map: `m`, its count of pairs, `:`, each key's code and its value's, in the order of the keys
///
/// Example: `[1, "ab"]` is `l2:i1;s2:ab`.
///
/// # Errors
///
/// `Mem` if there is no memory for it.
pub fn encode(alloc: Global, value: &Value) -> Result<Vec<u8>, Mem>
    ensures code { IfOk result (λ b. b.items ≡ code (plain_of value.now)) }
    ensures whole { OnOk result (IsWhole (plain_of value.now)) }
{
    let mut out = String::new(alloc);
    put(&mut out, value)?;
    Ok(out.into_bytes())
}

/// The same as [`encode`], as a text: a code is always UTF-8.
///
/// # Errors
///
/// `Mem` if there is no memory for it.
pub fn encode_text(alloc: Global, value: &Value) -> Result<Txt, Mem>
    ensures code { IfOk result (λ t. t ≡ code (plain_of value.now)) }
    ensures whole { OnOk result (IsWhole (plain_of value.now)) }
{
    let mut out = String::new(alloc);
    put(&mut out, value)?;
    Ok(Txt::of(out))
}

fn put_number<I: Integer>(out: &mut String, n: I) -> Result<(), Mem>
    ensures { OnOk result (string_bytes out.new ≡ string_bytes out.old ++ I.text n) }
{
    let mut buffer = Buffer::new();
    out.push_str(buffer.format(n))?;
    Ok(())
}

fn put_head(out: &mut String, letter: &str, count: usize) -> Result<(), Mem>
    ensures { OnOk result (string_bytes out.new ≡ string_bytes out.old ++ head_code letter.now count) }
{
    out.push_str(letter)?;
    put_number(out, count)?;
    out.push_str(":")?;
    Ok(())
}

fn put_int(out: &mut String, number: i64) -> Result<(), Mem>
    ensures code { OnOk result (string_bytes out.new ≡ string_bytes out.old ++ int_code (signed_decimal number)) }
    ensures whole { IsWholeInt number }
{
    out.push_str("i")?;
    put_number(out, number)?;
    out.push_str(";")?;
    Ok(())
}

fn put_text(out: &mut String, text: &Txt) -> Result<(), Mem>
    ensures code { OnOk result (string_bytes out.new ≡ string_bytes out.old ++ text_code text.now) }
    ensures whole { OnOk result (IsWholeText text.now) }
{
    let text = text.as_str();
    put_head(out, "s", text.len())?;
    out.push_str(text)?;
    Ok(())
}

fn put_hex(out: &mut String, bytes: &[u8]) -> Result<(), Mem>
    ensures code { OnOk result (string_bytes out.new ≡ string_bytes out.old ++ encode_lower bytes.now) }
    ensures whole { IsBytes bytes.now }
{
    let digits = hex::encode(*out.allocator(), bytes)?;
    out.push_str(digits.as_str())?;
    Ok(())
}

fn put_digest(out: &mut String, digest: &Digest) -> Result<(), Mem>
    ensures code { OnOk result (string_bytes out.new ≡ string_bytes out.old ++ encode_lower digest.now.0) }
    ensures bytes { IsBytes digest.now.0 }
    ensures len { length digest.now.0 ≡ 32 }
{
    put_hex(out, digest.0.as_slice())
}

fn put_file(out: &mut String, file: &FileRef) -> Result<(), Mem>
    ensures code { OnOk result (string_bytes out.new ≡ string_bytes out.old ++ file_code file.now.name file.now.digest.0 file.now.len) }
    ensures whole { OnOk result (IsWhole (plain.file file.now.name file.now.digest.0 file.now.len)) }
{
    let name = file.name.as_str();
    put_head(out, "p", name.len())?;
    out.push_str(name)?;
    put_digest(out, &file.digest)?;
    put_number(out, file.len)?;
    out.push_str(";")?;
    Ok(())
}

#[cycle(put)]
fn put(out: &mut String, value: &Value) -> Result<(), Mem>
    ensures code { OnOk result (string_bytes out.new ≡ string_bytes out.old ++ code (plain_of value.now)) }
    ensures whole { OnOk result (IsWhole (plain_of value.now)) }
{
    match value {
        Value::Null => out.push_str("n")?,
        Value::Truth(true) => out.push_str("t")?,
        Value::Truth(false) => out.push_str("f")?,
        Value::Int(number) => put_int(out, *number)?,
        Value::Text(text) => put_text(out, text)?,
        Value::File(file) => put_file(out, file.file())?,
        Value::List(list) => put_all(out, list)?,
        Value::Map(pairs) => put_pairs(out, pairs)?,
    }
    Ok(())
}

#[cycle(put)]
fn put_all(out: &mut String, list: &Vals) -> Result<(), Mem>
    ensures code { OnOk result (string_bytes out.new ≡ string_bytes out.old ++ (head_code (codes "l") (count (plains_of list.now)) ++ all_code (plains_of list.now))) }
    ensures whole { OnOk result (IsWhole (plain.list (plains_of list.now))) }
{
    put_head(out, "l", list.len())?;
    for item in list.items() {
        put(out, item)?;
    }
    Ok(())
}

#[cycle(put)]
fn put_pairs(out: &mut String, pairs: &Pairs) -> Result<(), Mem>
    ensures code { OnOk result (string_bytes out.new ≡ string_bytes out.old ++ (head_code (codes "m") (count_pairs (plain_pairs_of pairs.now)) ++ pairs_code (plain_pairs_of pairs.now))) }
    ensures whole { OnOk result (IsWhole (plain.table (plain_pairs_of pairs.now))) }
{
    put_head(out, "m", pairs.len())?;
    for (key, item) in pairs.items() {
        put_text(out, key)?;
        put(out, item)?;
    }
    Ok(())
}
