//! Reads heads: a whole value, or the letter and count of a list or map.

ghost use Rattle.std.specs.Prelude.{◌≡◌, ◌<◌, length, drop, IfOk, Some, None};
ghost use Rattle.nf_value.specs.Plain.{text, file};
ghost use Rattle.nf_codec.specs.Heads as heads;
ghost use Rattle.nf_codec.specs.Heads.{whole};
ghost use Rattle.nf_codec.specs.Fronts.{IsFront, IsTextFront, IsDigestOf, IsCount, IsHead};

use crate::number::{decimal_before, int_at, value_of};
use nf_value::{Digest, FileBox, FileRef, Mem, Txt, Value};
use std::alloc::Global;

/// A head: the whole value, or of a list or map how many items or pairs follow. A count past 64 bits is kept as 2^64 - 1, since
/// no bytes hold so many values.
#[derive(Drop)]
pub(crate) enum Head {
    Whole(Value),
    List(u64),
    Map(u64),
}

fn counted_text(bytes: &[u8]) -> Option<(&str, usize)>
    ensures { IsTextFront (heads.counted_text bytes.now) bytes.now result }
{
    let count = decimal_before(bytes, b':')?;
    let len = value_of(&bytes[..count])?;
    let rest = &bytes[count + 1..];
    if len > rest.len() as u64 {
        return None;
    }
    let len = len as usize;
    match std::str::from_utf8(&rest[..len]) {
        Ok(text) => Some((text, count + 1 + len)),
        Err(_) => None,
    }
}

fn text_at(alloc: Global, bytes: &[u8]) -> Result<Option<(Txt, usize)>, Mem>
    ensures { IfOk result (IsFront (λ t. whole (text t)) (heads.text_at bytes.now) bytes.now) }
{
    match counted_text(bytes) {
        None => Ok(None),
        Some((text, used)) => {
            let text = String::from_str(alloc, text)?;
            Ok(Some((Txt::of(text), used)))
        }
    }
}

fn digest_of(digits: &[u8]) -> Option<Digest>
    requires { length digits.now ≡ 64 }
    ensures { IsDigestOf (heads.digest_of digits.now) result }
{
    let mut digest = [0u8; 32];
    if hex::decode_to_slice(digits, &mut digest).is_err() {
        return None;
    }
    let mut again = [0u8; 64];
    if hex::encode_to_slice(digest.as_slice(), &mut again).is_err() {
        return None;
    }
    if again.as_slice() == digits {
        Some(Digest(digest))
    } else {
        None
    }
}

fn file_length(bytes: &[u8]) -> Option<(u64, usize)>
    ensures { IsFront (λ n. n) (heads.file_length bytes.now) bytes.now result }
{
    let count = decimal_before(bytes, b';')?;
    let len = value_of(&bytes[..count])?;
    Some((len, count + 1))
}

fn file_tail(bytes: &[u8]) -> Option<((Digest, u64), usize)>
    ensures { IsFront (λ q. (q.0.0, q.1)) (heads.file_tail bytes.now) bytes.now result }
{
    if bytes.len() < 64 {
        return None;
    }
    let Some(digest) = digest_of(&bytes[..64]) else {
        return None;
    };
    match file_length(&bytes[64..]) {
        None => None,
        Some((len, used)) => Some(((digest, len), 64 + used)),
    }
}

fn file_at(alloc: Global, bytes: &[u8]) -> Result<Option<(FileBox, usize)>, Mem>
    ensures { IfOk result (IsFront (λ f. whole (file f.name f.digest.0 f.len)) (heads.file_at bytes.now) bytes.now) }
{
    let Some((name, used)) = counted_text(bytes) else {
        return Ok(None);
    };
    let Some(((digest, len), more)) = file_tail(&bytes[used..]) else {
        return Ok(None);
    };
    let name = Txt::of(String::from_str(alloc, name)?);
    let file = FileBox::new(alloc, FileRef { name, digest, len })?;
    Ok(Some((file, used + more)))
}

fn count_at(bytes: &[u8]) -> Option<(u64, usize)>
    ensures { IsCount bytes.now result }
{
    let count = decimal_before(bytes, b':')?;
    let value = value_of(&bytes[..count]).unwrap_or(u64::MAX);
    Some((value, count + 1))
}

fn int_head(bytes: &[u8]) -> Option<(Head, usize)>
    requires { 0 < length bytes.now }
    ensures { IsHead (heads.int_at (drop 1 bytes.now)) bytes.now result }
{
    let (number, used) = int_at(&bytes[1..])?;
    Some((Head::Whole(Value::Int(number)), used + 1))
}

fn text_head(alloc: Global, bytes: &[u8]) -> Result<Option<(Head, usize)>, Mem>
    requires { 0 < length bytes.now }
    ensures { IfOk result (IsHead (heads.text_at (drop 1 bytes.now)) bytes.now) }
{
    match text_at(alloc, &bytes[1..])? {
        None => Ok(None),
        Some((text, used)) => Ok(Some((Head::Whole(Value::Text(text)), used + 1))),
    }
}

fn file_head(alloc: Global, bytes: &[u8]) -> Result<Option<(Head, usize)>, Mem>
    requires { 0 < length bytes.now }
    ensures { IfOk result (IsHead (heads.file_at (drop 1 bytes.now)) bytes.now) }
{
    match file_at(alloc, &bytes[1..])? {
        None => Ok(None),
        Some((file, used)) => Ok(Some((Head::Whole(Value::File(file)), used + 1))),
    }
}

fn list_head(bytes: &[u8]) -> Option<(Head, usize)>
    requires { 0 < length bytes.now }
    ensures { IsHead (heads.counted heads.list_of (drop 1 bytes.now)) bytes.now result }
{
    let (count, used) = count_at(&bytes[1..])?;
    Some((Head::List(count), used + 1))
}

fn map_head(bytes: &[u8]) -> Option<(Head, usize)>
    requires { 0 < length bytes.now }
    ensures { IsHead (heads.counted heads.table_of (drop 1 bytes.now)) bytes.now result }
{
    let (count, used) = count_at(&bytes[1..])?;
    Some((Head::Map(count), used + 1))
}

/// The head at the front and its length in bytes; `None` if the bytes begin with no head.
pub(crate) fn read_head(alloc: Global, bytes: &[u8]) -> Result<Option<(Head, usize)>, Mem>
    ensures { IfOk result (IsHead (heads.head_at bytes.now) bytes.now) }
{
    if bytes.len() == 0 {
        return Ok(None);
    }
    match bytes[0] {
        b'n' => Ok(Some((Head::Whole(Value::Null), 1))),
        b't' => Ok(Some((Head::Whole(Value::Truth(true)), 1))),
        b'f' => Ok(Some((Head::Whole(Value::Truth(false)), 1))),
        b'i' => Ok(int_head(bytes)),
        b's' => text_head(alloc, bytes),
        b'p' => file_head(alloc, bytes),
        b'l' => Ok(list_head(bytes)),
        b'm' => Ok(map_head(bytes)),
        _ => Ok(None),
    }
}
