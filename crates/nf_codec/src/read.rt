//! `decode`: reads a value from bytes.

ghost use Rattle.std.specs.Prelude.{◌≡◌, ◌≤◌, ◌<◌, ◌-◌, ◌++◌, ℕ, List, length, take, drop, map, None, IfOk};
ghost use Rattle.nf_value.specs.Plain.{Plain};
ghost use Rattle.nf_value.specs.Code.{code};
ghost use Rattle.nf_value.specs.Depth.{depth_of};
ghost use Rattle.nf_value.specs.View.{plain_of, pair_of};
ghost use Rattle.nf_codec.specs.Heads.{head_at, list_of, table_of};
ghost use Rattle.nf_codec.specs.Fronts.{head_of, last_key};
ghost use Rattle.nf_codec.specs.Reading as reading;
ghost use Rattle.nf_codec.specs.Reading.{read, inner, opened, many, many_pairs, pair_from, key_from, text_of, is_above, Reads, ReadsBy, IsGivenBack};
ghost use Rattle.nf_codec.specs.Whole.{IsWhole};

use crate::fault::CodeFault;
use crate::head::{Head, read_head};
use nf_value::{Pairs, Txt, Vals, Value};
use std::alloc::Global;

/// How deep lists and maps may be nested.
const DEPTH: u32 = 64;

/// Reads the value whose code the bytes begin with. Gives the value and the length of its code; the bytes after it aren't read (own).
/// Example: `l2:i1;s2:ab!` gives `[1, "ab"]` and 11.
///
/// It gives a value exactly if the bytes begin with the code of a value of depth at most 64, unless memory runs out. The clauses
/// `code`, `within`, `whole` and `depth` say that a result is such a value with its code; `every` says that each such value is read.
///
/// # Errors
///
/// Values are read from the front, a list or map before its members. The first value that can't be read decides, and the error has the
/// count of bytes before it:
///
/// - `NotAValue`: no head begins there, or it is a map's key and no text above the key before. The head of a list or map is its
///   letter, its count and `:`; the head of any other value is its whole code.
/// - `TooDeep`: it is a list or map at depth 65.
///
/// `Mem` if there is no memory for the value.
pub fn decode(alloc: Global, bytes: &[u8]) -> Result<(Value, usize), CodeFault>
    ensures reads { Reads bytes.now (read 64 bytes.now) result }
    ensures code { IfOk result (λ p. take p.1 bytes.now ≡ code (plain_of p.0)) }
    ensures within { IfOk result (λ p. p.1 ≤ length bytes.now) }
    ensures whole { IfOk result (λ p. IsWhole (plain_of p.0)) }
    ensures depth { IfOk result (λ p. depth_of (plain_of p.0) ≤ 64) }
    ensures every { (v : Plain) → (rest : List ℕ) → bytes.now ≡ code v ++ rest → IsWhole v → depth_of v ≤ 64 → IsGivenBack v result }
{
    read_value(alloc, bytes, 0, DEPTH)
}

#[cycle(read)]
fn read_value(
    alloc: Global,
    bytes: &[u8],
    at: usize,
    left: u32,
) -> Result<(Value, usize), CodeFault>
    requires { at ≤ length bytes.now }
    ensures { Reads bytes.now (read left (drop at bytes.now)) result }
{
    let found = read_head(alloc, &bytes[at..])?;
    match found {
        None => Err(CodeFault::NotAValue { at }),
        Some((head, used)) => open_head(alloc, bytes, at, at + used, left, head),
    }
}

#[cycle(read)]
fn open_head(
    alloc: Global,
    bytes: &[u8],
    at: usize,
    next: usize,
    left: u32,
    head: Head,
) -> Result<(Value, usize), CodeFault>
    requires at { at ≤ length bytes.now }
    requires next { next ≤ length bytes.now }
    ensures { Reads bytes.now (opened (inner left) (length bytes.now - at) (head_of head) (drop next bytes.now)) result }
{
    match head {
        Head::Whole(value) => Ok((value, next)),
        Head::List(count) => read_list(alloc, bytes, at, next, left, count),
        Head::Map(count) => read_map(alloc, bytes, at, next, left, count),
    }
}

#[cycle(read)]
fn read_list(
    alloc: Global,
    bytes: &[u8],
    at: usize,
    next: usize,
    left: u32,
    count: u64,
) -> Result<(Value, usize), CodeFault>
    requires at { at ≤ length bytes.now }
    requires next { next ≤ length bytes.now }
    ensures { Reads bytes.now (opened (inner left) (length bytes.now - at) (list_of count) (drop next bytes.now)) result }
{
    if left == 0 {
        return Err(CodeFault::TooDeep { at });
    }
    match read_many(alloc, bytes, next, left - 1, count) {
        Ok((items, after)) => Ok((Value::List(items), after)),
        Err(fault) => Err(fault),
    }
}

#[cycle(read)]
fn read_many(
    alloc: Global,
    bytes: &[u8],
    at: usize,
    left: u32,
    count: u64,
) -> Result<(Vals, usize), CodeFault>
    requires { at ≤ length bytes.now }
    ensures { ReadsBy (λ vs. vs) bytes.now (many (read left) count (drop at bytes.now)) result }
{
    let mut items = Vec::new(alloc);
    let mut next = at;
    for _ in 0..count {
        match read_value(alloc, bytes, next, left) {
            Ok((item, after)) => {
                if items.reserve(1).is_err() {
                    return Err(CodeFault::Mem);
                }
                items.push_reserved(item);
                next = after;
            }
            Err(fault) => return Err(fault),
        }
    }
    Ok((Vals::of(items), next))
}

#[cycle(read)]
fn read_map(
    alloc: Global,
    bytes: &[u8],
    at: usize,
    next: usize,
    left: u32,
    count: u64,
) -> Result<(Value, usize), CodeFault>
    requires at { at ≤ length bytes.now }
    requires next { next ≤ length bytes.now }
    ensures { Reads bytes.now (opened (inner left) (length bytes.now - at) (table_of count) (drop next bytes.now)) result }
{
    if left == 0 {
        return Err(CodeFault::TooDeep { at });
    }
    match read_pairs(alloc, bytes, next, left - 1, count) {
        Ok((pairs, after)) => Ok((Value::Map(pairs), after)),
        Err(fault) => Err(fault),
    }
}

#[cycle(read)]
fn read_pairs(
    alloc: Global,
    bytes: &[u8],
    at: usize,
    left: u32,
    count: u64,
) -> Result<(Pairs, usize), CodeFault>
    requires { at ≤ length bytes.now }
    ensures { ReadsBy (λ ps. ps) bytes.now (many_pairs (read left) count None (drop at bytes.now)) result }
{
    let mut items = Vec::new(alloc);
    let mut next = at;
    for _ in 0..count {
        match read_pair(alloc, bytes, next, left, items.as_slice()) {
            Ok((pair, after)) => {
                if items.reserve(1).is_err() {
                    return Err(CodeFault::Mem);
                }
                items.push_reserved(pair);
                next = after;
            }
            Err(fault) => return Err(fault),
        }
    }
    Ok((Pairs::of(items), next))
}

#[cycle(read)]
fn read_pair(
    alloc: Global,
    bytes: &[u8],
    at: usize,
    left: u32,
    before: &[(Txt, Value)],
) -> Result<((Txt, Value), usize), CodeFault>
    requires { at ≤ length bytes.now }
    ensures { ReadsBy pair_of bytes.now (pair_from (read left) (last_key None (map pair_of before.now)) (drop at bytes.now)) result }
{
    match read_key(alloc, bytes, at, before) {
        Ok((key, next)) => match read_value(alloc, bytes, next, left) {
            Ok((value, after)) => Ok(((key, value), after)),
            Err(fault) => Err(fault),
        },
        Err(fault) => Err(fault),
    }
}

fn read_key(
    alloc: Global,
    bytes: &[u8],
    at: usize,
    before: &[(Txt, Value)],
) -> Result<(Txt, usize), CodeFault>
    requires { at ≤ length bytes.now }
    ensures { ReadsBy (λ k. k) bytes.now (key_from (last_key None (map pair_of before.now)) (length bytes.now - at) (head_at (drop at bytes.now))) result }
{
    let found = read_head(alloc, &bytes[at..])?;
    let Some((head, used)) = found else {
        return Err(CodeFault::NotAValue { at });
    };
    match text_in(head) {
        Some(key) => {
            if is_next_key(before, &key) {
                Ok((key, at + used))
            } else {
                Err(CodeFault::NotAValue { at })
            }
        }
        None => Err(CodeFault::NotAValue { at }),
    }
}

fn text_in(head: Head) -> Option<Txt>
    ensures { result ≡ text_of (head_of head) }
{
    match head {
        Head::Whole(Value::Text(text)) => Some(text),
        _ => None,
    }
}

fn is_next_key(before: &[(Txt, Value)], key: &Txt) -> bool
    ensures { result ≡ is_above (last_key None (map pair_of before.now)) key.now }
{
    match before.last() {
        None => true,
        Some((last, _)) => last.as_str() < key.as_str(),
    }
}
