//! The limits of a value: it weighs at most 16,777,216, which is the length of its code, and is at most 64 deep (own).

ghost use Rattle.std.specs.Prelude.{◌≡◌, Ok, Err, MatchResult, pos, min, ◌+◌, ◌<◌, ◌≤◌, ◌^◌, ℕ, List, length, codes};
ghost use Rattle.nf_value.specs.Plain.{Plain, int, text as text_plain, list, plains_of};
ghost use Rattle.nf_value.specs.Code.{head_code, code, all_code};
ghost use Rattle.nf_value.specs.View.{plain_of};
ghost use Rattle.nf_texts.specs.Outcome.{Gives, limited, AreTexts};

use crate::fault::CallFault;
use itoa::Buffer;
use nf_value::{EvalKind, Txt, Value, depth, weight};
use std::alloc::Global;

/// How much a value may weigh.
pub const MOST_WEIGHT: u64 = 16_777_216;

/// How deep a value may be.
const MOST_DEPTH: u64 = 64;

/// `TooLarge` for a value that weighs too much, and else `TooDeep` for one that is too deep.
fn fault_of(value: &Value) -> Result<(), EvalKind>
    ensures { MatchResult result (λ _. limited (plain_of value.now) ≡ Ok (plain_of value.now)) (λ k. limited (plain_of value.now) ≡ Err k) }
{
    if weight(value) > MOST_WEIGHT {
        return Err(EvalKind::TooLarge);
    }
    if depth(value) > MOST_DEPTH {
        return Err(EvalKind::TooDeep);
    }
    Ok(())
}

/// The value, if it is within the limits.
pub fn judged(value: Value) -> Result<Value, CallFault>
    ensures { Gives (Ok (plain_of value)) result }
{
    fault_of(&value)?;
    Ok(value)
}

/// A copy of the value, if it is within the limits, which is checked before it is copied.
pub fn copied(value: &Value) -> Result<Value, CallFault>
    ensures { Gives (Ok (plain_of value.now)) result }
{
    fault_of(value)?;
    Ok(value.copy()?)
}

/// A count as a number of a script. No count of what is in memory is larger than such a number can be.
pub fn count_value(count: usize) -> Result<Value, CallFault>
    requires { count < 2 ^ 63 }
    ensures { Gives (Ok (int (pos count))) result }
{
    judged(Value::Int(count as i64))
}

/// A text as a value, if it is within the limits, which is checked before it is copied.
pub fn text_value(alloc: Global, text: &str) -> Result<Value, CallFault>
    ensures { Gives (Ok (text_plain text.now)) result }
{
    text_fault(capped_len(0, text.len()))?;
    Ok(Value::Text(Txt::of(String::from_str(alloc, text)?)))
}

/// Lengths and weights are counted up to this number, which is far above the limits.
pub const LONGEST: u64 = 1 << 32;

/// The sum of two lengths, `LONGEST` at most.
pub fn capped_len(len: u64, more: usize) -> u64
    requires { len ≤ 2 ^ 32 }
    ensures { result ≡ min (len + more) (2 ^ 32) }
{
    let room = LONGEST - len;
    len + (more as u64).min(room)
}

/// The fault of a text of this many bytes, if it would weigh too much.
pub fn text_fault(len: u64) -> Result<(), EvalKind>
    requires { len ≤ 2 ^ 32 }
    ensures { (t : List ℕ) → min (length t) (2 ^ 32) ≡ len → MatchResult result (λ _. limited (text_plain t) ≡ Ok (text_plain t)) (λ k. limited (text_plain t) ≡ Err k) }
{
    if head_len(len) + len > MOST_WEIGHT {
        return Err(EvalKind::TooLarge);
    }
    Ok(())
}

/// The number of bytes of the head of a code: a letter, a count in decimal digits, and a colon.
fn head_len(len: u64) -> u64
    ensures len { result ≡ length (head_code (codes "s") len) }
    ensures small { result ≤ 1024 }
{
    let mut buffer = Buffer::new();
    buffer.format(len).len() as u64 + 2
}

/// The weight of a text, `LONGEST` at most.
pub fn text_weight(text: &str) -> u64
    ensures { result ≡ min (length (code (text_plain text.now))) (2 ^ 32) }
{
    let len = capped_len(0, text.len());
    (head_len(len) + len).min(LONGEST)
}

/// The fault of a list of this many texts that weigh so much together, if the list would weigh too much.
pub fn list_fault(count: u64, weight: u64) -> Result<(), EvalKind>
    requires count { count ≤ 2 ^ 32 }
    requires weight { weight ≤ 2 ^ 32 }
    ensures { (vs : List Plain) → AreTexts vs → min (length vs) (2 ^ 32) ≡ count → min (length (all_code (plains_of vs))) (2 ^ 32) ≡ weight → MatchResult result (λ _. limited (list (plains_of vs)) ≡ Ok (list (plains_of vs))) (λ k. limited (list (plains_of vs)) ≡ Err k) }
{
    if head_len(count) + weight > MOST_WEIGHT {
        return Err(EvalKind::TooLarge);
    }
    Ok(())
}
