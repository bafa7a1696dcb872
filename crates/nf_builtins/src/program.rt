//! The program's own functions: `clamp` and `zeroPad`.

ghost use Rattle.std.specs.Prelude.{◌≡◌, ◌≤◌, ◌++◌, IfOk, string_bytes, true, replicate};
ghost use Rattle.nf_value.specs.View.{plain_of};
ghost use Rattle.nf_builtins.specs.Natives.{AnswersNative, are_native_names, program_names as program_names_of, program_answer, clamp_of, clamped, pad_of, pad_numbers, zero_padded, whole as whole_of, whole_two as whole_two_of, whole_three as whole_three_of};

use crate::natives::NativeBook;
use itoa::Buffer;
use nf_texts::CallFault;
use nf_value::{EvalKind, Mem, Txt, Vals, Value};
use std::alloc::{AllocError, Global};

/// The largest width that `zeroPad` takes.
const WIDEST: i64 = 64;

/// The answers of the program's own functions (own). 0, `clamp(x, lo, hi)`: the number from lo to hi that is nearest to x; no answer where lo is above hi.
/// 1, `zeroPad(x, width)`: the decimal text of x, filled with zeros on the left to that width; no answer for a negative x or a width outside of 0 to 64.
/// Arguments of another number or kind have no answer.
#[derive(Debug, Clone, Copy, PartialEq, Eq)]
pub struct ProgramBook;

impl NativeBook for ProgramBook {
    ghost told = { λ _. program_answer };
}

/// The names of the program's own functions, in the order of their numbers.
///
/// # Errors
///
/// `Mem` where there is no memory for them.
pub fn program_names(alloc: Global) -> Result<Vec<Txt>, Mem>
    ensures names { IfOk result (λ v. v.items ≡ program_names_of) }
    ensures proper { IfOk result (λ v. are_native_names v.items ≡ true) }
{
    let mut names = Vec::new(alloc);
    names.push(Txt::of(String::from_str(alloc, "clamp")?))?;
    names.push(Txt::of(String::from_str(alloc, "zeroPad")?))?;
    Ok(names)
}

/// The answer of the function of that number.
///
/// # Errors
///
/// `Kind(Native)` where it has no answer, `Mem` where there is no memory for it.
pub fn program_native(alloc: Global, id: u32, args: &Vals) -> Result<Value, CallFault>
    ensures { AnswersNative (program_answer id args.now) result }
{
    match id {
        0 => match clamp(args) {
            Some(number) => Ok(Value::Int(number)),
            None => Err(CallFault::Kind(EvalKind::Native)),
        },
        1 => match pad(args) {
            Some((number, width)) => Ok(Value::Text(Txt::of(zero_pad(alloc, number, width)?))),
            None => Err(CallFault::Kind(EvalKind::Native)),
        },
        _ => Err(CallFault::Kind(EvalKind::Native)),
    }
}

/// The number of a value that is one.
fn whole(value: &Value) -> Option<i64>
    ensures { result ≡ whole_of (plain_of value.now) }
{
    match value {
        Value::Int(number) => Some(*number),
        _ => None,
    }
}

fn clamp(args: &Vals) -> Option<i64>
    ensures { result ≡ clamp_of args.now }
{
    match args.items() {
        [x, lo, hi] => whole_three(x, lo, hi),
        _ => None,
    }
}

fn whole_three(x: &Value, lo: &Value, hi: &Value) -> Option<i64>
    ensures { result ≡ whole_three_of (plain_of x.now) (plain_of lo.now) (plain_of hi.now) }
{
    let x = whole(x)?;
    let lo = whole(lo)?;
    let hi = whole(hi)?;
    clamp_number(x, lo, hi)
}

fn clamp_number(x: i64, lo: i64, hi: i64) -> Option<i64>
    ensures { result ≡ clamped x lo hi }
{
    if hi < lo {
        return None;
    }
    Some(if x < lo {
        lo
    } else if hi < x {
        hi
    } else {
        x
    })
}

fn pad(args: &Vals) -> Option<(u64, u64)>
    ensures { result ≡ pad_of args.now }
{
    match args.items() {
        [x, width] => whole_two(x, width),
        _ => None,
    }
}

fn whole_two(x: &Value, width: &Value) -> Option<(u64, u64)>
    ensures { result ≡ whole_two_of (plain_of x.now) (plain_of width.now) }
{
    let x = whole(x)?;
    let width = whole(width)?;
    pad_number(x, width)
}

fn pad_number(x: i64, width: i64) -> Option<(u64, u64)>
    ensures { result ≡ pad_numbers x width }
{
    if x < 0 || width < 0 || width > WIDEST {
        return None;
    }
    Some((x as u64, width as u64))
}

/// The decimal text of a number, filled with zeros on the left.
fn zero_pad(alloc: Global, number: u64, width: u64) -> Result<String, AllocError>
    ensures { IfOk result (λ s. string_bytes s ≡ zero_padded number width) }
{
    let mut buffer = Buffer::new();
    let digits = buffer.format(number);
    let mut out = zeros(alloc, width.saturating_sub(digits.len() as u64))?;
    out.push_str(digits)?;
    Ok(out)
}

fn zeros(alloc: Global, count: u64) -> Result<String, AllocError>
    ensures { IfOk result (λ s. string_bytes s ≡ replicate count 48) }
{
    let mut out = String::new(alloc);
    for _ in 0..count {
        out.push('0')?;
    }
    Ok(out)
}
