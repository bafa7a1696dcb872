//! The methods of numbers, the functions of `Math`, and the texts that spell numbers.

ghost use Rattle.std.specs.Prelude.{◌≡◌};
ghost use Rattle.nf_value.specs.View.{plain_of};
ghost use Rattle.nf_texts.specs.Outcome.{Gives};
ghost use Rattle.nf_builtins.specs.Numbers.{math_abs, math_max, math_min, intdiv as intdiv_of, is_integer as is_integer_of, to_integer as to_integer_of, quotient as quotient_of, integer_in};

use nf_texts::CallFault;
use nf_texts::args::{int_arg, int_args, no_args, on_int, on_text};
use nf_texts::limits::judged;
use nf_value::{EvalKind, Vals, Value};

/// `Math.abs(x)`: the number without its sign.
pub(crate) fn abs(args: &Vals) -> Result<Value, CallFault>
    ensures { Gives (math_abs args.now) result }
{
    let number = int_arg(args)?;
    match number.checked_abs() {
        Some(size) => judged(Value::Int(size)),
        None => Err(CallFault::Kind(EvalKind::Overflow)),
    }
}

/// `Math.max(a, b)`: the greater number.
pub(crate) fn greater(args: &Vals) -> Result<Value, CallFault>
    ensures { Gives (math_max args.now) result }
{
    let (a, b) = int_args(args)?;
    judged(Value::Int(if a < b { b } else { a }))
}

/// `Math.min(a, b)`: the smaller number.
pub(crate) fn less(args: &Vals) -> Result<Value, CallFault>
    ensures { Gives (math_min args.now) result }
{
    let (a, b) = int_args(args)?;
    judged(Value::Int(if a < b { a } else { b }))
}

/// `intdiv(n)`: the quotient toward zero.
pub(crate) fn intdiv(recv: &Value, args: &Vals) -> Result<Value, CallFault>
    ensures { Gives (intdiv_of (plain_of recv.now) args.now) result }
{
    let dividend = on_int(recv)?;
    let divisor = int_arg(args)?;
    quotient(dividend, divisor)
}

fn quotient(dividend: i64, divisor: i64) -> Result<Value, CallFault>
    ensures { Gives (quotient_of dividend divisor) result }
{
    if divisor == 0 {
        return Err(CallFault::Kind(EvalKind::DivZero));
    }
    match dividend.checked_div(divisor) {
        Some(quotient) => judged(Value::Int(quotient)),
        None => Err(CallFault::Kind(EvalKind::Overflow)),
    }
}

/// `isInteger()`: whether a text is a number of 64 signed bits.
pub(crate) fn is_integer(recv: &Value, args: &Vals) -> Result<Value, CallFault>
    ensures { Gives (is_integer_of (plain_of recv.now) args.now) result }
{
    let text = on_text(recv)?;
    no_args(args)?;
    judged(Value::Truth(integer(text.as_str()).is_some()))
}

/// `toInteger()`: the number, or the number that a text is.
pub(crate) fn to_integer(recv: &Value, args: &Vals) -> Result<Value, CallFault>
    ensures { Gives (to_integer_of (plain_of recv.now) args.now) result }
{
    match recv {
        Value::Int(number) => {
            no_args(args)?;
            judged(Value::Int(*number))
        }
        Value::Text(text) => {
            no_args(args)?;
            match integer(text.as_str()) {
                Some(number) => judged(Value::Int(number)),
                None => Err(CallFault::Kind(EvalKind::NotNumber)),
            }
        }
        _ => Err(CallFault::Kind(EvalKind::NoMethod)),
    }
}

/// The number that a text is: digits after a minus sign or none, within 64 signed bits.
fn integer(text: &str) -> Option<i64>
    ensures { result ≡ integer_in text.now }
{
    if text.starts_with('+') {
        return None;
    }
    text.parse::<i64>().ok()
}
