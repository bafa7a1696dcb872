//! `*`, `%`, and `-` before a number.

ghost use Rattle.std.specs.Prelude.{◌≡◌};
ghost use Rattle.nf_value.specs.View.{plain_of};
ghost use Rattle.nf_texts.specs.Outcome.{Gives};
ghost use Rattle.nf_infix.specs.Product.{times as times_of, remainder as remainder_of, negative as negative_of, rest as rest_of};

use crate::kinds::int_in;
use nf_builtins::CallFault;
use nf_texts::limits::judged;
use nf_value::{EvalKind, Value};

/// `a * b` of two numbers (Nextflow reference documentation, "Syntax", "Binary expressions").
///
/// # Errors
///
/// `WrongKind` where one of them is no number, `Overflow` where the product leaves 64 signed bits (own). Takes no memory.
pub fn times(left: &Value, right: &Value) -> Result<Value, CallFault>
    ensures { Gives (times_of (plain_of left.now) (plain_of right.now)) result }
{
    let left = int_in(left)?;
    let right = int_in(right)?;
    match left.checked_mul(right) {
        Some(product) => judged(Value::Int(product)),
        None => Err(CallFault::Kind(EvalKind::Overflow)),
    }
}

/// `a % b` of two numbers, which has the sign of the first (Nextflow reference documentation, "Syntax", "Binary expressions").
///
/// # Errors
///
/// `WrongKind` where one of them is no number, `DivZero` where the second is 0 (own). Takes no memory.
pub fn remainder(left: &Value, right: &Value) -> Result<Value, CallFault>
    ensures { Gives (remainder_of (plain_of left.now) (plain_of right.now)) result }
{
    let left = int_in(left)?;
    let right = int_in(right)?;
    rest(left, right)
}

fn rest(dividend: i64, divisor: i64) -> Result<Value, CallFault>
    ensures { Gives (rest_of dividend divisor) result }
{
    if divisor == 0 {
        return Err(CallFault::Kind(EvalKind::DivZero));
    }
    judged(Value::Int(dividend.wrapping_rem(divisor)))
}

/// `-a` of a number (Nextflow reference documentation, "Syntax", "Unary expressions").
///
/// # Errors
///
/// `WrongKind` where it is no number, `Overflow` where the negation leaves 64 signed bits (own). Takes no memory.
pub fn negative(value: &Value) -> Result<Value, CallFault>
    ensures { Gives (negative_of (plain_of value.now)) result }
{
    match int_in(value)?.checked_neg() {
        Some(number) => judged(Value::Int(number)),
        None => Err(CallFault::Kind(EvalKind::Overflow)),
    }
}
