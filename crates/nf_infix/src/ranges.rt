//! `a..b`.

ghost use Rattle.std.specs.Prelude.{◌≡◌, ◌≢◌, ◌+ℤ◌, MatchResult, map};
ghost use Rattle.nf_value.specs.Plain.{int};
ghost use Rattle.nf_value.specs.View.{plain_of};
ghost use Rattle.nf_texts.specs.Outcome.{Gives, limited};
ghost use Rattle.nf_builtins.specs.Lists.{list_of};
ghost use Rattle.nf_infix.specs.Fault.{IsFaultOf};
ghost use Rattle.nf_infix.specs.Range.{range as range_of, int_range, numbers_to, step_to};

use crate::kinds::int_in;
use nf_builtins::CallFault;
use nf_texts::limits::{MOST_WEIGHT, judged};
use nf_value::{EvalKind, Vals, Value, weight};
use std::alloc::Global;

/// `a..b` (Nextflow reference documentation, "Syntax", "Binary expressions"): the list of the numbers from the first to the second, downwards
/// where the first is above the second.
///
/// # Errors
///
/// `WrongKind` where one of them is no number, `TooLarge` where the list would weigh more than 16,777,216 (own); no more numbers are made than
/// weigh so much. `Mem` where there is no memory for it.
pub fn range(alloc: Global, left: &Value, right: &Value) -> Result<Value, CallFault>
    ensures { Gives (range_of (plain_of left.now) (plain_of right.now)) result }
{
    let left = int_in(left)?;
    let right = int_in(right)?;
    between(alloc, left, right)
}

fn between(alloc: Global, first: i64, last: i64) -> Result<Value, CallFault>
    ensures { Gives (int_range first last) result }
{
    judged(Value::List(numbers(alloc, first, last)?))
}

/// The numbers from the first to the last, if they don't weigh too much.
fn numbers(alloc: Global, first: i64, last: i64) -> Result<Vals, CallFault>
    ensures { MatchResult result (λ vs. vs ≡ map int (numbers_to first last)) (IsFaultOf (limited (list_of (map int (numbers_to first last))))) }
{
    let mut numbers = Vec::new(alloc);
    let mut number = first;
    numbers.push(Value::Int(number))?;
    let mut sum = 0;
    while number != last {
        if sum > MOST_WEIGHT {
            return Err(CallFault::Kind(EvalKind::TooLarge));
        }
        number = next_to(number, last);
        let next = Value::Int(number);
        sum += weight(&next);
        numbers.push(next)?;
    }
    Ok(Vals::of(numbers))
}

/// The next number on the way to another.
#[tactic(auto, unfolding(crate::specs::Range::step_to))]
fn next_to(number: i64, last: i64) -> i64
    requires { number ≢ last }
    ensures { result ≡ number +ℤ step_to number last }
{
    if last < number {
        number - 1
    } else {
        number + 1
    }
}
