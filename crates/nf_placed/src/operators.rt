//! Infix operators, `==~` and prefix operators on values, with their faults at the operator's place.

ghost use Rattle.nf_value.specs.View.{plain_of};
ghost use Rattle.nf_texts.specs.Outcome.{Gives};
ghost use Rattle.nf_infix.specs.Compare.{matches as matches_of};
ghost use Rattle.nf_placed.specs.Placed.{Evaluates, made};
ghost use Rattle.nf_placed.specs.Operators.{infix_of, prefix_of};

use crate::places::placed;
use nf_ast::{InfixOperator, PrefixOperator};
use nf_builtins::CallFault;
use nf_infix::{
    at_least, at_most, differs, greater, is_in, less, matches, minus, negative, plus, range,
    remainder, same, times,
};
use nf_pattern::WholeRe;
use nf_value::{EvalKind, EvalRefusal, Place, Value, truth};
use std::alloc::Global;

/// The value of an infix operator that takes the values of both operands (Nextflow reference documentation, "Syntax",
/// "Binary expressions").
///
/// # Errors
///
/// The fault of the operator at its place: `WrongKind` for values that it doesn't take, and always for `||`, `&&`, `==~` and `|`, which aren't evaluated
/// by this function; `Overflow`, `DivZero`, `TooLarge` and `TooDeep` as `nf_infix` has them. `Mem` where there is no memory for the value.
pub fn infix_value(
    alloc: Global,
    place: Place,
    operator: InfixOperator,
    left: Value,
    right: Value,
) -> Result<Value, EvalRefusal>
    ensures { Evaluates (made place (infix_of operator (plain_of left) (plain_of right))) result }
{
    placed(place, between(alloc, operator, left, right))
}

fn between(
    alloc: Global,
    operator: InfixOperator,
    left: Value,
    right: Value,
) -> Result<Value, CallFault>
    ensures { Gives (infix_of operator (plain_of left) (plain_of right)) result }
{
    match operator {
        InfixOperator::Same => same(&left, &right),
        InfixOperator::Differs => differs(&left, &right),
        InfixOperator::Less => less(&left, &right),
        InfixOperator::AtMost => at_most(&left, &right),
        InfixOperator::Greater => greater(&left, &right),
        InfixOperator::AtLeast => at_least(&left, &right),
        InfixOperator::In => is_in(&left, &right),
        InfixOperator::Range => range(alloc, &left, &right),
        InfixOperator::Plus => plus(alloc, left, right),
        InfixOperator::Minus => minus(left, &right),
        InfixOperator::Times => times(&left, &right),
        InfixOperator::Remainder => remainder(&left, &right),
        InfixOperator::Or | InfixOperator::And | InfixOperator::Pipe | InfixOperator::Matches => {
            Err(CallFault::Kind(EvalKind::WrongKind))
        }
    }
}

/// `a ==~ re` at the place of the operator: whether a whole text matches a regular expression (Nextflow reference documentation, "Syntax", "Binary
/// expressions").
///
/// # Errors
///
/// `WrongKind` at its place where the value is no text (own). `Mem` for want of memory, which each search needs for itself.
pub fn matches_value(
    alloc: Global,
    place: Place,
    value: &Value,
    re: &WholeRe,
) -> Result<Value, EvalRefusal>
    ensures { Evaluates (made place (matches_of (plain_of value.now) re.now)) result }
{
    placed(place, matches(alloc, value, re))
}

/// The value of a prefix operator (Nextflow reference documentation, "Syntax", "Unary expressions").
///
/// # Errors
///
/// The fault of the operator at its place: `WrongKind` for `-` before what is no number, `Overflow` where the negation leaves 64 signed bits (own). Takes
/// no memory.
pub fn prefix_value(
    place: Place,
    operator: PrefixOperator,
    value: &Value,
) -> Result<Value, EvalRefusal>
    ensures { Evaluates (made place (prefix_of operator (plain_of value.now))) result }
{
    placed(place, turned(operator, value))
}

fn turned(operator: PrefixOperator, value: &Value) -> Result<Value, CallFault>
    ensures { Gives (prefix_of operator (plain_of value.now)) result }
{
    match operator {
        PrefixOperator::Not => Ok(Value::Truth(!truth(value))),
        PrefixOperator::Minus => negative(value),
    }
}
