//! Operands of one level, with infix operators between them.

ghost use Rattle.std.specs.Prelude.{map, Ok};
ghost use Rattle.nf_value.specs.View.{plain_of};
ghost use Rattle.nf_ast.specs.View.{view, view_operand};
ghost use Rattle.nf_placed.specs.Placed.{Evaluates};
ghost use Rattle.nf_placed.specs.Body.{pattern_in};
ghost use Rattle.nf_eval.specs.Evaluation.{meaning_of, matched as matched_of};
ghost use Rattle.nf_eval.specs.Memory.{seen};
ghost use Rattle.nf_eval.specs.Chains.{combined, going_on};

use crate::around::{Around, match_seen};
use crate::shapes::pattern_text;
use nf_ast::{Expr, InfixOperator, Operand};
use nf_builtins::Natives;
use nf_placed::{fault_at, infix_value};
use nf_value::{EvalKind, EvalRefusal, Place, Value, truth};
use std::alloc::Global;

/// Applies infix operators to a value and the operands after it, from the left.
#[cycle(value)]
pub(crate) fn operands<N: Natives>(
    alloc: Global,
    rest: &[Operand],
    first: Value,
    around: &Around<'_>,
    natives: &N,
) -> Result<Value, EvalRefusal>
    requires { N.keeps natives.now }
    ensures { Evaluates (going_on (map view_operand rest.now) (seen around.now (N.titles natives.now) (N.answer natives.now)) (plain_of first)) result }
{
    let mut left = first;
    for operand in rest {
        left = joined(
            alloc,
            &operand.expr,
            operand.place,
            operand.operator,
            left,
            around,
            natives,
        )?;
    }
    Ok(left)
}

/// Applies an infix operator to a value and the operand after it. `||` and `&&` evaluate the operand only where they need it.
#[cycle(value)]
pub(crate) fn joined<N: Natives>(
    alloc: Global,
    expr: &Expr,
    place: Place,
    operator: InfixOperator,
    left: Value,
    around: &Around<'_>,
    natives: &N,
) -> Result<Value, EvalRefusal>
    requires { N.keeps natives.now }
    ensures { Evaluates (combined place operator (view expr.now) (seen around.now (N.titles natives.now) (N.answer natives.now)) (plain_of left)) result }
{
    match operator {
        InfixOperator::Or => {
            if truth(&left) {
                return Ok(Value::Truth(true));
            }
            let right = crate::values::value(alloc, expr, around, natives)?;
            Ok(Value::Truth(truth(&right)))
        }
        InfixOperator::And => {
            if !truth(&left) {
                return Ok(Value::Truth(false));
            }
            let right = crate::values::value(alloc, expr, around, natives)?;
            Ok(Value::Truth(truth(&right)))
        }
        InfixOperator::Matches => matches(alloc, expr, place, left, around, natives),
        _ => {
            let right = crate::values::value(alloc, expr, around, natives)?;
            infix_value(alloc, place, operator, left, right)
        }
    }
}

/// `==~`: whether the pattern that is the second operand matches a value.
#[cycle(value)]
pub(crate) fn matches<N: Natives>(
    alloc: Global,
    expr: &Expr,
    place: Place,
    left: Value,
    around: &Around<'_>,
    natives: &N,
) -> Result<Value, EvalRefusal>
    requires { N.keeps natives.now }
    ensures { Evaluates (matched_of place (λ e. Ok (plain_of left)) (pattern_in (view expr.now)) (meaning_of (view expr.now)).value (seen around.now (N.titles natives.now) (N.answer natives.now))) result }
{
    match pattern_text(expr) {
        Some(text) => match_seen(alloc, place, text.as_str(), around, &left),
        None => {
            let _right = crate::values::value(alloc, expr, around, natives)?;
            Err(fault_at(place, EvalKind::WrongKind))
        }
    }
}
