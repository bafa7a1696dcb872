//! Judges expressions.

ghost use Rattle.std.specs.Prelude.{◌≡◌, map, IfOk, OnOk, if◌then◌else◌};
ghost use Rattle.nf_ast.specs.View.{view, views, view_branch, view_operand, view_pair, view_piece, trees};
ghost use Rattle.nf_kinds.specs.Kinds.{alone, merged, unknown_kind};
ghost use Rattle.nf_order.specs.Parts.{part_of};
ghost use Rattle.nf_order.specs.Memory.{IfArms, IfRead, IfSecond, IfTurned, arms_in, chain_in, part_in, whole_of};
ghost use Rattle.nf_order.specs.Standing.{Gives, IsEnd, IsLeft, after_operand, after_operands, plain_subject, rest as rest_of};

use crate::around::{Around, State};
use crate::calls::settle;
use crate::parts::parts;
use crate::pipes::{pipe_first, pipe_to};
use crate::subject::{Head, Subject, plain_of};
use nf_ast::{Branch, BranchOperator, Expr, Fragment, InfixOperator, Operand, Pair};
use nf_kinds::{Kinds, Shape};
use nf_slips::closure_kinds;
use nf_value::Mem;

/// An expression as far as it is read; what stands after it may call it.
#[cycle(judge)]
pub(crate) fn subject(expr: &Expr, around: &Around<'_>, state: &mut State) -> Result<Subject, Mem>
    ensures { IfRead result around.now (λ a. part_of a (view expr.now)) state.old state.new }
{
    match expr {
        Expr::Number(_, _)
        | Expr::Text(_, _, _)
        | Expr::Pattern(_, _)
        | Expr::Truth(_, _)
        | Expr::Null(_) => Ok(Subject::of_kind(Kinds::plain())),
        Expr::Name(place, name) => Ok(Subject::of(Head::Name(*place, name.copy()?))),
        Expr::Template(_, _, pieces) => plain_by(template(pieces, around, state)?),
        Expr::List(_, list) => plain_by(items(list, around, state)?),
        Expr::Map(_, list) => plain_by(pairs(list, around, state)?),
        Expr::Closure(closure) => Ok(Subject::of_kind(closure_kinds(
            around.alloc,
            closure,
            around.unknown,
            &state.scope,
            &mut state.broken,
        )?)),
        Expr::Prefix(operators, of) => match operators.as_slice() {
            [] => subject(of, around, state),
            [_first, ..] => plain_by(value(of, around, state)?.kinds().unknown),
        },
        Expr::Infix(first, rest) => {
            let first = subject(first, around, state)?;
            operands(first, rest, around, state)
        }
        Expr::Conditional(first, rest) => match rest.as_slice() {
            [] => subject(first, around, state),
            [_first, ..] => {
                let shape = turns(first, rest, around, state)?;
                Ok(Subject::of(Head::Value(shape)))
            }
        },
        Expr::Postfix(first, rest) => {
            let first = subject(first, around, state)?;
            parts(first, rest, around, state)
        }
    }
}

/// A plain value, unless something in it is unknown.
fn plain_by(is_unknown: bool) -> Result<Subject, Mem>
    ensures { IfOk result (λ x. x ≡ plain_subject is_unknown) }
{
    Ok(Subject::of_kind(Kinds::plain_unless(is_unknown)))
}

/// What an expression may be, once it is read to its end.
#[cycle(judge)]
pub(crate) fn value(expr: &Expr, around: &Around<'_>, state: &mut State) -> Result<Shape, Mem>
    ensures gives { IfOk result (λ v. Gives (part_in around.now (view expr.now)).thing state.old v state.new) }
    ensures done { OnOk result (Gives (part_in around.now (view expr.now)).done state.old tt state.new) }
{
    let subject = subject(expr, around, state)?;
    settle(subject, around, state)
}

/// Whether something in the items is unknown.
#[cycle(judge)]
fn items(items: &[Expr], around: &Around<'_>, state: &mut State) -> Result<bool, Mem>
    ensures { IfOk result (λ v. Gives (part_in around.now (views items.now)).items state.old v state.new) }
{
    let mut is_unknown = false;
    for item in items {
        let shape = value(item, around, state)?;
        is_unknown = is_unknown || shape.kinds().unknown;
    }
    Ok(is_unknown)
}

#[cycle(judge)]
fn template(pieces: &[Fragment], around: &Around<'_>, state: &mut State) -> Result<bool, Mem>
    ensures { IfOk result (λ v. Gives (part_in around.now (trees (map view_piece pieces.now))).items
        state.old v state.new) }
{
    let mut is_unknown = false;
    for piece in pieces {
        let shape = fragment(piece, around, state)?;
        is_unknown = is_unknown || shape.kinds().unknown;
    }
    Ok(is_unknown)
}

/// A part of a template: the expression in a hole, or text.
#[cycle(judge)]
fn fragment(piece: &Fragment, around: &Around<'_>, state: &mut State) -> Result<Shape, Mem>
    ensures { IfOk result (λ v. Gives (part_in around.now (view_piece piece.now)).thing state.old v state.new) }
{
    match piece {
        Fragment::Plain(_, _) => Ok(Shape::alone(Kinds::plain())),
        Fragment::Hole(_, expr) => value(expr, around, state),
    }
}

#[cycle(judge)]
fn pairs(pairs: &[Pair], around: &Around<'_>, state: &mut State) -> Result<bool, Mem>
    ensures { IfOk result (λ v. Gives (part_in around.now (trees (map view_pair pairs.now))).items
        state.old v state.new) }
{
    let mut is_unknown = false;
    for pair in pairs {
        let shape = value(&pair.value, around, state)?;
        is_unknown = is_unknown || shape.kinds().unknown;
    }
    Ok(is_unknown)
}

/// Operands of one level, after the first.
#[cycle(judge)]
fn operands(
    first: Subject,
    rest: &[Operand],
    around: &Around<'_>,
    state: &mut State,
) -> Result<Subject, Mem>
    ensures { IfRead result around.now (λ a. after_operands a (rest_of a first) (map view_operand rest.now))
        state.old state.new }
{
    let mut so_far = first;
    for operand in rest {
        so_far = with_operand(so_far, operand, around, state)?;
    }
    Ok(so_far)
}

/// An operand with all before it.
#[cycle(judge)]
fn with_operand(
    before: Subject,
    operand: &Operand,
    around: &Around<'_>,
    state: &mut State,
) -> Result<Subject, Mem>
    ensures { IfRead result around.now (λ a. after_operand a (rest_of a before) (view_operand operand.now))
        state.old state.new }
{
    match operand.operator {
        InfixOperator::Pipe => {
            let left = pipe_first(before, around, state)?;
            let right = subject(&operand.expr, around, state)?;
            let shape = pipe_to(left, right, around, state)?;
            Ok(Subject::of(Head::Value(shape)))
        }
        _ => {
            let left = settle(before, around, state)?;
            let right = value(&operand.expr, around, state)?;
            Ok(Subject::of(Head::Value(plain_of(&left, &right))))
        }
    }
}

/// A conditional expression. A `:` that no condition waits for, which no text has, is read as `?:`.
#[cycle(judge)]
fn turns(
    first: &Expr,
    rest: &[Branch],
    around: &Around<'_>,
    state: &mut State,
) -> Result<Shape, Mem>
    ensures { IfOk result (λ v. Gives (part_in around.now (whole_of first.now rest.now)).thing state.old v state.new) }
{
    let (mut so_far, mut left) = turn(first, rest, around, state)?;
    while let [branch, more @ ..] = left {
        let (next, after) = turn(&branch.expr, more, around, state)?;
        so_far = plain_of(&so_far, &next);
        left = after;
    }
    Ok(so_far)
}

/// A conditional expression from its first operand on, up to a `:` of one around it. Gives the operands that are left.
#[cycle(judge)]
fn turn<'a>(
    first: &Expr,
    rest: &'a [Branch],
    around: &Around<'_>,
    state: &mut State,
) -> Result<(Shape, &'a [Branch]), Mem>
    ensures reads { IfTurned result around.now (chain_in first.now rest.now) state.old state.new }
    ensures left { IfOk result (λ r. IsLeft r.1.now rest.now) }
{
    let left = value(first, around, state)?;
    match rest {
        [branch, more @ ..] => match branch.operator {
            BranchOperator::Elvis => {
                let (right, more) = turn(&branch.expr, more, around, state)?;
                Ok((plain_of(&left, &right), more))
            }
            BranchOperator::Then => two_arms(left.kinds(), &branch.expr, more, around, state),
            BranchOperator::Else => Ok((left, rest)),
        },
        [] => Ok((left, rest)),
    }
}

/// What a true condition gives, and after its `:` what a false one gives; each begins in the scope before both.
#[cycle(judge)]
fn two_arms<'a>(
    condition: Kinds,
    first: &Expr,
    rest: &'a [Branch],
    around: &Around<'_>,
    state: &mut State,
) -> Result<(Shape, &'a [Branch]), Mem>
    ensures reads { IfArms result around.now condition (arms_in first.now rest.now) state.old state.new }
    ensures left { IfOk result (λ r. IsLeft r.1.now rest.now) }
{
    let before = state.scope.copy(around.alloc)?;
    let (one, rest) = turn(first, rest, around, state)?;
    let ended = std::mem::replace(&mut state.scope, before);
    let (other, rest) = second_arm(rest, around, state)?;
    state.scope.merge(around.alloc, &ended)?;
    Ok((either_arm(condition, &one, &other, around)?, rest))
}

/// What two arms give: unknown, where their condition is.
fn either_arm(
    condition: Kinds,
    one: &Shape,
    other: &Shape,
    around: &Around<'_>,
) -> Result<Shape, Mem>
    ensures { IfOk result (λ v. v ≡ (if condition.unknown then alone unknown_kind else merged one.now other.now)) }
{
    if condition.unknown {
        return Ok(Shape::alone(Kinds::unknown()));
    }
    one.merged(around.alloc, other)
}

/// What a false condition gives: what stands after a `:`, if there is one.
#[cycle(judge)]
fn second_arm<'a>(
    rest: &'a [Branch],
    around: &Around<'_>,
    state: &mut State,
) -> Result<(Shape, &'a [Branch]), Mem>
    requires ends { IsEnd (map view_branch rest.now) }
    ensures reads { IfSecond result around.now rest.now state.old state.new }
    ensures left { IfOk result (λ r. IsLeft r.1.now rest.now) }
{
    match rest {
        [branch, more @ ..] => turn(&branch.expr, more, around, state),
        [] => Ok((Shape::alone(Kinds::plain()), rest)),
    }
}
