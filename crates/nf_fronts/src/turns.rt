//! Conditional expressions, from their operands in one row.

ghost use Rattle.std.specs.Prelude.{◌≡◌, [], ◌∷◌, map, MatchOption};
ghost use Rattle.nf_ast.specs.View.{asked, conditional, view, view_branch};
ghost use Rattle.nf_fronts.specs.Arms.{AreArms};
ghost use Rattle.nf_fronts.specs.Lasts.{IsLast};

use crate::front::Front;
use crate::last::Last;
use nf_ast::{Branch, BranchOperator, Expr};
use nf_value::Place;

/// What stands last where an operand has these after it, if it has any.
pub(crate) fn last_turn<'e>(first: &'e Expr, rest: &'e [Branch]) -> Option<Last<'e>>
    ensures { MatchOption result (rest.now ≡ []) (IsLast (conditional [] (view first.now) (map view_branch rest.now))) }
{
    match rest {
        [] => None,
        [branch, more @ ..] => match branch.operator {
            BranchOperator::Then => Some(condition(branch.place, first, &branch.expr, more)),
            BranchOperator::Elvis => Some(Last::Other),
            BranchOperator::Else => Some(Last::Other),
        },
    }
}

/// `c ? a ..`.
fn condition<'e>(place: Place, asked_of: &'e Expr, first: &'e Expr, rest: &'e [Branch]) -> Last<'e>
    ensures { IsLast (conditional (asked place (view asked_of.now) ∷ []) (view first.now)
        (map view_branch rest.now)) result }
{
    let (arm, other) = arms(rest);
    let yes = Front::Turns(first, arm);
    match other {
        [] => Last::Conditional(place, asked_of, yes, None),
        [second, more @ ..] => match arms(more) {
            (_, []) => Last::Conditional(
                place,
                asked_of,
                yes,
                Some(Front::Turns(&second.expr, more)),
            ),
            (_, [_third, ..]) => Last::Other,
        },
    }
}

/// The operands up to the first `:` that no condition among them waits for, and those from it on.
fn arms(rest: &[Branch]) -> (&[Branch], &[Branch])
    ensures { AreArms (map view_branch rest.now) (map view_branch result.0.now) (map view_branch result.1.now) }
{
    let mut open: usize = 0;
    for (at, branch) in rest.iter().enumerate() {
        match branch.operator {
            BranchOperator::Then => open += 1,
            BranchOperator::Elvis => {}
            BranchOperator::Else => {
                if open == 0 {
                    return rest.split_at(at);
                }
                open -= 1;
            }
        }
    }
    (rest, &[])
}
