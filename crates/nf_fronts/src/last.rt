//! `Last`: an expression by what stands last in it.

ghost use Rattle.std.specs.Prelude.{◌≡◌, [], map, MatchOption};
ghost use Rattle.nf_ast.specs.View.{applied, operands, postfix, view, view_operand, view_postfix};
ghost use Rattle.nf_fronts.specs.Fronts.{tree_of};
ghost use Rattle.nf_fronts.specs.Lasts.{IsLast, is_pipe as pipe};

use crate::front::Front;
use crate::turns::last_turn;
use nf_ast::{Arg, ClosureExpr, Expr, InfixOperator, Operand, Postfix};
use nf_value::{Place, Txt};

/// An expression by what stands last in it (Nextflow reference documentation, "Syntax", "Expressions"). Nodes of one operand and no operator are
/// looked through.
#[derive(Drop, Clone, Copy)]
pub enum Last<'e> {
    /// A name, with its place.
    Name(Place, &'e Txt),
    /// `[..]`, with the place of the bracket and the items.
    List(Place, &'e [Expr]),
    /// `e.name`, with the place of the name.
    Property(Front<'e>, Place, &'e Txt),
    /// `e[i]`, with the place of the bracket.
    Index(Front<'e>, Place, &'e Expr),
    /// `e(..)`, with the place of the bracket and the arguments.
    Call(Front<'e>, Place, &'e [Arg]),
    /// `e { .. }`, an expression that is called with a closure.
    With(Front<'e>, &'e ClosureExpr),
    /// `e | f`, with the place of the mark.
    Pipe(Front<'e>, Place, &'e Expr),
    /// `c ? a : b`, with the place of the `?`; without its `: b`, which no text spells, there is no b.
    Conditional(Place, &'e Expr, Front<'e>, Option<Front<'e>>),
    /// Anything else.
    Other,
}

impl<'e> Front<'e> {
    /// What stands last. Takes no memory, and time by the number of operands of a conditional expression.
    pub fn last(self) -> Last<'e>
        ensures { IsLast (tree_of self.entry) result }
    {
        match self {
            Front::Whole(expr) => last_of(expr),
            Front::Operands(first, rest) => match last_operand(first, rest) {
                Some(last) => last,
                None => last_of(first),
            },
            Front::Turns(first, rest) => match last_turn(first, rest) {
                Some(last) => last,
                None => last_of(first),
            },
            Front::Parts(first, rest) => match last_part(first, rest) {
                Some(last) => last,
                None => last_of(first),
            },
        }
    }
}

fn last_of(expr: &Expr) -> Last<'_>
    ensures { IsLast (view expr.now) result }
{
    match expr {
        Expr::Name(place, name) => Last::Name(*place, name),
        Expr::List(place, items) => Last::List(*place, items),
        Expr::Prefix(operators, of) => match operators.as_slice() {
            [] => last_of(of),
            [_first, ..] => Last::Other,
        },
        Expr::Infix(first, rest) => match last_operand(first, rest) {
            Some(last) => last,
            None => last_of(first),
        },
        Expr::Conditional(first, rest) => match last_turn(first, rest) {
            Some(last) => last,
            None => last_of(first),
        },
        Expr::Postfix(first, rest) => match last_part(first, rest) {
            Some(last) => last,
            None => last_of(first),
        },
        Expr::Number(_, _)
        | Expr::Text(_, _, _)
        | Expr::Pattern(_, _)
        | Expr::Template(_, _, _)
        | Expr::Truth(_, _)
        | Expr::Null(_)
        | Expr::Map(_, _)
        | Expr::Closure(_) => Last::Other,
    }
}

/// What stands last where an operand has these after it, if it has any.
fn last_operand<'e>(first: &'e Expr, rest: &'e [Operand]) -> Option<Last<'e>>
    ensures { MatchOption result (rest.now ≡ []) (IsLast (operands (view first.now) (map view_operand rest.now))) }
{
    match rest {
        [] => None,
        [before @ .., operand] => {
            if is_pipe(operand.operator) {
                Some(Last::Pipe(Front::Operands(first, before), operand.place, &operand.expr))
            } else {
                Some(Last::Other)
            }
        }
    }
}

fn is_pipe(operator: InfixOperator) -> bool
    ensures { result ≡ pipe operator }
{
    matches!(operator, InfixOperator::Pipe)
}

/// What stands last where an expression has these parts after it, if it has any.
fn last_part<'e>(first: &'e Expr, rest: &'e [Postfix]) -> Option<Last<'e>>
    ensures { MatchOption result (rest.now ≡ []) (IsLast (postfix (view first.now) (map view_postfix rest.now))) }
{
    match rest {
        [] => None,
        [before @ .., part] => Some(with_part(Front::Parts(first, before), part)),
    }
}

fn with_part<'e>(before: Front<'e>, part: &'e Postfix) -> Last<'e>
    ensures { IsLast (applied (tree_of before.entry) (view_postfix part.now)) result }
{
    match part {
        Postfix::Property(place, name) => Last::Property(before, *place, name),
        Postfix::SafeProperty(_, _) => Last::Other,
        Postfix::Index(place, index) => Last::Index(before, *place, index),
        Postfix::Call(place, args) => Last::Call(before, *place, args),
        Postfix::With(closure) => Last::With(before, closure),
    }
}
