//! How closely operators bind, and so which operands need brackets (own).

ghost use Rattle.std.specs.Prelude.{◌≡◌, ◌&&◌, not, nat_lt, map};
ghost use Rattle.nf_ast.specs.View.{view, view_operand, view_branch, view_postfix};
ghost use Rattle.nf_printer.specs.Levels.{infix_level as infix_level_of, left_level as left_level_of, right_level as right_level_of, level as level_of};
ghost use Rattle.nf_printer.specs.Chains.{is_nil, is_bare as is_bare_of};

use nf_ast::{Branch, Expr, InfixOperator, Operand, Postfix, Prefix};

/// The lowest level that needs no brackets as a condition or before `?:`.
pub const CONDITION: u8 = 1;

/// The level of an operator before its operand, `!` or `-`.
pub const PREFIX: u8 = 9;

/// The level of a literal, a name, a call, a property: of all that has no operator outermost.
pub const POSTFIX: u8 = 10;

/// How closely an operator binds its operands: from 1 for `||` to 8 for `*`.
pub fn infix_level(operator: InfixOperator) -> u8
    ensures { result ≡ infix_level_of operator }
{
    match operator {
        InfixOperator::Or => 1,
        InfixOperator::And => 2,
        InfixOperator::Pipe => 3,
        InfixOperator::Same | InfixOperator::Differs | InfixOperator::Matches => 4,
        InfixOperator::Less
        | InfixOperator::AtMost
        | InfixOperator::Greater
        | InfixOperator::AtLeast
        | InfixOperator::In => 5,
        InfixOperator::Range => 6,
        InfixOperator::Plus | InfixOperator::Minus => 7,
        InfixOperator::Times | InfixOperator::Remainder => 8,
    }
}

/// The lowest level that needs no brackets as the left operand. An operator that doesn't chain asks for one level more: `(a < b) < c`
/// keeps its brackets, and `a + b + c` has none. Equality, comparisons, `in` and `..` don't chain.
pub fn left_level(operator: InfixOperator) -> u8
    ensures { result ≡ left_level_of operator }
{
    match operator {
        InfixOperator::Same | InfixOperator::Differs | InfixOperator::Matches => 5,
        InfixOperator::Less
        | InfixOperator::AtMost
        | InfixOperator::Greater
        | InfixOperator::AtLeast
        | InfixOperator::In => 6,
        InfixOperator::Range => 7,
        _ => infix_level(operator),
    }
}

/// The lowest level that needs no brackets as the right operand: one more than the operator's own, as in `a - (b - c)`.
pub fn right_level(operator: InfixOperator) -> u8
    ensures { result ≡ right_level_of operator }
{
    infix_level(operator) + 1
}

/// The level of an expression: that of its outermost operator. A node whose list of operators is empty has that of its first operand.
pub fn level(expr: &Expr) -> u8
    ensures { result ≡ level_of (view expr.now) }
{
    match expr {
        Expr::Prefix(prefixes, of) => {
            if no_prefixes(prefixes) {
                level(of)
            } else {
                PREFIX
            }
        }
        Expr::Infix(first, rest) => match rest.last() {
            None => level(first),
            Some(operand) => infix_level(operand.operator),
        },
        Expr::Conditional(first, rest) => { if no_branches(rest) { level(first) } else { 0 } }
        Expr::Postfix(first, rest) => {
            if no_parts(rest) {
                level(first)
            } else {
                POSTFIX
            }
        }
        _ => POSTFIX,
    }
}

/// Whether an operand needs brackets: it doesn't stand `alone`, and its level is below the least.
pub fn bracketed(alone: bool, level: u8, least: u8) -> bool
    ensures { result ≡ not alone && nat_lt level least }
{
    !alone && level < least
}

/// Both hold.
pub fn both(a: bool, b: bool) -> bool
    ensures { result ≡ a && b }
{
    a && b
}

/// The first holds and the second doesn't.
pub fn without(a: bool, b: bool) -> bool
    ensures { result ≡ a && not b }
{
    a && !b
}

/// No operator stands before the operand.
pub fn no_prefixes(prefixes: &[Prefix]) -> bool
    ensures { result ≡ is_nil prefixes.now }
{
    match prefixes {
        [] => true,
        _ => false,
    }
}

/// No operator of a conditional expression follows.
pub fn no_branches(rest: &[Branch]) -> bool
    ensures { result ≡ is_nil (map view_branch rest.now) }
{
    match rest {
        [] => true,
        _ => false,
    }
}

/// No part follows, as `.name` or a call.
pub fn no_parts(rest: &[Postfix]) -> bool
    ensures { result ≡ is_nil (map view_postfix rest.now) }
{
    match rest {
        [] => true,
        _ => false,
    }
}

/// No brackets open before the first operand, which has this level.
pub fn is_bare(rest: &[Operand], first: u8) -> bool
    ensures { result ≡ is_bare_of (map view_operand rest.now) first }
{
    let mut last = first;
    for operand in rest {
        if last < left_level(operand.operator) {
            return false;
        }
        last = infix_level(operand.operator);
    }
    true
}
