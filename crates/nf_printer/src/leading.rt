//! What the text of an expression begins with.

ghost use Rattle.std.specs.Prelude.{◌≡◌, map, true};
ghost use Rattle.nf_printer.specs.Bodies.{is_expr};
ghost use Rattle.nf_ast.specs.View.{view, view_operand, view_postfix};
ghost use Rattle.nf_printer.specs.Chains.{is_nil};
ghost use Rattle.nf_printer.specs.Levels.{prints as prints_of, begins_round as begins_round_of, is_name as is_name_of};
ghost use Rattle.nf_printer.specs.Leading.{next_minus as next_minus_of, after_first as after_first_of, begins_property as begins_property_of, next_begins as next_begins_of, is_property as is_property_of, is_opening as is_opening_of};

use crate::branches::{BranchState, has_late, holds};
use crate::levels::{POSTFIX, both, bracketed, is_bare, level, no_branches, no_parts, no_prefixes};
use nf_ast::{Expr, InfixOperator, Operand, Postfix};

/// Whether a statement that begins with this expression would be read as `println` or `log` with an argument, as `println(x)` would.
/// `next` says whether the token after the expression may begin an argument.
pub fn prints(expr: &Expr, next: bool) -> bool
    ensures { result ≡ prints_of (view expr.now) next }
{
    match expr {
        Expr::Name(_, name) => name.as_str() == "println" && next,
        Expr::Prefix(prefixes, of) => no_prefixes(prefixes) && prints(of, next),
        Expr::Infix(first, rest) => {
            if is_bare(rest, level(first)) {
                prints(first, next_minus(rest, next))
            } else {
                false
            }
        }
        Expr::Conditional(first, rest) => {
            if has_late(rest) {
                false
            } else if holds(first, rest, BranchState::none()) {
                false
            } else {
                prints(first, both(next, no_branches(rest)))
            }
        }
        Expr::Postfix(first, rest) => {
            if no_parts(rest) {
                prints(first, next)
            } else if bracketed(false, level(first), POSTFIX) {
                false
            } else if both(begins_property(rest), is_name(first, "log")) {
                next_begins(after_first(rest), next)
            } else {
                prints(first, next_begins(rest, false))
            }
        }
        _ => false,
    }
}

/// Whether what follows the first operand may begin an argument: of the operators only `-` may.
fn next_minus(rest: &[Operand], next: bool) -> bool
    ensures { result ≡ next_minus_of (map view_operand rest.now) next }
{
    match rest {
        [] => next,
        [operand, ..] => operand.operator == InfixOperator::Minus,
    }
}

/// The parts after the first.
fn after_first(parts: &[Postfix]) -> &[Postfix]
    ensures { map view_postfix result.now ≡ after_first_of (map view_postfix parts.now) }
{
    match parts {
        [] => parts,
        [_, after @ ..] => after,
    }
}

/// Whether the first part is `.name`.
fn begins_property(parts: &[Postfix]) -> bool
    ensures { result ≡ begins_property_of (map view_postfix parts.now) }
{
    match parts {
        [] => false,
        [part, ..] => is_property(part),
    }
}

/// Whether an expression is this name.
fn is_name(expr: &Expr, word: &str) -> bool
    ensures { result ≡ is_name_of word.now (view expr.now) }
{
    match expr {
        Expr::Name(_, name) => name.as_str() == word,
        Expr::Prefix(prefixes, of) => no_prefixes(prefixes) && is_name(of, word),
        Expr::Infix(first, rest) => no_operands(rest) && is_name(first, word),
        Expr::Conditional(first, rest) => no_branches(rest) && is_name(first, word),
        Expr::Postfix(first, rest) => no_parts(rest) && is_name(first, word),
        _ => false,
    }
}

/// No operator and operand follow.
fn no_operands(rest: &[Operand]) -> bool
    ensures { result ≡ is_nil (map view_operand rest.now) }
{
    match rest {
        [] => true,
        _ => false,
    }
}

/// Whether a part is `.name`.
fn is_property(part: &Postfix) -> bool
    ensures { result ≡ is_property_of (view_postfix part.now) }
{
    match part {
        Postfix::Property(_, _) => true,
        _ => false,
    }
}

/// Whether a part begins with a bracket or a brace, with which an argument may begin too.
fn is_opening(part: &Postfix) -> bool
    ensures { result ≡ is_opening_of (view_postfix part.now) }
{
    match part {
        Postfix::Property(_, _) | Postfix::SafeProperty(_, _) => false,
        Postfix::Index(_, _) | Postfix::Call(_, _) | Postfix::With(_) => true,
    }
}

/// Whether the first part may begin an argument, or `next` where there is no part.
fn next_begins(parts: &[Postfix], next: bool) -> bool
    ensures { result ≡ next_begins_of (map view_postfix parts.now) next }
{
    match parts {
        [] => next,
        [part, ..] => is_opening(part),
    }
}

/// Whether the text of an expression begins with `(`.
pub fn begins_round(expr: &Expr) -> bool
    ensures { result ≡ begins_round_of (view expr.now) }
{
    match expr {
        Expr::Prefix(prefixes, of) => no_prefixes(prefixes) && begins_round(of),
        Expr::Infix(first, rest) => {
            if is_bare(rest, level(first)) {
                begins_round(first)
            } else {
                true
            }
        }
        Expr::Conditional(first, rest) => {
            if has_late(rest) {
                true
            } else if holds(first, rest, BranchState::none()) {
                true
            } else {
                begins_round(first)
            }
        }
        Expr::Postfix(first, rest) => {
            if bracketed(no_parts(rest), level(first), POSTFIX) {
                true
            } else {
                begins_round(first)
            }
        }
        _ => false,
    }
}

/// Does nothing. Its contract says that the tree of an `Expr` is an expression, also where lists in its nodes are empty.
pub fn is_expression(expr: &Expr)
    ensures { is_expr (view expr.now) ≡ true }
{
    match expr {
        Expr::Prefix(_, of) => is_expression(of),
        Expr::Infix(first, _) => is_expression(first),
        Expr::Conditional(first, _) => is_expression(first),
        Expr::Postfix(first, _) => is_expression(first),
        _ => {}
    }
}
