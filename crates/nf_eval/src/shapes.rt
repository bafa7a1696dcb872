//! Tests on the shape of nodes: what an expression is once chains of one part are looked through.

ghost use Rattle.std.specs.Prelude.{◌≡◌, ◌∷◌, drop, map, not, Bool, List, MatchOption, Some, None};
ghost use Rattle.nf_ast.specs.Tree.{Tree};
ghost use Rattle.nf_ast.specs.View.{view, view_operand, view_branch, view_postfix};
ghost use Rattle.nf_placed.specs.Body.{pattern_in};
ghost use Rattle.nf_eval.specs.Chains.{closure_next as is_closure_next};
ghost use Rattle.nf_eval.specs.Shapes.{is_nil, is_closure, is_plain};

use nf_ast::{Branch, Expr, Operand, Postfix, Prefix};
use nf_value::Txt;

/// The text of an expression that is a pattern or a plain string.
pub(crate) fn pattern_text(expr: &Expr) -> Option<&Txt>
    ensures { MatchOption result (pattern_in (view expr.now) ≡ None) (λ t. pattern_in (view expr.now) ≡ Some t.now) }
{
    match expr {
        Expr::Pattern(_, text) => Some(text),
        Expr::Text(_, _, text) => Some(text),
        Expr::Prefix(operators, of) => {
            if no_prefixes(operators) {
                pattern_text(of)
            } else {
                None
            }
        }
        Expr::Infix(first, rest) => {
            if no_operands(rest) {
                pattern_text(first)
            } else {
                None
            }
        }
        Expr::Conditional(first, rest) => {
            if no_branches(rest) {
                pattern_text(first)
            } else {
                None
            }
        }
        Expr::Postfix(first, rest) => {
            if no_parts(rest) {
                pattern_text(first)
            } else {
                None
            }
        }
        _ => None,
    }
}

/// Whether an expression is a closure.
pub(crate) fn is_block(expr: &Expr) -> bool
    ensures closure { result ≡ is_closure (view expr.now) }
    ensures plain { not result ≡ is_plain (view expr.now) }
{
    match expr {
        Expr::Closure(_) => true,
        Expr::Prefix(operators, of) => {
            if no_prefixes(operators) {
                is_block(of)
            } else {
                false
            }
        }
        Expr::Infix(first, rest) => {
            if no_operands(rest) {
                is_block(first)
            } else {
                false
            }
        }
        Expr::Conditional(first, rest) => {
            if no_branches(rest) {
                is_block(first)
            } else {
                false
            }
        }
        Expr::Postfix(first, rest) => {
            if no_parts(rest) {
                is_block(first)
            } else {
                false
            }
        }
        _ => false,
    }
}

/// Whether no operator stands before an operand.
pub(crate) fn no_prefixes(list: &[Prefix]) -> bool
    ensures { result ≡ is_nil list.now }
{
    match list {
        [] => true,
        [_first, ..] => false,
    }
}

/// Whether no operand comes after the first.
pub(crate) fn no_operands(list: &[Operand]) -> bool
    ensures { result ≡ is_nil (map view_operand list.now) }
{
    match list {
        [] => true,
        [_first, ..] => false,
    }
}

/// Whether no operand of a conditional expression comes after the first.
pub(crate) fn no_branches(list: &[Branch]) -> bool
    ensures { result ≡ is_nil (map view_branch list.now) }
{
    match list {
        [] => true,
        [_first, ..] => false,
    }
}

/// Whether no property, index or call comes after an expression.
pub(crate) fn no_parts(list: &[Postfix]) -> bool
    ensures { result ≡ is_nil (map view_postfix list.now) }
{
    match list {
        [] => true,
        [_first, ..] => false,
    }
}

/// Whether a closure comes next: the first part is one, or there are no parts and `after` says so.
pub(crate) fn closure_next(parts: &[Postfix], after: bool) -> bool
    ensures { result ≡ is_closure_next (map view_postfix parts.now) after }
{
    match parts.first() {
        Some(next) => is_with(next),
        None => after,
    }
}

fn is_with(next: &Postfix) -> bool
    ensures { (more : List Tree) (after : Bool) → result ≡ is_closure_next (view_postfix next.now ∷ more) after }
{
    match next {
        Postfix::With(_) => true,
        Postfix::Property(_, _) => false,
        Postfix::SafeProperty(_, _) => false,
        Postfix::Index(_, _) => false,
        Postfix::Call(_, _) => false,
    }
}

/// All parts but the first.
pub(crate) fn after_first(parts: &[Postfix]) -> &[Postfix]
    ensures { result.now ≡ drop 1 parts.now }
{
    match parts.split_first() {
        Some((_, more)) => more,
        None => parts,
    }
}
