//! The total that stands between two names, by the operator's mark or the name of a function of `Math`.

ghost use Rattle.std.specs.Prelude.{◌≡◌, false, MatchOption};
ghost use Rattle.std.specs.Option.{option_copied};
ghost use Rattle.nf_ast.specs.View.{view};
ghost use Rattle.nf_fronts.specs.Fronts.{tree_of};
ghost use Rattle.nf_totals.specs.Marks.{IsCallOf, IsMarkOf, IsSignOf, callee_total, is_call, name_total as named, property_in, sign_total as signed};

use nf_ast::{Expr, InfixOperator};
use nf_bag::Total;
use nf_fronts::{Front, Last};
use nf_value::Txt;

/// The total that an expression makes of two names. Says nothing of other expressions.
pub(crate) fn total_mark(expr: &Expr) -> Option<Total>
    ensures { IsMarkOf (view expr.now) result }
{
    match callee(expr) {
        Some(function) => word_total(function),
        None => operator_total(expr),
    }
}

/// What is called, where the expression is a call.
fn callee(expr: &Expr) -> Option<Front<'_>>
    ensures { MatchOption result (is_call (view expr.now) ≡ false) (λ f. IsCallOf (view expr.now) (tree_of f)) }
{
    match Front::Whole(expr).last() {
        Last::Call(function, _, _) => Some(function),
        Last::Name(_, _) => None,
        Last::List(_, _) => None,
        Last::Property(_, _, _) => None,
        Last::Index(_, _, _) => None,
        Last::With(_, _) => None,
        Last::Pipe(_, _, _) => None,
        Last::Conditional(_, _, _, _) => None,
        Last::Other => None,
    }
}

/// The total that a function of `Math` is.
fn word_total(function: Front<'_>) -> Option<Total>
    ensures { result ≡ callee_total (tree_of function.entry) }
{
    match member_name(function) {
        Some(name) => name_total(name.as_str()),
        None => None,
    }
}

/// The name after the last dot.
fn member_name(front: Front<'_>) -> Option<&Txt>
    ensures { option_copied result ≡ property_in (tree_of front.entry) }
{
    match front.last() {
        Last::Property(_, _, name) => Some(name),
        Last::Name(_, _) => None,
        Last::List(_, _) => None,
        Last::Index(_, _, _) => None,
        Last::Call(_, _, _) => None,
        Last::With(_, _) => None,
        Last::Pipe(_, _, _) => None,
        Last::Conditional(_, _, _, _) => None,
        Last::Other => None,
    }
}

fn name_total(name: &str) -> Option<Total>
    ensures { result ≡ named name.now }
{
    match name {
        "min" => Some(Total::Least),
        "max" => Some(Total::Greatest),
        _ => None,
    }
}

/// The total that the operator is, where the expression is one of two operands.
fn operator_total(expr: &Expr) -> Option<Total>
    ensures { IsSignOf (view expr.now) result }
{
    match expr {
        Expr::Prefix(_, of) => operator_total(of),
        Expr::Infix(first, rest) => match rest.as_slice() {
            [] => operator_total(first),
            [.., last] => sign_total(last.operator),
        },
        Expr::Conditional(first, _) => operator_total(first),
        Expr::Postfix(first, _) => operator_total(first),
        Expr::Number(_, _)
        | Expr::Text(_, _, _)
        | Expr::Pattern(_, _)
        | Expr::Template(_, _, _)
        | Expr::Truth(_, _)
        | Expr::Null(_)
        | Expr::Name(_, _)
        | Expr::List(_, _)
        | Expr::Map(_, _)
        | Expr::Closure(_) => None,
    }
}

fn sign_total(operator: InfixOperator) -> Option<Total>
    ensures { result ≡ signed operator }
{
    match operator {
        InfixOperator::Plus => Some(Total::Sum),
        InfixOperator::And => Some(Total::All),
        InfixOperator::Or => Some(Total::Any),
        _ => None,
    }
}
