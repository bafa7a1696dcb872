//! The closure of `reduce`: two parameters, and one expression that makes one value of them.

ghost use Rattle.std.specs.Prelude.{◌≡◌, option_map};
ghost use Rattle.nf_ast.specs.Tree as tree;
ghost use Rattle.nf_ast.specs.View.{names, params_tree, view, view_body, view_closure, view_stmt, view_stmts};
ghost use Rattle.nf_meaning.specs.Totals as spec;
ghost use Rattle.nf_totals.specs.Totals.{are_both as both, total_alone};

use crate::marks::total_mark;
use nf_ast::{ClosureBody, ClosureExpr, Expr, Stmt};
use nf_bag::Total;
use nf_slips::{Form, read_form};
use nf_value::{Place, Txt};

/// The total that the closure of `reduce` stands for: `a + b`, `a && b`, `a || b`, `Math.min(a, b)` or `Math.max(a, b)` of its two
/// parameters, in either order (Nextflow reference documentation, "Operators", "reduce"; these five are own). `None` for any other closure.
/// Takes no memory.
pub fn total_of(closure: &ClosureExpr) -> Option<Total>
    ensures { result ≡ spec.total_of (view_closure closure.now) }
{
    total_after(&closure.params, &closure.body)
}

fn total_after(params: &Option<Vec<(Place, Txt)>>, body: &ClosureBody) -> Option<Total>
    ensures { result ≡ spec.total_in (params_tree (option_map (λ v. v.items) params.now)) (view_body body.now) }
{
    match params {
        Some(params) => total_in(params, body),
        None => None,
    }
}

/// The total of a closure with these parameters.
fn total_in(params: &[(Place, Txt)], body: &ClosureBody) -> Option<Total>
    ensures { result ≡ spec.total_in (tree.params (names params.now)) (view_body body.now) }
{
    match params {
        [first, second] => body_total(first.1.as_str(), second.1.as_str(), body),
        _ => None,
    }
}

/// The total that a body is over two names.
fn body_total(first: &str, second: &str, body: &ClosureBody) -> Option<Total>
    ensures { result ≡ total_alone first.now second.now (view_body body.now) }
{
    match body {
        ClosureBody::Statements(stmts) => stmts_total(first, second, stmts),
        ClosureBody::Labels(_) => None,
    }
}

fn stmts_total(first: &str, second: &str, stmts: &[Stmt]) -> Option<Total>
    ensures { result ≡ total_alone first.now second.now (view_stmts stmts.now) }
{
    match stmts {
        [only] => stmt_total(first, second, only),
        _ => None,
    }
}

fn stmt_total(first: &str, second: &str, stmt: &Stmt) -> Option<Total>
    ensures { result ≡ spec.total_over first.now second.now (spec.folding_in (view_stmt stmt.now)) }
{
    match stmt {
        Stmt::Expr(expr) => expr_total(first, second, expr),
        Stmt::Choice(_, _) => None,
        Stmt::Define(_, _, _, _)
        | Stmt::DefineAll(_, _, _)
        | Stmt::Assign(_, _, _)
        | Stmt::Return(_, _)
        | Stmt::Println(_, _)
        | Stmt::Log(_, _, _, _) => None,
    }
}

fn expr_total(first: &str, second: &str, expr: &Expr) -> Option<Total>
    ensures { result ≡ spec.total_over first.now second.now (spec.folding_in (view expr.now)) }
{
    match read_form(expr) {
        Form::Total(left, right) => {
            let total = total_mark(expr);
            if are_both(first, second, left.as_str(), right.as_str()) {
                total
            } else {
                None
            }
        }
        Form::Name(_, _) => None,
        Form::Number(_) => None,
        Form::Closure(_) => None,
        Form::Extreme => None,
        Form::Other => None,
    }
}

/// Whether the first two differ, and the last two are these in either order.
fn are_both(first: &str, second: &str, left: &str, right: &str) -> bool
    ensures { result ≡ both first.now second.now left.now right.now }
{
    first != second && ((left == first && right == second) || (left == second && right == first))
}
