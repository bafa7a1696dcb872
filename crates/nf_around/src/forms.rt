//! Expressions that are closures or names, brackets around them aside.

ghost use Rattle.std.specs.Prelude.{◌≡◌, false, MatchOption};
ghost use Rattle.nf_ast.specs.Tree as tree;
ghost use Rattle.nf_ast.specs.View.{view, view_closure, view_stmt};
ghost use Rattle.nf_names_used.specs.Uses.{is_name};
ghost use Rattle.nf_meaning.specs.Arguments.{is_closure};
ghost use Rattle.nf_meaning.specs.Closures.{is_label};

use nf_ast::{ClosureExpr, Expr, Stmt};
use nf_slips::{Form, read_form};
use nf_value::{Place, Txt};

/// The closure that an expression is, brackets around it aside (own). Takes no memory.
pub fn closure_in(expr: &Expr) -> Option<&ClosureExpr>
    ensures { MatchOption result (is_closure (view expr.now) ≡ false) (λ c. view expr.now ≡ view_closure c.now) }
{
    match read_form(expr) {
        Form::Closure(closure) => Some(closure),
        Form::Name(_, _) | Form::Number(_) | Form::Extreme | Form::Total(_, _) | Form::Other =>
            None,
    }
}

/// The name that an expression is, with its place.
pub(crate) fn name_in(expr: &Expr) -> Option<(Place, &Txt)>
    ensures { MatchOption result (is_name (view expr.now) ≡ false) (λ n. view expr.now ≡ tree.name n.0 n.1.now) }
{
    match read_form(expr) {
        Form::Name(place, name) => Some((place, name)),
        Form::Closure(_) | Form::Number(_) | Form::Extreme | Form::Total(_, _) | Form::Other =>
            None,
    }
}

/// Whether a statement is a label: none is.
pub(crate) fn is_label_stmt(stmt: &Stmt) -> bool
    ensures label { result ≡ is_label (view_stmt stmt.now) }
    ensures none { result ≡ false }
{
    match stmt {
        Stmt::Expr(expr) => is_label_expr(expr),
        Stmt::Choice(_, _) => false,
        Stmt::Define(_, _, _, _)
        | Stmt::DefineAll(_, _, _)
        | Stmt::Assign(_, _, _)
        | Stmt::Return(_, _)
        | Stmt::Println(_, _)
        | Stmt::Log(_, _, _, _) => false,
    }
}

/// Whether an expression is a label: none is. Its front is read for the contract of that.
fn is_label_expr(expr: &Expr) -> bool
    ensures label { result ≡ is_label (view expr.now) }
    ensures none { result ≡ false }
{
    let _form = read_form(expr);
    false
}
