//! Expressions that are closures, brackets around them aside.

ghost use Rattle.std.specs.Prelude.{◌≡◌, true, map};
ghost use Rattle.nf_ast.specs.View.{view};
ghost use Rattle.nf_slips.specs.Forms.{is_expression};
ghost use Rattle.nf_arguments.specs.Written.{IsClosureIn, arg_of, args_in};

use nf_ast::{Arg, ClosureExpr, Expr};
use nf_fronts::{Front, Last};
use nf_slips::{Form, read_form};

/// The closure that an expression is, brackets around it aside (Nextflow reference documentation, "Syntax", "Closure"). Takes no memory.
pub fn closure_in(expr: &Expr) -> Option<&ClosureExpr>
    ensures { IsClosureIn (view expr.now) result }
{
    match Front::Whole(expr).last() {
        Last::Other => closure_form(expr),
        Last::Name(_, _)
        | Last::List(_, _)
        | Last::Property(_, _, _)
        | Last::Index(_, _, _)
        | Last::Call(_, _, _)
        | Last::With(_, _)
        | Last::Pipe(_, _, _)
        | Last::Conditional(_, _, _, _) => None,
    }
}

fn closure_form(expr: &Expr) -> Option<&ClosureExpr>
    ensures { IsClosureIn (view expr.now) result }
{
    match read_form(expr) {
        Form::Closure(closure) => Some(closure),
        Form::Name(_, _) | Form::Number(_) | Form::Extreme | Form::Total(_, _) | Form::Other => {
            None
        }
    }
}

/// Arguments in brackets are what the meaning of scripts has for them. Looks at the front of each, for this contract alone.
pub(crate) fn look_at_all(args: &[Arg])
    ensures { args_in args.now ≡ map arg_of args.now }
{
    for arg in args {
        look_at(&arg.value);
    }
}

/// An expression in memory is one in the grammar's sense.
fn look_at(expr: &Expr)
    ensures { is_expression (view expr.now) ≡ true }
{
    let _last = Front::Whole(expr).last();
}
