//! Expressions of which sources and operators ask more than their value: patterns and ranges.

ghost use Rattle.std.specs.Prelude.{◌≡◌};
ghost use Rattle.nf_arguments.specs.Args.{written_arg};
ghost use Rattle.nf_ast.specs.View.{view};
ghost use Rattle.nf_taken.specs.Shapes.{IsPatternIn, IsRangeIn, shape_in, sign_shape, view_shape};

use nf_arguments::Written;
use nf_ast::{Expr, InfixOperator};
use nf_value::{Place, Txt};

/// An expression of which more is asked than its value.
#[derive(Drop, Clone, Copy)]
pub(crate) enum Shape<'e> {
    /// A pattern, with the place of its `~`.
    Pattern(Place, &'e Txt),
    /// A range, as `1..3`.
    Range,
    /// Anything else.
    Other,
}

/// What an expression is, brackets around it aside (Nextflow reference documentation, "Syntax"). Takes no memory.
fn read_shape(expr: &Expr) -> Shape<'_>
    ensures { view_shape result ≡ shape_in (view expr.now) }
{
    match expr {
        Expr::Pattern(place, text) => Shape::Pattern(*place, text),
        Expr::Prefix(prefixes, of) => match prefixes.as_slice() {
            [] => read_shape(of),
            [_, ..] => Shape::Other,
        },
        Expr::Infix(first, rest) => match rest.as_slice() {
            [] => read_shape(first),
            [.., last] => sign_shape(last.operator),
        },
        Expr::Conditional(first, rest) => match rest.as_slice() {
            [] => read_shape(first),
            [_, ..] => Shape::Other,
        },
        Expr::Postfix(first, rest) => match rest.as_slice() {
            [] => read_shape(first),
            [_, ..] => Shape::Other,
        },
        Expr::Number(_, _)
        | Expr::Text(_, _, _)
        | Expr::Template(_, _, _)
        | Expr::Truth(_, _)
        | Expr::Null(_)
        | Expr::Name(_, _)
        | Expr::List(_, _)
        | Expr::Map(_, _)
        | Expr::Closure(_) => Shape::Other,
    }
}

/// What operands are whose last operator is this.
fn sign_shape(operator: InfixOperator) -> Shape<'static>
    ensures { view_shape result ≡ sign_shape operator }
{
    match operator {
        InfixOperator::Range => Shape::Range,
        _ => Shape::Other,
    }
}

/// The pattern that an argument is, with its place (Nextflow reference documentation, "Operators", "filter"). Takes no
/// memory.
pub(crate) fn pattern_in<'e>(arg: Written<'e>) -> Option<(Place, &'e Txt)>
    ensures { IsPatternIn (written_arg arg.entry).tree result }
{
    match arg {
        Written::Closure(_) => None,
        Written::Arg(arg) => match read_shape(&arg.value) {
            Shape::Pattern(place, text) => Some((place, text)),
            Shape::Range => None,
            Shape::Other => None,
        },
    }
}

/// The range that an argument is, which stands for several items (Nextflow reference documentation, "Channel factories",
/// "of"). Takes no memory.
pub fn range_in<'e>(arg: Written<'e>) -> Option<&'e Expr>
    ensures { IsRangeIn (written_arg arg.entry).tree result }
{
    match arg {
        Written::Closure(_) => None,
        Written::Arg(arg) => match read_shape(&arg.value) {
            Shape::Range => Some(&arg.value),
            Shape::Pattern(_, _) => None,
            Shape::Other => None,
        },
    }
}
