//! The place of an expression's first token.

ghost use Rattle.std.specs.Prelude.{◌≡◌};
ghost use Rattle.nf_ast.specs.View.{view};
ghost use Rattle.nf_meaning.specs.Places.{begins_at as place_of};

use nf_ast::Expr;
use nf_value::Place;

/// The place of an expression's first token, brackets around it aside (own): where a fault of an argument stands. Takes no memory.
pub fn begins_at(expr: &Expr) -> Place
    ensures { result ≡ place_of (view expr.now) }
{
    match expr {
        Expr::Number(place, _) => *place,
        Expr::Text(place, _, _) => *place,
        Expr::Pattern(place, _) => *place,
        Expr::Template(place, _, _) => *place,
        Expr::Truth(place, _) => *place,
        Expr::Null(place) => *place,
        Expr::Name(place, _) => *place,
        Expr::List(place, _) => *place,
        Expr::Map(place, _) => *place,
        Expr::Closure(closure) => closure.place,
        Expr::Prefix(prefixes, of) => match prefixes.first() {
            Some(prefix) => prefix.place,
            None => begins_at(of),
        },
        Expr::Infix(first, _) => begins_at(first),
        Expr::Conditional(first, _) => begins_at(first),
        Expr::Postfix(first, _) => begins_at(first),
    }
}
