//! Reads expressions that are options: names, numbers, truths and words.

ghost use Rattle.std.specs.Prelude.{◌≡◌, true, map, if◌then◌else◌};
ghost use Rattle.nf_ast.specs.Tree.{cons, empty};
ghost use Rattle.nf_ast.specs.View.{view, view_piece, trees};
ghost use Rattle.nf_lowered.specs.Given.{Gives};
ghost use Rattle.nf_meaning.specs.Directives.{expression_wanted};
ghost use Rattle.nf_called.specs.Leaves as spec;
ghost use Rattle.nf_called.specs.Leaves.{IsIt, view_leaf, leaf_of, piece_of, is_alone, is_closure};
ghost use Rattle.nf_called.specs.Lists.{is_nil};

use nf_ast::{Expr, Fragment};
use nf_meaning::LowerFault;
use nf_value::{Place, Txt};

/// An expression of which little is asked.
#[derive(Drop, Clone, Copy)]
pub(crate) enum Leaf<'a> {
    /// A name, with its place.
    Name(Place, &'a Txt),
    /// A number.
    Number(i64),
    /// `true` or `false`.
    Truth(bool),
    /// A plain string, or a template without a hole.
    Word(&'a Txt),
    /// A closure.
    Closure,
    /// Anything else.
    Other,
}

/// What an expression is.
pub(crate) fn leaf_of(expr: &Expr) -> Leaf<'_>
    ensures leaf { view_leaf result ≡ leaf_of (view expr.now) }
    ensures expression { is_alone (view expr.now) ≡ true }
{
    match expr {
        Expr::Name(place, name) => Leaf::Name(*place, name),
        Expr::Number(_, number) => Leaf::Number(*number),
        Expr::Truth(_, truth) => Leaf::Truth(*truth),
        Expr::Text(_, _, text) => Leaf::Word(text),
        Expr::Template(_, _, pieces) => piece_of(pieces),
        Expr::Closure(_) => Leaf::Closure,
        Expr::Prefix(operators, of) => alone(has_none(operators), leaf_of(of)),
        Expr::Infix(first, rest) => alone(has_none(rest), leaf_of(first)),
        Expr::Conditional(first, rest) => alone(has_none(rest), leaf_of(first)),
        Expr::Postfix(first, rest) => alone(has_none(rest), leaf_of(first)),
        Expr::Pattern(_, _) | Expr::Null(_) | Expr::List(_, _) | Expr::Map(_, _) => Leaf::Other,
    }
}

/// A law: an expression is no section, no argument with a name, and no part of an input or an output. It looks at the front of the
/// expression, and changes nothing.
pub(crate) fn stands_alone(expr: &Expr)
    ensures { is_alone (view expr.now) ≡ true }
{
    leaf_of(expr);
}

/// Whether an expression is a closure.
fn is_closure(expr: &Expr) -> bool
    ensures closure { result ≡ is_closure (leaf_of (view expr.now)) }
    ensures expression { is_alone (view expr.now) ≡ true }
{
    matches!(leaf_of(expr), Leaf::Closure)
}

/// Whether an expression is one that is evaluated where it stands, and no closure.
///
/// # Errors
///
/// `BadOption` at the place exactly for a closure.
pub(crate) fn check_expression(place: Place, expr: &Expr) -> Result<(), LowerFault>
    ensures { Gives (IsIt (view expr.now)) (expression_wanted place (view expr.now)) result }
{
    if is_closure(expr) {
        return Err(LowerFault::BadOption { place });
    }
    Ok(())
}

fn piece_of(pieces: &[Fragment]) -> Leaf<'_>
    ensures { view_leaf result ≡ piece_of (trees (map view_piece pieces.now)) }
{
    match pieces {
        [] => Leaf::Other,
        [piece] => sole_piece(piece),
        [_first, _second, ..] => Leaf::Other,
    }
}

fn sole_piece(piece: &Fragment) -> Leaf<'_>
    ensures { view_leaf result ≡ piece_of (cons (view_piece piece.now) empty) }
{
    match piece {
        Fragment::Plain(_, text) => Leaf::Word(text),
        Fragment::Hole(_, _) => Leaf::Other,
    }
}

/// The leaf, if it stands alone in its node.
fn alone(is_alone: bool, leaf: Leaf<'_>) -> Leaf<'_>
    ensures { view_leaf result ≡ (if is_alone then view_leaf leaf.entry else spec.other) }
{
    if is_alone { leaf } else { Leaf::Other }
}

fn has_none<T>(parts: &[T]) -> bool
    ensures { result ≡ is_nil parts.now }
{
    match parts {
        [] => true,
        [_first, ..] => false,
    }
}
