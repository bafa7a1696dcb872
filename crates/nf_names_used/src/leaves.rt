//! Looks at single nodes: whether an expression is just a name or a plain string, and what the part after it makes of it.

ghost use Rattle.std.specs.Prelude.{◌≡◌, List, map, if◌then◌else◌};
ghost use Rattle.nf_ast.specs.Tree.{Tree};
ghost use Rattle.nf_ast.specs.View.{view, view_postfix};
ghost use Rattle.nf_names_used.specs.declared.uses.Use.{Use as OneUse};
ghost use Rattle.nf_names_used.specs.Leaves.{is_nil, leaf_of, other, view_leaf};
ghost use Rattle.nf_names_used.specs.Chains.{before_part, before_parts, by_role};

use nf_ast::{Expr, Postfix};
use nf_value::{Place, Txt};

/// An expression that is just a name or a plain string, or any other.
#[derive(Drop)]
pub(crate) enum Leaf<'a> {
    /// A name.
    Name(Place, &'a Txt),
    /// A plain string.
    Text(Place, &'a Txt),
    /// Anything else.
    Other,
}

/// The leaf that an expression is, once nodes with one operand and no operator are looked through.
pub(crate) fn read_leaf(expr: &Expr) -> Leaf<'_>
    ensures { view_leaf result ≡ leaf_of (view expr.now) }
{
    match expr {
        Expr::Name(place, name) => Leaf::Name(*place, name),
        Expr::Text(place, _, text) => Leaf::Text(*place, text),
        Expr::Prefix(operators, of) => alone(has_none(operators), read_leaf(of)),
        Expr::Infix(first, rest) => alone(has_none(rest), read_leaf(first)),
        Expr::Conditional(first, rest) => alone(has_none(rest), read_leaf(first)),
        Expr::Postfix(first, rest) => alone(has_none(rest), read_leaf(first)),
        _ => Leaf::Other,
    }
}

/// The leaf, if it stands alone in its node.
fn alone<'a>(is_alone: bool, leaf: Leaf<'a>) -> Leaf<'a>
    ensures { view_leaf result ≡ (if is_alone then view_leaf leaf.entry else other) }
{
    if is_alone { leaf } else { Leaf::Other }
}

fn has_none<T>(parts: &[T]) -> bool
    ensures { result ≡ is_nil parts.now }
{
    match parts {
        [] => true,
        [_first, ..] => false,
    }
}

/// The role of an expression before a part.
#[derive(Drop, Clone, Copy)]
pub(crate) enum Role {
    /// Before a dot.
    Object,
    /// Before brackets or a closure.
    Callee,
    /// As a value.
    Value,
}

/// The role of an expression before these parts.
pub(crate) fn role_before(rest: &[Postfix]) -> Role
    ensures { (e : Tree) (us : List OneUse) → before_parts e (map view_postfix rest.now) us ≡ by_role result e us }
{
    match rest {
        [] => Role::Value,
        [part, ..] => role_of(part),
    }
}

fn role_of(part: &Postfix) -> Role
    ensures { (e : Tree) (us : List OneUse) → before_part e (view_postfix part.now) us ≡ by_role result e us }
{
    match part {
        Postfix::Property(_, _) => Role::Object,
        Postfix::Call(_, _) | Postfix::With(_) => Role::Callee,
        Postfix::SafeProperty(_, _) | Postfix::Index(_, _) => Role::Value,
    }
}
