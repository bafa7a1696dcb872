//! Lists the uses of expressions.

ghost use Rattle.std.specs.Prelude.{◌≡◌, true, ◌∷◌, ◌++◌, [], map, IfOk, OnOk};
ghost use Rattle.nf_ast.specs.View.{view, views, view_piece, view_pair, view_operand, view_branch, view_postfix, view_arg, trees};
ghost use Rattle.nf_placed.specs.Body.{is_math as is_math_of};
ghost use Rattle.nf_names_used.specs.Uses.{uses, no_names, used, name_uses, pattern_uses, text_uses, object_uses, callee_uses, defined_by};
ghost use Rattle.nf_names_used.specs.Chains.{operands_uses, branches_uses, before_parts, part_uses, parts_uses};

use crate::leaves::{Leaf, Role, read_leaf, role_before};
use crate::seen::Seen;
use crate::stmts::put_closure;
use crate::uses::{Use, UseKind};
use nf_ast::{Arg, Branch, Expr, Fragment, InfixOperator, Operand, Pair, Postfix};
use nf_value::{Mem, Place, Txt};
use std::alloc::Global;

/// What an expression uses of its environment, in the order of the text (own): names that it doesn't bind itself, functions that it calls, assignments
/// to names that none of its bodies defines, names that it defines a second time, and the texts of patterns and of plain strings that it matches
/// against. A name directly before brackets or a closure is a function's. `Math` before a dot and the name of a property, an argument or a pair are no
/// uses.
///
/// A name is defined a second time by a parameter of the name of one before it, and by a `def` of a name that a `def` between the same braces defined.
/// That use stands before the uses of the closure's body, or of the name's new value. A parameter counts as no `def`, and each arm of an `if`, and its
/// `else`, has braces of its own. Takes time by the size of the expression, times the number of names that are seen.
///
/// # Errors
///
/// `Mem` where there is no memory for the list.
pub fn expr_uses(alloc: Global, expr: &Expr) -> Result<Vec<Use>, Mem>
    ensures { IfOk result (λ v. v.items ≡ uses (view expr.now) no_names) }
{
    let mut out = Vec::new(alloc);
    let seen = Seen::nothing(alloc);
    put_expr(expr, &seen, alloc, &mut out)?;
    Ok(out)
}

#[cycle(uses)]
pub(crate) fn put_expr(
    expr: &Expr,
    seen: &Seen,
    alloc: Global,
    out: &mut Vec<Use>,
) -> Result<(), Mem>
    ensures uses { OnOk result (out.new.items ≡ out.old.items ++ uses (view expr.now) seen.now) }
    ensures defines { OnOk result (defined_by (view expr.now) ≡ []) }
{
    match expr {
        Expr::Number(_, _) | Expr::Text(_, _, _) | Expr::Truth(_, _) | Expr::Null(_) => Ok(()),
        Expr::Pattern(place, text) => put_use(UseKind::Pattern, *place, text, out),
        Expr::Template(_, _, pieces) => put_pieces(pieces, seen, alloc, out),
        Expr::Name(place, name) => put_name(*place, name, seen, out),
        Expr::List(_, items) => put_exprs(items, seen, alloc, out),
        Expr::Map(_, pairs) => put_pairs(pairs, seen, alloc, out),
        Expr::Closure(closure) => put_closure(closure, seen, alloc, out),
        Expr::Prefix(_, of) => put_expr(of, seen, alloc, out),
        Expr::Infix(first, rest) => {
            put_expr(first, seen, alloc, out)?;
            put_operands(rest, seen, alloc, out)
        }
        Expr::Conditional(first, rest) => {
            put_expr(first, seen, alloc, out)?;
            put_branches(rest, seen, alloc, out)
        }
        Expr::Postfix(first, rest) => {
            put_head(first, rest, seen, alloc, out)?;
            put_parts(rest, seen, alloc, out)
        }
    }
}

/// Lists a name that is read, unless the expression binds it.
fn put_name(place: Place, name: &Txt, seen: &Seen, out: &mut Vec<Use>) -> Result<(), Mem>
    ensures { OnOk result (out.new.items ≡ out.old.items ++ name_uses place name.now seen.now) }
{
    if seen.sees(name.as_str()) {
        return Ok(());
    }
    put_use(UseKind::Name, place, name, out)
}

/// Adds a use to the list.
pub(crate) fn put_use(
    kind: UseKind,
    place: Place,
    text: &Txt,
    out: &mut Vec<Use>,
) -> Result<(), Mem>
    ensures { OnOk result (out.new.items ≡ out.old.items ++ used kind place text.now ∷ []) }
{
    let text = text.copy()?;
    out.push(Use { kind, place, text })?;
    Ok(())
}

#[cycle(uses)]
fn put_exprs(items: &[Expr], seen: &Seen, alloc: Global, out: &mut Vec<Use>) -> Result<(), Mem>
    ensures { OnOk result (out.new.items ≡ out.old.items ++ uses (views items.now) seen.now) }
{
    for item in items {
        put_expr(item, seen, alloc, out)?;
    }
    Ok(())
}

#[cycle(uses)]
fn put_pieces(
    pieces: &[Fragment],
    seen: &Seen,
    alloc: Global,
    out: &mut Vec<Use>,
) -> Result<(), Mem>
    ensures { OnOk result (out.new.items ≡ out.old.items ++ uses (trees (map view_piece pieces.now)) seen.now) }
{
    for piece in pieces {
        put_piece(piece, seen, alloc, out)?;
    }
    Ok(())
}

#[cycle(uses)]
fn put_piece(piece: &Fragment, seen: &Seen, alloc: Global, out: &mut Vec<Use>) -> Result<(), Mem>
    ensures uses { OnOk result (out.new.items ≡ out.old.items ++ uses (view_piece piece.now) seen.now) }
    ensures defines { OnOk result (defined_by (view_piece piece.now) ≡ []) }
{
    match piece {
        Fragment::Plain(_, _) => Ok(()),
        Fragment::Hole(_, expr) => put_expr(expr, seen, alloc, out),
    }
}

#[cycle(uses)]
fn put_pairs(pairs: &[Pair], seen: &Seen, alloc: Global, out: &mut Vec<Use>) -> Result<(), Mem>
    ensures { OnOk result (out.new.items ≡ out.old.items ++ uses (trees (map view_pair pairs.now)) seen.now) }
{
    for pair in pairs {
        put_expr(&pair.value, seen, alloc, out)?;
    }
    Ok(())
}

#[cycle(uses)]
fn put_args(args: &[Arg], seen: &Seen, alloc: Global, out: &mut Vec<Use>) -> Result<(), Mem>
    ensures { OnOk result (out.new.items ≡ out.old.items ++ uses (trees (map view_arg args.now)) seen.now) }
{
    for arg in args {
        put_arg(arg, seen, alloc, out)?;
    }
    Ok(())
}

#[cycle(uses)]
fn put_arg(arg: &Arg, seen: &Seen, alloc: Global, out: &mut Vec<Use>) -> Result<(), Mem>
    ensures uses { OnOk result (out.new.items ≡ out.old.items ++ uses (view_arg arg.now) seen.now) }
    ensures defines { OnOk result (defined_by (view_arg arg.now) ≡ []) }
{
    put_expr(&arg.value, seen, alloc, out)
}

// ---- lists of one level

#[cycle(uses)]
fn put_operands(rest: &[Operand], seen: &Seen, alloc: Global, out: &mut Vec<Use>) -> Result<(), Mem>
    ensures { OnOk result (out.new.items ≡ out.old.items ++ operands_uses (map view_operand rest.now) seen.now) }
{
    for operand in rest {
        put_pattern(operand.operator, &operand.expr, out)?;
        put_expr(&operand.expr, seen, alloc, out)?;
    }
    Ok(())
}

/// Lists a plain string that is matched against.
fn put_pattern(operator: InfixOperator, expr: &Expr, out: &mut Vec<Use>) -> Result<(), Mem>
    ensures { OnOk result (out.new.items ≡ out.old.items ++ pattern_uses operator (view expr.now)) }
{
    match operator {
        InfixOperator::Matches => put_text(expr, out),
        _ => Ok(()),
    }
}

fn put_text(expr: &Expr, out: &mut Vec<Use>) -> Result<(), Mem>
    ensures { OnOk result (out.new.items ≡ out.old.items ++ text_uses (view expr.now)) }
{
    match read_leaf(expr) {
        Leaf::Text(place, text) => put_use(UseKind::Pattern, place, text, out),
        Leaf::Name(_, _) | Leaf::Other => Ok(()),
    }
}

#[cycle(uses)]
fn put_branches(rest: &[Branch], seen: &Seen, alloc: Global, out: &mut Vec<Use>) -> Result<(), Mem>
    ensures { OnOk result (out.new.items ≡ out.old.items ++ branches_uses (map view_branch rest.now) seen.now) }
{
    for branch in rest {
        put_expr(&branch.expr, seen, alloc, out)?;
    }
    Ok(())
}

/// Lists the uses of the expression before parts. As a function or as `Math` it is no name.
#[cycle(uses)]
fn put_head(
    first: &Expr,
    rest: &[Postfix],
    seen: &Seen,
    alloc: Global,
    out: &mut Vec<Use>,
) -> Result<(), Mem>
    ensures uses { OnOk result (out.new.items ≡ out.old.items ++ before_parts (view first.now) (map view_postfix rest.now) (uses (view first.now) seen.now)) }
    ensures defines { OnOk result (defined_by (view first.now) ≡ []) }
{
    match role_before(rest) {
        Role::Object => put_object(first, seen, alloc, out),
        Role::Callee => put_callee(first, seen, alloc, out),
        Role::Value => put_expr(first, seen, alloc, out),
    }
}

#[cycle(uses)]
fn put_object(first: &Expr, seen: &Seen, alloc: Global, out: &mut Vec<Use>) -> Result<(), Mem>
    ensures uses { OnOk result (out.new.items ≡ out.old.items ++ object_uses (view first.now) (uses (view first.now) seen.now)) }
    ensures defines { OnOk result (defined_by (view first.now) ≡ []) }
{
    if is_math(first) {
        return Ok(());
    }
    put_expr(first, seen, alloc, out)
}

/// Whether an expression is the name `Math`.
fn is_math(expr: &Expr) -> bool
    ensures value { result ≡ is_math_of (view expr.now) }
    ensures defines { result ≡ true → defined_by (view expr.now) ≡ [] }
{
    match read_leaf(expr) {
        Leaf::Name(_, name) => name.as_str() == "Math",
        Leaf::Text(_, _) | Leaf::Other => false,
    }
}

#[cycle(uses)]
fn put_callee(first: &Expr, seen: &Seen, alloc: Global, out: &mut Vec<Use>) -> Result<(), Mem>
    ensures uses { OnOk result (out.new.items ≡ out.old.items ++ callee_uses (view first.now) (uses (view first.now) seen.now)) }
    ensures defines { OnOk result (defined_by (view first.now) ≡ []) }
{
    match read_leaf(first) {
        Leaf::Name(place, name) => put_use(UseKind::Function, place, name, out),
        Leaf::Text(_, _) | Leaf::Other => put_expr(first, seen, alloc, out),
    }
}

#[cycle(uses)]
fn put_parts(parts: &[Postfix], seen: &Seen, alloc: Global, out: &mut Vec<Use>) -> Result<(), Mem>
    ensures { OnOk result (out.new.items ≡ out.old.items ++ parts_uses (map view_postfix parts.now) seen.now) }
{
    for part in parts {
        put_part(part, seen, alloc, out)?;
    }
    Ok(())
}

#[cycle(uses)]
fn put_part(part: &Postfix, seen: &Seen, alloc: Global, out: &mut Vec<Use>) -> Result<(), Mem>
    ensures { OnOk result (out.new.items ≡ out.old.items ++ part_uses (view_postfix part.now) seen.now) }
{
    match part {
        Postfix::Property(_, _) | Postfix::SafeProperty(_, _) => Ok(()),
        Postfix::Index(_, expr) => put_expr(expr, seen, alloc, out),
        Postfix::Call(_, args) => put_args(args, seen, alloc, out),
        Postfix::With(closure) => put_closure(closure, seen, alloc, out),
    }
}
