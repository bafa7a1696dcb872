//! Copies of lists of expressions, of statements and of their parts, each by a loop.

ghost use Rattle.std.specs.Prelude.{◌≡◌, map, IfOk};
ghost use Rattle.nf_ast.specs.View.{view, view_operand, view_branch, view_postfix, view_piece, view_pair, view_arg, view_label, view_stmt, view_arm};

use crate::expr::{Arg, Arm, Branch, Expr, Fragment, Label, Operand, Pair, Postfix, Stmt};
use nf_value::Mem;
use std::alloc::Global;

/// Other expressions, of the same trees.
#[cycle(copy)]
pub(crate) fn copy_exprs(exprs: &[Expr], alloc: Global) -> Result<Vec<Expr>, Mem>
    ensures { IfOk result (λ v. map view v.items ≡ map view exprs.now) }
{
    let mut copies = Vec::new(alloc);
    for expr in exprs {
        copies.push(expr.copy(alloc)?)?;
    }
    Ok(copies)
}

/// Other texts and holes, of the same trees.
#[cycle(copy)]
pub(crate) fn copy_pieces(pieces: &[Fragment], alloc: Global) -> Result<Vec<Fragment>, Mem>
    ensures { IfOk result (λ v. map view_piece v.items ≡ map view_piece pieces.now) }
{
    let mut copies = Vec::new(alloc);
    for piece in pieces {
        copies.push(piece.copy(alloc)?)?;
    }
    Ok(copies)
}

/// Other pairs, of the same trees.
#[cycle(copy)]
pub(crate) fn copy_pairs(pairs: &[Pair], alloc: Global) -> Result<Vec<Pair>, Mem>
    ensures { IfOk result (λ v. map view_pair v.items ≡ map view_pair pairs.now) }
{
    let mut copies = Vec::new(alloc);
    for pair in pairs {
        copies.push(pair.copy(alloc)?)?;
    }
    Ok(copies)
}

/// Other operands with the same operators, of the same trees.
#[cycle(copy)]
pub(crate) fn copy_operands(operands: &[Operand], alloc: Global) -> Result<Vec<Operand>, Mem>
    ensures { IfOk result (λ v. map view_operand v.items ≡ map view_operand operands.now) }
{
    let mut copies = Vec::new(alloc);
    for operand in operands {
        copies.push(operand.copy(alloc)?)?;
    }
    Ok(copies)
}

/// Other operands of a conditional with the same operators, of the same trees.
#[cycle(copy)]
pub(crate) fn copy_branches(branches: &[Branch], alloc: Global) -> Result<Vec<Branch>, Mem>
    ensures { IfOk result (λ v. map view_branch v.items ≡ map view_branch branches.now) }
{
    let mut copies = Vec::new(alloc);
    for branch in branches {
        copies.push(branch.copy(alloc)?)?;
    }
    Ok(copies)
}

/// Other parts after an expression, of the same trees.
#[cycle(copy)]
pub(crate) fn copy_postfixes(postfixes: &[Postfix], alloc: Global) -> Result<Vec<Postfix>, Mem>
    ensures { IfOk result (λ v. map view_postfix v.items ≡ map view_postfix postfixes.now) }
{
    let mut copies = Vec::new(alloc);
    for part in postfixes {
        copies.push(part.copy(alloc)?)?;
    }
    Ok(copies)
}

/// Other arguments, of the same trees.
#[cycle(copy)]
pub(crate) fn copy_args(args: &[Arg], alloc: Global) -> Result<Vec<Arg>, Mem>
    ensures { IfOk result (λ v. map view_arg v.items ≡ map view_arg args.now) }
{
    let mut copies = Vec::new(alloc);
    for arg in args {
        copies.push(arg.copy(alloc)?)?;
    }
    Ok(copies)
}

/// Other labelled expressions, of the same trees.
#[cycle(copy)]
pub(crate) fn copy_labels(labels: &[Label], alloc: Global) -> Result<Vec<Label>, Mem>
    ensures { IfOk result (λ v. map view_label v.items ≡ map view_label labels.now) }
{
    let mut copies = Vec::new(alloc);
    for label in labels {
        copies.push(label.copy(alloc)?)?;
    }
    Ok(copies)
}

/// Other statements, of the same trees.
#[cycle(copy)]
pub(crate) fn copy_stmts(stmts: &[Stmt], alloc: Global) -> Result<Vec<Stmt>, Mem>
    ensures { IfOk result (λ v. map view_stmt v.items ≡ map view_stmt stmts.now) }
{
    let mut copies = Vec::new(alloc);
    for stmt in stmts {
        copies.push(stmt.copy(alloc)?)?;
    }
    Ok(copies)
}

/// Other arms, of the same trees.
#[cycle(copy)]
pub(crate) fn copy_arms(arms: &[Arm], alloc: Global) -> Result<Vec<Arm>, Mem>
    ensures { IfOk result (λ v. map view_arm v.items ≡ map view_arm arms.now) }
{
    let mut copies = Vec::new(alloc);
    for arm in arms {
        copies.push(arm.copy(alloc)?)?;
    }
    Ok(copies)
}
