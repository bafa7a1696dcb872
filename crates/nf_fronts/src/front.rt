//! `Front`: an expression, or the front of one.

ghost use Rattle.std.specs.Prelude.{◌≡◌, map, IfOk};
ghost use Rattle.nf_ast.specs.View.{view, view_branch, view_operand, view_postfix};

use nf_ast::{Branch, Expr, Operand, Postfix};
use nf_value::Mem;
use std::alloc::Global;

/// An expression, or the front of one (own): `a | b` of `a | b | c`, and `a.b` of `a.b(c)`. It lies in the expression's own memory. Contracts see
/// its tree, by `tree_of`.
#[derive(Drop, Clone, Copy)]
pub enum Front<'e> {
    /// An expression as a whole.
    Whole(&'e Expr),
    /// An operand with some after it.
    Operands(&'e Expr, &'e [Operand]),
    /// An operand of a conditional expression with some after it.
    Turns(&'e Expr, &'e [Branch]),
    /// An expression with some parts after it.
    Parts(&'e Expr, &'e [Postfix]),
}

impl<'e> Front<'e> {
    ghost use Rattle.nf_fronts.specs.Fronts.{tree_of};

    /// A copy, as an expression of its own.
    ///
    /// # Errors
    ///
    /// `Mem` for want of memory.
    pub fn copy_out(self, alloc: Global) -> Result<Expr, Mem>
        ensures { IfOk result (λ e. view e ≡ tree_of self.entry) }
    {
        match self {
            Front::Whole(expr) => expr.copy(alloc),
            Front::Operands(first, rest) => {
                Expr::infix(alloc, first.copy(alloc)?, copy_operands(alloc, rest)?)
            }
            Front::Turns(first, rest) => {
                Expr::conditional(alloc, first.copy(alloc)?, copy_branches(alloc, rest)?)
            }
            Front::Parts(first, rest) => {
                Expr::postfix(alloc, first.copy(alloc)?, copy_parts(alloc, rest)?)
            }
        }
    }
}

fn copy_operands(alloc: Global, operands: &[Operand]) -> Result<Vec<Operand>, Mem>
    ensures { IfOk result (λ v. map view_operand v.items ≡ map view_operand operands.now) }
{
    let mut copies = Vec::new(alloc);
    for operand in operands {
        copies.push(operand.copy(alloc)?)?;
    }
    Ok(copies)
}

fn copy_branches(alloc: Global, branches: &[Branch]) -> Result<Vec<Branch>, Mem>
    ensures { IfOk result (λ v. map view_branch v.items ≡ map view_branch branches.now) }
{
    let mut copies = Vec::new(alloc);
    for branch in branches {
        copies.push(branch.copy(alloc)?)?;
    }
    Ok(copies)
}

fn copy_parts(alloc: Global, parts: &[Postfix]) -> Result<Vec<Postfix>, Mem>
    ensures { IfOk result (λ v. map view_postfix v.items ≡ map view_postfix parts.now) }
{
    let mut copies = Vec::new(alloc);
    for part in parts {
        copies.push(part.copy(alloc)?)?;
    }
    Ok(copies)
}
