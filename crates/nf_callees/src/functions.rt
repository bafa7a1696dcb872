//! `DefinedFunction`: a function of a script, with what it uses.

ghost use Rattle.std.specs.Prelude.{◌≡◌, map, IfOk};
ghost use Rattle.nf_ast.specs.Tree as tree;
ghost use Rattle.nf_ast.specs.View.{names, view_closure, view_stmt, view_stmts};
ghost use Rattle.nf_callees.specs.Found.{HasUses};

use nf_ast::{ClosureBody, ClosureExpr, Function, Stmt};
use nf_names_used::{Use, closure_uses};
use nf_value::{Mem, Place, Txt};
use std::alloc::Global;

/// A function of a script (Nextflow reference documentation, "Syntax", "Function"), with what its parameters and its body use.
#[derive(Drop)]
pub struct DefinedFunction<'a> {
    /// The function.
    pub function: &'a Function,
    /// What it uses, in the order of the text.
    pub uses: Vec<Use>,
}

impl<'a> DefinedFunction<'a> {
    /// A function with its uses.
    pub(crate) fn read(alloc: Global, function: &'a Function) -> Result<DefinedFunction<'a>, Mem>
        ensures function { IfOk result (λ f. f.function.now ≡ function.now) }
        ensures uses { IfOk result HasUses }
    {
        let uses = closure_uses(alloc, &closure_of(alloc, function)?)?;
        Ok(DefinedFunction { function, uses })
    }
}

/// A function as the closure of its parameters and its body.
fn closure_of(alloc: Global, function: &Function) -> Result<ClosureExpr, Mem>
    ensures { IfOk result (λ c. view_closure c ≡ tree.closure function.now.place
        (tree.params (names function.now.params.items)) (view_stmts function.now.body.items)) }
{
    let params = copy_params(alloc, &function.params)?;
    let body = copy_body(alloc, &function.body)?;
    Ok(ClosureExpr::new(function.place, Some(params), ClosureBody::statements(body)))
}

fn copy_params(alloc: Global, params: &[(Place, Txt)]) -> Result<Vec<(Place, Txt)>, Mem>
    ensures { IfOk result (λ v. v.items ≡ params.now) }
{
    let mut copies = Vec::new(alloc);
    for (place, name) in params {
        copies.push((*place, name.copy()?))?;
    }
    Ok(copies)
}

fn copy_body(alloc: Global, stmts: &[Stmt]) -> Result<Vec<Stmt>, Mem>
    ensures { IfOk result (λ v. map view_stmt v.items ≡ map view_stmt stmts.now) }
{
    let mut copies = Vec::new(alloc);
    for stmt in stmts {
        copies.push(stmt.copy(alloc)?)?;
    }
    Ok(copies)
}
