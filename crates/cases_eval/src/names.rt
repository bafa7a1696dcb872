//! The names that stand in rows.

use crate::parsed::parsed;
use anyhow::Result;
use nf_ast::Expr;
use nf_relevant::{names_in, names_in_closure};
use std::alloc::Global;

/// The names that stand in an expression, or in the body of a closure.
pub(crate) fn names(alloc: Global, text: &str) -> Result<String> {
    let expr = parsed(alloc, text)?;
    let names = match &expr {
        Expr::Closure(closure) => names_in_closure(alloc, closure)?,
        expr => names_in(alloc, expr)?,
    };
    if names.is_empty() {
        return Ok(String::from_str(alloc, "nothing")?);
    }
    let mut out = String::new(alloc);
    for name in &names {
        if !out.is_empty() {
            out.push_str(" ")?;
        }
        out.push_str(name.as_str())?;
    }
    Ok(out)
}
