//! What rows use, and what of it nothing binds.

use crate::functions::known_functions;
use crate::known::known;
use crate::parsed::parsed;
use crate::patterns::add_pattern;
use anyhow::Result;
use nf_ast::Expr;
use nf_builtins::Natives;
use nf_names_bound::{unbound, unbound_closure};
use nf_names_used::{Use, expr_uses};
use nf_value::Txt;
use std::alloc::Global;

/// What an expression uses of what stands around it, each with its place.
pub(crate) fn uses(alloc: Global, text: &str) -> Result<String> {
    let expr = parsed(alloc, text)?;
    let uses = expr_uses(alloc, &expr)?;
    if uses.is_empty() {
        return Ok(String::from_str(alloc, "nothing")?);
    }
    shown(alloc, &uses)
}

fn shown(alloc: Global, uses: &[Use]) -> Result<String> {
    let mut out = String::new(alloc);
    for one in uses {
        if !out.is_empty() {
            out.push_str("; ")?;
        }
        let kind = one.kind;
        let place = one.place;
        let text = one.text.as_str();
        let one = format!(in alloc; "{kind:?} {text} at {place}")?;
        out.push_str(one.as_str())?;
    }
    Ok(out)
}

/// The place of the first that neither the names and functions of all rows nor the pattern `a` bind.
pub(crate) fn unbound_place<N: Natives>(alloc: Global, text: &str, natives: &N) -> Result<String>
    requires { N.keeps natives.now }
{
    let expr = parsed(alloc, text)?;
    let mut library = known_functions(alloc)?;
    add_pattern(alloc, Txt::of(String::from_str(alloc, "a")?), &mut library)?;
    let env = known(alloc, library, natives)?;
    let place = match &expr {
        Expr::Closure(code) => unbound_closure(alloc, code, &env, natives)?,
        expr => unbound(alloc, expr, &env, natives)?,
    };
    match place {
        Some(place) => Ok(format!(in alloc; "{place}")?),
        None => Ok(String::from_str(alloc, "bound")?),
    }
}
