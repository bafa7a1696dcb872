//! How reading an expression or a script ends.

use anyhow::Result;
use nf_exprs::{ParseFault, expr};
use nf_lexer::tokens;
use nf_parser::script;
use std::alloc::Global;

/// `ok` with the number of the tokens that an expression at the front takes and of all, or the fault.
pub(crate) fn expr_end(alloc: Global, text: &str) -> Result<String> {
    let tokens = match tokens(alloc, text.as_bytes()) {
        Ok(tokens) => tokens,
        Err(fault) => return Ok(format!(in alloc; "{fault}")?),
    };
    match expr(alloc, &tokens, 0) {
        Ok((_, next)) => Ok(format!(in alloc; "ok {next} of {}", tokens.items().len())?),
        Err(fault) => shown(alloc, fault),
    }
}

/// `ok` with the number of the parts of a script, or the fault.
pub(crate) fn script_end(alloc: Global, text: &str) -> Result<String> {
    let tokens = match tokens(alloc, text.as_bytes()) {
        Ok(tokens) => tokens,
        Err(fault) => return Ok(format!(in alloc; "{fault}")?),
    };
    match script(alloc, &tokens) {
        Ok(script) => Ok(format!(in alloc; "ok {}", script.tops.len())?),
        Err(fault) => shown(alloc, fault),
    }
}

/// The place and the name of a fault.
fn shown(alloc: Global, fault: ParseFault) -> Result<String> {
    Ok(match fault {
        ParseFault::Unexpected { place } => format!(in alloc; "{place} Unexpected")?,
        ParseFault::TooDeep { place } => format!(in alloc; "{place} TooDeep")?,
        ParseFault::Mem => format!(in alloc; "Mem")?,
    })
}
