//! Expressions in texts.

use anyhow::{Result, bail};
use nf_ast::Expr;
use nf_exprs::expr;
use nf_lexer::tokens;
use std::alloc::Global;

/// A copy of the expression that a text spells, so that each row also shows that copies keep every part.
pub(crate) fn parsed(alloc: Global, text: &str) -> Result<Expr> {
    let tokens = match tokens(alloc, text.as_bytes()) {
        Ok(tokens) => tokens,
        Err(fault) => bail!("{text}: {fault}"),
    };
    match expr(alloc, &tokens, 0) {
        Ok((expr, next)) => {
            if next != tokens.items().len() {
                bail!("{text}: more than an expression");
            }
            Ok(expr.copy(alloc)?)
        }
        Err(_) => bail!("{text}: no expression"),
    }
}
