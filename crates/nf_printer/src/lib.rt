//! Prints the canonical text of a script: what `fmt` writes.
#![tactic(auto)]

ghost use Rattle.std.specs.Prelude.{◌≡◌, IfOk};
ghost use Rattle.nf_ast.specs.Tops.{view_script};
ghost use Rattle.nf_printer.specs.Tops.{canonical};

mod branches;
mod closures;
mod exprs;
mod leading;
mod levels;
mod processes;
mod tops;

use crate::tops::put_tops;
use nf_ast::Script;
use nf_value::Mem;
use nf_writer::{Margin, Writer};
use std::alloc::Global;

/// The canonical text of a script (own): the same for all texts that have this tree, places aside.
///
/// # Errors
///
/// `Mem` where there is no memory for it.
pub fn print(alloc: Global, script: &Script) -> Result<Vec<u8>, Mem>
    ensures { IfOk result (λ v. v.items ≡ canonical (view_script script.now)) }
{
    let mut out = Writer::new(alloc);
    put_tops(&script.tops, &Margin::outside(alloc), &mut out)?;
    Ok(out.into_bytes())
}
