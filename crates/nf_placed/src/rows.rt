//! Rows of the table of methods.

ghost use Rattle.std.specs.Prelude.{◌≡◌, ◌++◌, codes, string_bytes, IfOk};
ghost use Rattle.nf_placed.specs.Row.{IsRowNamed};

use nf_builtins::{Builtin, builtins};
use nf_value::Mem;
use std::alloc::Global;

/// The row of that name in the table of methods, with its number. Takes time by the number of rows.
pub(crate) fn row_named(alloc: Global, name: &str) -> Result<Option<(usize, Builtin)>, Mem>
    ensures { IfOk result (IsRowNamed name.now) }
{
    let table = builtins(alloc)?;
    match table.find(name) {
        Some(row) => Ok(Some((row, table.rows()[row]))),
        None => Ok(None),
    }
}

/// The name of the row of a function of `Math`.
pub(crate) fn math_name(alloc: Global, name: &str) -> Result<String, Mem>
    ensures { IfOk result (λ full. string_bytes full ≡ codes "Math." ++ name.now) }
{
    let mut full = String::from_str(alloc, "Math.")?;
    full.push_str(name)?;
    Ok(full)
}
