//! `generated_script`: the script of `gen`.

ghost use Rattle.std.specs.Prelude.{◌≡◌, IfOk};
ghost use Rattle.nf_gen.specs.Script.{script};

use crate::items::push_items;
use nf_value::{Mem, Txt};
use std::alloc::Global;

/// What stands before the items.
const BEFORE: &str = "workflow {\n    ch = channel.of(";

/// What stands after the items.
const AFTER: &str =
    ")\n    ch.map { it * 3 }.filter { it % 2 == 0 }.view()\n    ch.map { [it % 10, it] }.groupTuple().view()\n    ch.reduce { a, b -> a + b }.view()\n}\n";

/// The script that `gen N START` runs (own): a channel of `n` items from 0 to 999, made from `start`; the even ones of their triples, their
/// groups by the last digit, and their sum. The items are bits 33 and up of the numbers of a linear congruential generator, modulo 1,000.
/// The same two numbers always give the same bytes.
///
/// # Errors
///
/// `Mem` if there is no memory for it.
pub fn generated_script(alloc: Global, n: u32, start: u64) -> Result<Txt, Mem>
    ensures { IfOk result (λ t. t ≡ script n start) }
{
    let mut out = String::from_str(alloc, BEFORE)?;
    push_items(&mut out, n, start)?;
    out.push_str(AFTER)?;
    Ok(Txt::of(out))
}
