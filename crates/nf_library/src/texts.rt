//! Sets of texts.

ghost use Rattle.std.specs.Prelude.{OnOk};
ghost use Rattle.nf_known.specs.Stuck.{HasOneMore};

use indexmap::IndexSet;
use nf_value::{Mem, Txt};
use std::alloc::Global;

/// Adds a text.
pub(crate) fn add_key(alloc: Global, text: &Txt, set: &mut IndexSet<String>) -> Result<(), Mem>
    ensures { OnOk result (HasOneMore text.now set.old.keys set.new.keys) }
{
    set.insert(String::from_str(alloc, text.as_str())?)?;
    Ok(())
}
