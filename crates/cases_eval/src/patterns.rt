//! Patterns that rows match against.

ghost use Rattle.std.specs.Prelude.{◌≡◌, IfOk};

use anyhow::{Result, bail};
use nf_eval::Library;
use nf_names_used::{Use, UseKind};
use nf_pattern::WholeRe;
use nf_value::Txt;
use std::alloc::Global;

/// Builds the patterns that are used.
pub(crate) fn build_patterns(alloc: Global, uses: &[Use], library: &mut Library) -> Result<()> {
    for used in uses {
        match used.kind {
            UseKind::Pattern => add_pattern(alloc, used.text.copy()?, library)?,
            _ => {}
        }
    }
    Ok(())
}

/// Builds the pattern of a text.
pub(crate) fn add_pattern(alloc: Global, text: Txt, library: &mut Library) -> Result<()> {
    let re = built(alloc, &text)?;
    library.add_pattern(text, re)?;
    Ok(())
}

/// The pattern of a text.
fn built(alloc: Global, text: &Txt) -> Result<WholeRe>
    ensures { IfOk result (λ re. re ≡ text.now) }
{
    match WholeRe::new(alloc, text.as_str()) {
        Ok(re) => Ok(re),
        Err(_) => bail!("no pattern"),
    }
}
