//! Sorted lists of a bag's values.

ghost use Rattle.std.specs.Prelude.{◌≡◌, IfOk, map};
ghost use Rattle.nf_value.specs.View.{plain_of};
ghost use Rattle.nf_bag.specs.Sorted.{sorted_of, distinct_of};

use nf_value::{Mem, Vals, Value};

/// The values of a list in rising order (own). Time: some n log n comparisons of values.
///
/// # Errors
///
/// `Mem` if there is no memory for it; the list is then lost.
pub fn sorted(list: Vals) -> Result<Vals, Mem>
    ensures { IfOk result (λ l. l ≡ sorted_of list) }
{
    let items = rising(list)?;
    Ok(Vals::of(items))
}

/// Each value of a list once, in rising order (own). Time: some n log n comparisons of values.
///
/// # Errors
///
/// `Mem` if there is no memory for it; the list is then lost.
pub fn distinct(list: Vals) -> Result<Vals, Mem>
    ensures { IfOk result (λ l. l ≡ distinct_of list) }
{
    let mut once = rising(list)?;
    once.dedup();
    Ok(Vals::of(once))
}

fn rising(list: Vals) -> Result<Vec<Value>, Mem>
    ensures { IfOk result (λ v. map plain_of v.items ≡ sorted_of list) }
{
    let mut items = list.into_items();
    items.sort()?;
    Ok(items)
}
