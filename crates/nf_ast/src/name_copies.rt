//! Copies of names and prefix operators, which hold no expression.

ghost use Rattle.std.specs.Prelude.{◌≡◌, IfOk, option_map};

use crate::expr::Prefix;
use nf_value::{Mem, Place, Txt};
use std::alloc::Global;

/// The same name or text with its place, where there is one.
pub(crate) fn copy_name(name: &Option<(Place, Txt)>) -> Result<Option<(Place, Txt)>, Mem>
    ensures { IfOk result (λ n. n ≡ name.now) }
{
    match name {
        None => Ok(None),
        Some((place, name)) => Ok(Some((*place, name.copy()?))),
    }
}

/// The same names with their places.
pub(crate) fn copy_names(names: &[(Place, Txt)], alloc: Global) -> Result<Vec<(Place, Txt)>, Mem>
    ensures { IfOk result (λ v. v.items ≡ names.now) }
{
    let mut copies = Vec::new(alloc);
    for (place, name) in names {
        copies.push((*place, name.copy()?))?;
    }
    Ok(copies)
}

/// The same names with their places, where there is a list of them.
pub(crate) fn copy_params(
    params: &Option<Vec<(Place, Txt)>>,
    alloc: Global,
) -> Result<Option<Vec<(Place, Txt)>>, Mem>
    ensures { IfOk result (λ p. option_map (λ v. v.items) p ≡ option_map (λ v. v.items) params.now) }
{
    match params {
        None => Ok(None),
        Some(names) => Ok(Some(copy_names(names, alloc)?)),
    }
}

/// The same operators.
pub(crate) fn copy_prefixes(prefixes: &[Prefix], alloc: Global) -> Result<Vec<Prefix>, Mem>
    ensures { IfOk result (λ v. v.items ≡ prefixes.now) }
{
    let mut copies = Vec::new(alloc);
    for prefix in prefixes {
        copies.push(*prefix)?;
    }
    Ok(copies)
}
