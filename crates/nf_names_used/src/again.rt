//! Lists names that are defined a second time.

ghost use Rattle.std.specs.Prelude.{◌≡◌, ◌++◌, option_map, OnOk};
ghost use Rattle.nf_ast.specs.Tree.{name as name_tree};
ghost use Rattle.nf_ast.specs.View.{names as names_tree, params_tree};
ghost use Rattle.nf_names_used.specs.Uses.{again_use, again_uses, params_uses};

use crate::exprs::put_use;
use crate::seen::{copies, has_name};
use crate::uses::{Use, UseKind};
use nf_value::{Mem, Place, Txt};
use std::alloc::Global;

/// Lists a name if it is among the known ones.
pub(crate) fn put_again(
    place: Place,
    name: &Txt,
    known: &[Txt],
    out: &mut Vec<Use>,
) -> Result<(), Mem>
    ensures { OnOk result (out.new.items ≡ out.old.items ++ again_use known.now (name_tree place name.now)) }
{
    if has_name(known, name.as_str()) {
        return put_use(UseKind::Again, place, name, out);
    }
    Ok(())
}

/// Lists each name that is among the known ones, or among the names before it.
pub(crate) fn put_agains(
    names: &[(Place, Txt)],
    known: &[Txt],
    alloc: Global,
    out: &mut Vec<Use>,
) -> Result<(), Mem>
    ensures { OnOk result (out.new.items ≡ out.old.items ++ again_uses known.now (names_tree names.now)) }
{
    let mut before = copies(alloc, known)?;
    for (place, name) in names {
        put_again(*place, name, &before, out)?;
        before.push(name.copy()?)?;
    }
    Ok(())
}

/// Lists each parameter of a closure that has the name of one before it.
pub(crate) fn put_params(
    params: &Option<Vec<(Place, Txt)>>,
    alloc: Global,
    out: &mut Vec<Use>,
) -> Result<(), Mem>
    ensures { OnOk result (out.new.items ≡ out.old.items ++ params_uses (params_tree (option_map (λ v. v.items) params.now))) }
{
    match params {
        Some(names) => put_agains(names, &[], alloc, out),
        None => Ok(()),
    }
}
