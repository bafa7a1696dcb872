//! Gives names their values: the parameters of a call, and the names of a `def` with several.

ghost use Rattle.std.specs.Prelude.{◌≡◌, ◌∷◌, [], map, length, codes, option_map, IfOk};
ghost use Rattle.nf_value.specs.Plain.{list as list_plain, plains_of};
ghost use Rattle.nf_value.specs.View.{plain_of, pair_of};
ghost use Rattle.nf_ast.specs.View.{names as names_tree, params_tree};
ghost use Rattle.nf_placed.specs.Body.{Binds, names_in, bound as bound_of, named as named_of, one_named as one_named_of, split as split_of, spread as spread_of, paired as paired_of};

use crate::places::fault_at;
use nf_value::{EvalKind, EvalRefusal, Mem, Place, Txt, Vals, Value};
use std::alloc::Global;

/// The parameters of a closure with their values, in their order (Nextflow reference documentation, "Syntax", "Closure"). A closure without an arrow has
/// the parameter `it`. Several parameters take one list of as many items apart.
///
/// # Errors
///
/// `Arity` at the place for another number of arguments than that (own). `Mem` where there is no memory for them.
pub fn bound(
    alloc: Global,
    place: Place,
    params: &Option<Vec<(Place, Txt)>>,
    args: &[Value],
) -> Result<Vec<(Txt, Value)>, EvalRefusal>
    ensures { Binds (bound_of place (params_tree (option_map (λ v. v.items) params.now)) (map plain_of args.now)) result }
{
    match params {
        Some(names) => named(alloc, place, names, args),
        None => one_named(alloc, place, args),
    }
}

fn one_named(alloc: Global, place: Place, args: &[Value]) -> Result<Vec<(Txt, Value)>, EvalRefusal>
    ensures { Binds (one_named_of place (map plain_of args.now)) result }
{
    match args {
        [only] => Ok(it(alloc, only)?),
        _ => Err(fault_at(place, EvalKind::Arity)),
    }
}

fn it(alloc: Global, value: &Value) -> Result<Vec<(Txt, Value)>, Mem>
    ensures { IfOk result (λ v. map pair_of v.items ≡ (codes "it", plain_of value.now) ∷ []) }
{
    let name = Txt::of(String::from_str(alloc, "it")?);
    let value = value.copy()?;
    Ok(vec![in alloc; (name, value)]?)
}

fn named(
    alloc: Global,
    place: Place,
    names: &[(Place, Txt)],
    args: &[Value],
) -> Result<Vec<(Txt, Value)>, EvalRefusal>
    ensures { Binds (named_of place (names_in (names_tree names.now)) (map plain_of args.now)) result }
{
    if names.len() == args.len() {
        return Ok(paired(alloc, names, args)?);
    }
    spread(alloc, place, names, args)
}

fn spread(
    alloc: Global,
    place: Place,
    names: &[(Place, Txt)],
    args: &[Value],
) -> Result<Vec<(Txt, Value)>, EvalRefusal>
    ensures { Binds (spread_of place (names_in (names_tree names.now)) (map plain_of args.now)) result }
{
    match args {
        [only] => spread_one(alloc, place, names, only),
        _ => Err(fault_at(place, EvalKind::Arity)),
    }
}

fn spread_one(
    alloc: Global,
    place: Place,
    names: &[(Place, Txt)],
    value: &Value,
) -> Result<Vec<(Txt, Value)>, EvalRefusal>
    ensures { Binds (spread_of place (names_in (names_tree names.now)) (plain_of value.now ∷ [])) result }
{
    if names.len() > 1 {
        split(alloc, place, names, value)
    } else {
        Err(fault_at(place, EvalKind::Arity))
    }
}

/// Names with the items of a list as their values (Nextflow reference documentation, "Syntax", "Variable declaration").
///
/// # Errors
///
/// `Arity` at the place where the value is no list of as many items as there are names (own). `Mem` where there is no memory for them.
pub fn split(
    alloc: Global,
    place: Place,
    names: &[(Place, Txt)],
    value: &Value,
) -> Result<Vec<(Txt, Value)>, EvalRefusal>
    ensures { Binds (split_of place (names_in (names_tree names.now)) (plain_of value.now)) result }
{
    match value {
        Value::List(list) => split_items(alloc, place, names, list),
        _ => Err(fault_at(place, EvalKind::Arity)),
    }
}

fn split_items(
    alloc: Global,
    place: Place,
    names: &[(Place, Txt)],
    list: &Vals,
) -> Result<Vec<(Txt, Value)>, EvalRefusal>
    ensures { Binds (split_of place (names_in (names_tree names.now)) (list_plain (plains_of list.now))) result }
{
    if names.len() == list.len() {
        Ok(paired(alloc, names, list.items())?)
    } else {
        Err(fault_at(place, EvalKind::Arity))
    }
}

/// Each name with the value at its place, a copy. There are as many values as names.
///
/// # Errors
///
/// `Mem` where there is no memory for them.
pub fn paired(
    alloc: Global,
    names: &[(Place, Txt)],
    args: &[Value],
) -> Result<Vec<(Txt, Value)>, Mem>
    requires { length names.now ≡ length args.now }
    ensures { IfOk result (λ v. map pair_of v.items ≡ paired_of (names_in (names_tree names.now)) (map plain_of args.now)) }
{
    let mut pairs = Vec::new(alloc);
    for (i, (_, name)) in names.iter().enumerate() {
        pairs.push((name.copy()?, args[i].copy()?))?;
    }
    Ok(pairs)
}
