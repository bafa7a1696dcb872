//! Closures and options among arguments.

ghost use Rattle.std.specs.Prelude.{◌≡◌, map, Some, IfOk};
ghost use Rattle.nf_opkinds.specs.Closures as spec;

use nf_kinds::{ClosureFacts, Given};
use nf_value::{Mem, Txt};
use std::alloc::Global;

pub(crate) fn has_closure(args: &[Given]) -> bool
    ensures { result ≡ spec.has_closure args.now }
{
    args.iter().any(|given| given.closure.is_some())
}

pub(crate) fn has_other_closure(args: &[Given]) -> bool
    ensures { result ≡ spec.has_other_closure args.now }
{
    for given in args {
        if is_no_total(&given.closure) {
            return true;
        }
    }
    false
}

fn is_no_total(closure: &Option<ClosureFacts>) -> bool
    ensures { result ≡ spec.is_no_total closure.now }
{
    match closure {
        Some(facts) => !facts.is_total(),
        None => false,
    }
}

pub(crate) fn has_option(name: &str, args: &[Given]) -> bool
    ensures { result ≡ spec.has_option name.now args.now }
{
    for given in args {
        if is_named(name, &given.option) {
            return true;
        }
    }
    false
}

fn is_named(name: &str, option: &Option<Txt>) -> bool
    ensures { result ≡ spec.is_named name.now option.now }
{
    match option {
        Some(other) => other.as_str() == name,
        None => false,
    }
}

/// The labels of the first closure.
pub(crate) fn labels(alloc: Global, args: &[Given]) -> Result<Vec<Option<Txt>>, Mem>
    ensures { IfOk result (λ v. v.items ≡ map Some (spec.labels_by (spec.first_closure args.now))) }
{
    for given in args {
        if let Some(facts) = &given.closure {
            return some_copies(alloc, facts.labels());
        }
    }
    Ok(Vec::new(alloc))
}

fn some_copies(alloc: Global, names: &[Txt]) -> Result<Vec<Option<Txt>>, Mem>
    ensures { IfOk result (λ v. v.items ≡ map Some names.now) }
{
    let mut out = Vec::new(alloc);
    for name in names {
        out.push(Some(name.copy()?))?;
    }
    Ok(out)
}

/// The name that the first closure is.
pub(crate) fn closure_name(args: &[Given]) -> Result<Option<Txt>, Mem>
    ensures { IfOk result (λ n. n ≡ spec.name_by (spec.first_closure args.now)) }
{
    for given in args {
        if let Some(facts) = &given.closure {
            return copy_name(facts.name());
        }
    }
    Ok(None)
}

fn copy_name(name: &Option<Txt>) -> Result<Option<Txt>, Mem>
    ensures { IfOk result (λ n. n ≡ name.now) }
{
    match name {
        Some(name) => Ok(Some(name.copy()?)),
        None => Ok(None),
    }
}
