//! The order in which functions are judged: a good one takes one round. No clause rests on it.

use indexmap::{IndexMap, IndexSet};
use nf_callees::DefinedFunction;
use nf_names_used::UseKind;
use nf_value::Mem;
use std::alloc::Global;

/// A visit of the function at a place.
#[derive(Drop, Clone, Copy)]
enum Visit {
    /// Before the functions that it calls.
    Before(usize),
    /// After them.
    After(usize),
}

/// The places of the functions, each after those that it calls, but for those that lead back.
pub(crate) fn callees_first(
    alloc: Global,
    functions: &IndexMap<String, DefinedFunction<'_>>,
) -> Result<Vec<usize>, Mem> {
    let mut visits = Vec::new(alloc);
    for at in 0..functions.len() {
        visits.push(Visit::Before(at))?;
    }
    let mut begun = IndexSet::new(alloc);
    let mut order = Vec::new(alloc);
    for _ in 0..most_visits(functions) {
        match visits.pop() {
            Some(Visit::Before(at)) => {
                if begun.insert(at)? {
                    visits.push(Visit::After(at))?;
                    put_callees(functions, at, &mut visits)?;
                }
            }
            Some(Visit::After(at)) => order.push(at)?,
            None => break,
        }
    }
    Ok(order)
}

/// Two for each function, and one for each of its uses.
fn most_visits(functions: &IndexMap<String, DefinedFunction<'_>>) -> usize {
    let mut most = functions.len().saturating_mul(2);
    for function in functions.values() {
        most = most.saturating_add(function.uses.len());
    }
    most
}

/// The functions that one calls are visited next.
fn put_callees(
    functions: &IndexMap<String, DefinedFunction<'_>>,
    at: usize,
    visits: &mut Vec<Visit>,
) -> Result<(), Mem> {
    let Some((_, function)) = functions.get_index(at) else {
        return Ok(());
    };
    for one in &function.uses {
        if let UseKind::Function = one.kind {
            if let Some(callee) = functions.get_index_of(one.text.as_str()) {
                visits.push(Visit::Before(callee))?;
            }
        }
    }
    Ok(())
}
