//! `Waiting`: a function that waits for those that it calls.

ghost use Rattle.std.specs.Prelude.{◌≡◌, ◌∷◌, [], IfOk, MatchOption};
ghost use Rattle.std.specs.List.{list_all};
ghost use Rattle.nf_library.specs.Calls as spec;
ghost use Rattle.nf_library.specs.Calls.{calls_in, use_calls};

use indexmap::IndexSet;
use nf_ast::{Function, Stmt};
use nf_names_used::{Use, UseKind, stmts_uses};
use nf_value::{Mem, Txt};
use std::alloc::Global;

/// A function of a script, with the names of the functions that its body calls.
#[derive(Drop)]
pub(crate) struct Waiting<'a> {
    /// The function.
    pub(crate) function: &'a Function,
    /// The names that it calls, in the order of the text.
    pub(crate) calls: Vec<Txt>,
    ghost are_its: { calls.items ≡ calls_in function.now.body.items },
}

impl<'a> Waiting<'a> {
    ghost use Rattle.nf_eval.specs.Functions.{definition_of};

    /// A function with the names that it calls.
    ///
    /// # Errors
    ///
    /// `Mem` for want of memory.
    pub(crate) fn read(alloc: Global, function: &'a Function) -> Result<Waiting<'a>, Mem>
        ensures { IfOk result (λ w. w.function.now ≡ function.now) }
    {
        let calls = calls_of(alloc, &function.body)?;
        Ok(Waiting { function, calls })
    }

    /// Whether it calls no function of these names but those that are placed. Takes no memory.
    pub(crate) fn is_ready(&self, names: &IndexSet<String>, placed: &IndexSet<String>) -> bool
        ensures { result ≡ spec.is_ready names.now.keys placed.now.keys (definition_of self.now.function.now) }
    {
        are_placed(&self.calls, names, placed)
    }
}

/// Whether each of these names is none of a function, or of one that is placed.
fn are_placed(calls: &[Txt], names: &IndexSet<String>, placed: &IndexSet<String>) -> bool
    ensures { result ≡ list_all (spec.is_placed names.now.keys placed.now.keys) calls.now }
{
    for name in calls {
        if !is_placed(name.as_str(), names, placed) {
            return false;
        }
    }
    true
}

fn is_placed(name: &str, names: &IndexSet<String>, placed: &IndexSet<String>) -> bool
    ensures { result ≡ spec.is_placed names.now.keys placed.now.keys name.now }
{
    !names.contains(name) || placed.contains(name)
}

/// The names of the functions that statements call.
fn calls_of(alloc: Global, body: &[Stmt]) -> Result<Vec<Txt>, Mem>
    ensures { IfOk result (λ v. v.items ≡ calls_in body.now) }
{
    let uses = stmts_uses(alloc, body)?;
    let mut calls = Vec::new(alloc);
    for one in &uses {
        if let Some(name) = called(one) {
            calls.push(name.copy()?)?;
        }
    }
    Ok(calls)
}

/// The name of the function that a use calls, if it calls one.
fn called(one: &Use) -> Option<&Txt>
    ensures { MatchOption result (use_calls one.now ≡ []) (λ n. use_calls one.now ≡ n.now ∷ []) }
{
    match one.kind {
        UseKind::Function => Some(&one.text),
        UseKind::Name => None,
        UseKind::Assigned => None,
        UseKind::Again => None,
        UseKind::Pattern => None,
    }
}
