//! Judges closures in a workflow's body: by the names that they use.

ghost use Rattle.std.specs.Prelude.{◌≡◌, ◌++◌, IfOk, OnOk};
ghost use Rattle.nf_ast.specs.View.{view_closure};
ghost use Rattle.nf_builtins.specs.Natives.{is_among};
ghost use Rattle.nf_names_used.specs.Uses.{uses, no_names};
ghost use Rattle.nf_slips.specs.Closures as spec;
ghost use Rattle.nf_slips.specs.Closures.{closure_kind, closure_broken};

use crate::slips::add_assigned;
use nf_ast::ClosureExpr;
use nf_kinds::{BodyScope, Broken, Kinds};
use nf_names_used::{Use, UseKind, closure_uses};
use nf_value::{Mem, Txt};
use std::alloc::Global;

/// What a closure in a workflow's body may be (own): a plain value, or unknown where it uses an unknown name.
/// `unknown` has the names that a table has and the script doesn't define: no function can be called by them. Adds the
/// rule that it breaks by each assignment to a name that isn't its own, and none where it is unknown.
///
/// # Errors
///
/// `Mem` where there is no memory for what it uses.
pub fn closure_kinds(
    alloc: Global,
    closure: &ClosureExpr,
    unknown: &[Txt],
    scope: &BodyScope,
    broken: &mut Vec<Broken>,
) -> Result<Kinds, Mem>
    ensures kinds { IfOk result (λ k. k
        ≡ closure_kind unknown.now (uses (view_closure closure.now) no_names) scope.now) }
    ensures broken { OnOk result (broken.new.items ≡ broken.old.items
        ++ closure_broken unknown.now (uses (view_closure closure.now) no_names) scope.now) }
{
    let uses = closure_uses(alloc, closure)?;
    if has_unknown(unknown, &uses, scope) {
        return Ok(Kinds::unknown());
    }
    add_assigned(&uses, broken)?;
    Ok(Kinds::plain())
}

fn has_unknown(unknown: &[Txt], uses: &[Use], scope: &BodyScope) -> bool
    ensures { result ≡ spec.has_unknown unknown.now uses.now scope.now }
{
    for one in uses {
        if is_unknown(unknown, one, scope) {
            return true;
        }
    }
    false
}

fn is_unknown(unknown: &[Txt], one: &Use, scope: &BodyScope) -> bool
    ensures { result ≡ spec.is_unknown_as one.now.kind unknown.now one.now.text scope.now }
{
    match one.kind {
        UseKind::Name => scope.is_unknown(one.text.as_str()),
        UseKind::Function => has_name(unknown, one.text.as_str()),
        UseKind::Assigned | UseKind::Again | UseKind::Pattern => false,
    }
}

fn has_name(names: &[Txt], name: &str) -> bool
    ensures { result ≡ is_among name.now names.now }
{
    for other in names {
        if other.as_str() == name {
            return true;
        }
    }
    false
}
