//! Asks an environment for each use of an expression.

ghost use Rattle.std.specs.Prelude.{◌≡◌, ◌++◌, ℕ, List, Option, IfOk};
ghost use Rattle.nf_value.specs.Plain.{Plain};
ghost use Rattle.nf_ast.specs.View.{view, view_closure};
ghost use Rattle.nf_builtins.specs.Natives.{is_among};
ghost use Rattle.nf_placed.specs.Scope.{function_names};
ghost use Rattle.nf_eval.specs.Memory.{env_of};
ghost use Rattle.nf_names_bound.specs.Bound.{unbound_in, is_known, first_unknown as first_unknown_of};

use nf_ast::{ClosureExpr, Expr};
use nf_builtins::Natives;
use nf_eval::Env;
use nf_names_used::{Use, UseKind, closure_uses, expr_uses};
use nf_value::{Mem, Place};
use std::alloc::Global;

/// The place of the first use, in the order of the text, that the environment doesn't bind (own): a name without a value, an assignment to a name that no
/// body within the expression defines, a function that neither the script nor the program has, a pattern (or a plain string that is matched against) that
/// isn't built, or a name that is defined a second time in one list of parameters or between the same braces. `None` where all is bound. Takes time by the number of uses, times the number of names.
///
/// # Errors
///
/// `Mem` where there is no memory for the list of uses.
pub fn unbound<N: Natives>(
    alloc: Global,
    expr: &Expr,
    env: &Env,
    natives: &N,
) -> Result<Option<Place>, Mem>
    ensures { IfOk result (λ p. p ≡ unbound_in (env_of env.now (N.titles natives.now) (N.answer natives.now)) (view expr.now)) }
{
    let uses = expr_uses(alloc, expr)?;
    Ok(first_unknown(&uses, env, natives))
}

/// The same for a closure, whose parameters are names of its own.
///
/// # Errors
///
/// `Mem` where there is no memory for the list of uses.
pub fn unbound_closure<N: Natives>(
    alloc: Global,
    closure: &ClosureExpr,
    env: &Env,
    natives: &N,
) -> Result<Option<Place>, Mem>
    ensures { IfOk result (λ p. p ≡ unbound_in (env_of env.now (N.titles natives.now) (N.answer natives.now)) (view_closure closure.now)) }
{
    let uses = closure_uses(alloc, closure)?;
    Ok(first_unknown(&uses, env, natives))
}

fn first_unknown<N: Natives>(uses: &[Use], env: &Env, natives: &N) -> Option<Place>
    ensures { result ≡ first_unknown_of (env_of env.now (N.titles natives.now) (N.answer natives.now)) uses.now }
{
    for one in uses {
        if !is_bound(one, env, natives) {
            return Some(one.place);
        }
    }
    None
}

fn is_bound<N: Natives>(one: &Use, env: &Env, natives: &N) -> bool
    ensures { result ≡ is_known (env_of env.now (N.titles natives.now) (N.answer natives.now)) one.now.kind one.now.text }
{
    let text = one.text.as_str();
    match one.kind {
        UseKind::Name => env.has_name(text),
        UseKind::Assigned => false,
        UseKind::Again => false,
        UseKind::Function => is_function(text, env, natives),
        UseKind::Pattern => env.has_pattern(text),
    }
}

fn is_function<N: Natives>(name: &str, env: &Env, natives: &N) -> bool
    ensures { result ≡ is_among name.now (function_names (env_of env.now (N.titles natives.now) (N.answer natives.now)) ++ N.titles natives.now) }
{
    env.has_function(name) || has_title(name, natives)
}

/// Whether a function of the program has the name.
fn has_title<N: Natives>(name: &str, natives: &N) -> bool
    ensures { result ≡ is_among name.now (N.titles natives.now) }
{
    for id in 0..natives.count() {
        if natives.name(id) == name {
            return true;
        }
    }
    false
}
