//! The names, functions and patterns that an expression sees.

ghost use Rattle.std.specs.Prelude.{◌≡◌, ◌≤◌, ◌+◌, suc, ℕ, List, Option, None, Some, IfOk, IfSome, MatchOption, if◌then◌else◌};
ghost use Rattle.nf_value.specs.Plain.{Plain};
ghost use Rattle.nf_value.specs.View.{plain_of};
ghost use Rattle.nf_value.specs.declared.fault.EvalKind.TheVariants.{WrongKind};
ghost use Rattle.nf_builtins.specs.Natives.{is_among};
ghost use Rattle.nf_infix.specs.Compare.{matches};
ghost use Rattle.nf_placed.specs.Placed.{Evaluates, made, fault};
ghost use Rattle.nf_placed.specs.Scope.{value_of, function_in};
ghost use Rattle.nf_eval.specs.Functions.{definition_of, definitions_in, function_of, depth, depths};
ghost use Rattle.nf_eval.specs.Memory.{seen, held, IsHandedIn};

use crate::environment::{Env, matched};
use crate::functions::function_named;
use crate::scope::Scope;
use nf_ast::Function;
use nf_value::{EvalRefusal, Mem, Place, Value};
use std::alloc::Global;

/// What an expression sees: the names of the bodies that it stands in, the innermost first, and the environment around them.
#[derive(Clone, Copy)]
pub(crate) enum Around<'a> {
    /// No body: all that an environment has.
    Whole(&'a Env),
    /// The body of a closure: its own names, and what is seen around it.
    Body(&'a Scope, &'a Around<'a>),
    /// The body of a function: the functions that were added before it, and what is seen where it is called. Of that it sees the patterns alone.
    Called(&'a [Function], &'a Around<'a>),
}

/// The value of a name; null where it has none. Its time grows with the number of names.
///
/// # Errors
///
/// `Mem` where there is no memory for a copy.
pub(crate) fn value_seen(name: &str, around: &Around<'_>) -> Result<Value, Mem>
    ensures { IfOk result (λ v. (titles : List (List ℕ)) (answer : ℕ → List Plain → Option Plain) → value_of name.now (seen around.now titles answer) ≡ plain_of v) }
{
    match around {
        Around::Whole(env) => match env.names.value(name) {
            Some(value) => value.copy(),
            None => Ok(Value::Null),
        },
        Around::Body(names, outer) => match names.value(name) {
            Some(value) => value.copy(),
            None => value_seen(name, outer),
        },
        Around::Called(_, _) => Ok(Value::Null),
    }
}

/// Whether the pattern of a text matches a value. Faults stand at `place`.
///
/// # Errors
///
/// `WrongKind` where the value is no text, and where no pattern of that text is built. `Mem` for want of memory.
pub(crate) fn match_seen(
    alloc: Global,
    place: Place,
    text: &str,
    around: &Around<'_>,
    value: &Value,
) -> Result<Value, EvalRefusal>
    ensures { (titles : List (List ℕ)) (answer : ℕ → List Plain → Option Plain) → Evaluates (if is_among text.now (seen around.now titles answer).patterns then made place (matches (plain_of value.now) text.now) else fault WrongKind place) result }
{
    match around {
        Around::Whole(env) => matched(alloc, place, value, text, &env.library.patterns),
        Around::Body(_, outer) => match_seen(alloc, place, text, outer, value),
        Around::Called(_, outer) => match_seen(alloc, place, text, outer, value),
    }
}

/// Whether the expression stands in a process's script.
pub(crate) fn in_process(around: &Around<'_>) -> bool
    ensures { (titles : List (List ℕ)) (answer : ℕ → List Plain → Option Plain) → result ≡ (seen around.now titles answer).in_process }
{
    match around {
        Around::Whole(env) => env.in_process,
        Around::Body(_, outer) => in_process(outer),
        Around::Called(_, _) => false,
    }
}

/// The function that a name calls, with the functions that its own body may call.
pub(crate) fn function_seen<'a>(
    name: &str,
    around: &Around<'a>,
) -> Option<(&'a Function, &'a [Function])>
    ensures found { (titles : List (List ℕ)) (answer : ℕ → List Plain → Option Plain) → MatchOption result (function_in name.now (seen around.now titles answer).functions ≡ None) (λ f. function_in name.now (seen around.now titles answer).functions ≡ Some (function_of (definition_of f.0.now) (definitions_in f.1.now) (seen around.now titles answer).patterns titles answer)) }
    ensures lighter { IfSome result (λ f. suc (depth f.0.now.body.items) + depths f.1.now ≤ depths (held around.now)) }
{
    match around {
        Around::Whole(env) => function_named(name, &env.library.functions),
        Around::Body(_, outer) => function_seen(name, outer),
        Around::Called(earlier, _) => function_named(name, earlier),
    }
}

/// Does nothing. By its contract the program's functions that are seen are those that were handed in.
pub(crate) fn handed_in(around: &Around<'_>)
    ensures { (titles : List (List ℕ)) (answer : ℕ → List Plain → Option Plain) → IsHandedIn (seen around.now titles answer) titles answer }
{
    match around {
        Around::Whole(_) => {}
        Around::Body(_, outer) => handed_in(outer),
        Around::Called(_, _) => {}
    }
}
