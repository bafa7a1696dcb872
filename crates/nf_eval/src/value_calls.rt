//! Calls whose arguments are all values.

ghost use Rattle.std.specs.Prelude.{◌≡◌, ◌≤◌, ◌+◌, suc, ℕ, List, Some, Ok};
ghost use Rattle.nf_placed.specs.Placed.{Evaluates};
ghost use Rattle.nf_placed.specs.Scope.{function_in};
ghost use Rattle.nf_placed.specs.Calls.{Argument, values_in, by_function, called as called_of};
ghost use Rattle.nf_eval.specs.Functions.{definition_of, definitions_in, function_of, depth, depths};
ghost use Rattle.nf_eval.specs.Memory.{seen, held};
ghost use Rattle.nf_eval.specs.Chains.{callee_of};

use crate::around::{Around, function_seen, handed_in};
use crate::scope::Scope;
use crate::subjects::Called;
use nf_ast::Function;
use nf_builtins::Natives;
use nf_placed::{fault_at, math_value, method_value, native_value, paired};
use nf_value::{EvalKind, EvalRefusal, Place, Vals, Value};
use std::alloc::Global;

/// The result of a call with these values.
#[cycle(value)]
pub(crate) fn of_values<N: Natives>(
    alloc: Global,
    callee: &Called,
    values: &Vals,
    around: &Around<'_>,
    natives: &N,
) -> Result<Value, EvalRefusal>
    requires { N.keeps natives.now }
    ensures { (xs : List Argument) → values_in xs ≡ Some values.now → Evaluates (called_of (callee_of callee.now) (λ e. Ok xs) (seen around.now (N.titles natives.now) (N.answer natives.now))) result }
{
    match callee {
        Called::Nothing => Ok(Value::Null),
        Called::Method(value, place, name) => {
            method_value(alloc, *place, name.as_str(), value, values)
        }
        Called::Function(place, name) => by_name(
            alloc,
            *place,
            name.as_str(),
            values,
            around,
            natives,
        ),
        Called::Math(place, name) => math_value(alloc, *place, name.as_str(), values),
        Called::Value(place) => Err(fault_at(*place, EvalKind::WrongKind)),
    }
}

/// The result of the function of a name: the script's, or else the program's.
#[cycle(value)]
pub(crate) fn by_name<N: Natives>(
    alloc: Global,
    place: Place,
    name: &str,
    values: &Vals,
    around: &Around<'_>,
    natives: &N,
) -> Result<Value, EvalRefusal>
    requires { N.keeps natives.now }
    ensures { Evaluates (by_function (function_in name.now (seen around.now (N.titles natives.now) (N.answer natives.now)).functions) place name.now (seen around.now (N.titles natives.now) (N.answer natives.now)) values.now) result }
{
    match function_seen(name, &*around) {
        Some((function, earlier)) => by_script(
            alloc, function, earlier, place, values, around, natives,
        ),
        None => {
            handed_in(around);
            native_value(alloc, place, name, values, natives)
        }
    }
}

/// The result of a function of the script: the value of its body, which sees its parameters as the only names, and calls only the functions that were
/// added before it.
#[cycle(value)]
pub(crate) fn by_script<N: Natives>(
    alloc: Global,
    function: &Function,
    earlier: &[Function],
    place: Place,
    values: &Vals,
    around: &Around<'_>,
    natives: &N,
) -> Result<Value, EvalRefusal>
    requires kept { N.keeps natives.now }
    requires lighter { suc (depth function.now.body.items) + depths earlier.now ≤ depths (held around.now) }
    ensures { (name : List ℕ) → Evaluates (by_function (Some (function_of (definition_of function.now) (definitions_in earlier.now) (seen around.now (N.titles natives.now) (N.answer natives.now)).patterns (N.titles natives.now) (N.answer natives.now))) place name (seen around.now (N.titles natives.now) (N.answer natives.now)) values.now) result }
{
    if function.params.len() != values.len() {
        return Err(fault_at(place, EvalKind::Arity));
    }
    let names = paired(alloc, &function.params, values.items())?;
    crate::bodies::run(
        alloc,
        &function.body,
        Scope::of(names),
        &Around::Called(&*earlier, &*around),
        natives,
    )
}
