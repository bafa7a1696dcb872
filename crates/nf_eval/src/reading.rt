//! Reads the value of a subject, and finds what a call of it calls.

ghost use Rattle.std.specs.Prelude.{◌≡◌, ℕ, Bool, true, List, Option, map, not};
ghost use Rattle.nf_value.specs.Plain.{Plain};
ghost use Rattle.nf_value.specs.View.{plain_of};
ghost use Rattle.nf_infix.specs.Template.{listed as listed_of};
ghost use Rattle.nf_ast.specs.Tree as tree;
ghost use Rattle.nf_ast.specs.Tree.{Tree};
ghost use Rattle.nf_placed.specs.Placed.{Evaluates, Placed};
ghost use Rattle.nf_placed.specs.Scope.{Env};
ghost use Rattle.nf_eval.specs.Evaluation.{read_safe, safe_method};
ghost use Rattle.nf_eval.specs.Memory.{seen};
ghost use Rattle.nf_eval.specs.Chains.{has_value, value_at, given_at, is_math_at, callee_of, takes, Stands, Comes, Calls, Waits, IsCall};

use crate::around::{Around, value_seen};
use crate::subjects::{Called, Subject, Waiting};
use nf_placed::{fault_at, property_value};
use nf_value::{EvalFault, EvalKind, EvalRefusal, Place, Txt, Value};
use std::alloc::Global;

/// The place of faults that no text of a script has.
const NOWHERE: Place = Place { line: 0, col: 0 };

/// The value of a subject. A call that waits for a closure has no value, and is never read.
pub(crate) fn read(
    alloc: Global,
    subject: Subject,
    around: &Around<'_>,
) -> Result<Value, EvalRefusal>
    ensures { (titles : List (List ℕ)) (answer : ℕ → List Plain → Option Plain) → Evaluates (value_at subject (seen around.now titles answer)) result }
{
    match subject {
        Subject::Value(value) => Ok(value),
        Subject::Name(_, name) => Ok(value_seen(name.as_str(), around)?),
        Subject::Property(value, place, name) => property_value(
            alloc,
            place,
            &value,
            name.as_str(),
        ),
        Subject::Safe(value, place, name) => safe_value(alloc, place, &value, &name),
        Subject::Math(place, name) => {
            let value = value_seen("Math", around)?;
            property_value(alloc, place, &value, name.as_str())
        }
        Subject::Call(_, _, given) => given_value(given),
    }
}

/// The result of a call that was performed.
fn given_value(given: Option<Result<Value, EvalFault>>) -> Result<Value, EvalRefusal>
    ensures { Evaluates (given_at given) result }
{
    match given {
        Some(Ok(value)) => Ok(value),
        Some(Err(fault)) => Err(EvalRefusal::Fault(fault)),
        None => Err(fault_at(NOWHERE, EvalKind::WrongKind)),
    }
}

fn safe_value(alloc: Global, place: Place, value: &Value, name: &Txt) -> Result<Value, EvalRefusal>
    ensures { Evaluates (read_safe place name.now (plain_of value.now)) result }
{
    match value {
        Value::Null => Ok(Value::Null),
        _ => property_value(alloc, place, value, name.as_str()),
    }
}

/// The subject after `.name`.
pub(crate) fn property(
    alloc: Global,
    place: Place,
    name: Txt,
    before: Subject,
    around: &Around<'_>,
) -> Result<Subject, EvalRefusal>
    ensures { (titles : List (List ℕ)) (answer : ℕ → List Plain → Option Plain) (closure : Bool) (t : Tree) → Stands t (seen around.now titles answer) before → has_value before ≡ true → Comes closure (tree.property t (tree.name place name)) (seen around.now titles answer) result }
{
    if is_math(&before) {
        return Ok(Subject::Math(place, name));
    }
    let of = read(alloc, before, around)?;
    Ok(Subject::Property(of, place, name))
}

fn is_math(subject: &Subject) -> bool
    ensures { result ≡ is_math_at subject.now }
{
    match subject {
        Subject::Name(_, name) => name.as_str() == "Math",
        Subject::Value(_) => false,
        Subject::Property(_, _, _) => false,
        Subject::Safe(_, _, _) => false,
        Subject::Math(_, _) => false,
        Subject::Call(_, _, _) => false,
    }
}

/// The subject after `?.name`.
pub(crate) fn safe_property(
    alloc: Global,
    place: Place,
    name: Txt,
    before: Subject,
    around: &Around<'_>,
) -> Result<Subject, EvalRefusal>
    ensures { (titles : List (List ℕ)) (answer : ℕ → List Plain → Option Plain) (closure : Bool) (t : Tree) → Stands t (seen around.now titles answer) before → has_value before ≡ true → Comes closure (tree.safe_property t (tree.name place name)) (seen around.now titles answer) result }
{
    let of = read(alloc, before, around)?;
    Ok(Subject::Safe(of, place, name))
}

/// What is called where arguments follow a subject. They begin at `place`.
///
/// # Errors
///
/// The fault of the subject.
pub(crate) fn callee(subject: Subject, place: Place) -> Result<Called, EvalRefusal>
    ensures { (env : Env) → Calls subject place env result }
{
    match subject {
        Subject::Value(_) => Ok(Called::Value(place)),
        Subject::Name(at, name) => Ok(Called::Function(at, name)),
        Subject::Property(value, at, name) => Ok(Called::Method(value, at, name)),
        Subject::Safe(value, at, name) => Ok(safe_callee(value, at, name)),
        Subject::Math(at, name) => Ok(Called::Math(at, name)),
        Subject::Call(_, _, given) => {
            given_value(given)?;
            Ok(Called::Value(place))
        }
    }
}

fn safe_callee(value: Value, place: Place, name: Txt) -> Called
    ensures { callee_of result ≡ safe_method place name (plain_of value) }
{
    match value {
        Value::Null => Called::Nothing,
        value => Called::Method(value, place, name),
    }
}

/// Whether nothing is called, so that arguments aren't evaluated.
pub(crate) fn calls_nothing(callee: &Called) -> bool
    ensures { not result ≡ takes (callee_of callee.now) }
{
    match callee {
        Called::Nothing => true,
        Called::Method(_, _, _) => false,
        Called::Function(_, _) => false,
        Called::Math(_, _) => false,
        Called::Value(_) => false,
    }
}

/// What is called where a closure follows a subject. Its brace stands at `place`.
pub(crate) fn waiting(subject: Subject, place: Place) -> Waiting
    ensures { (t : Tree) (env : Env) → Stands t env subject → Waits t env place result }
{
    match subject {
        Subject::Value(_) => alone(Called::Value(place)),
        Subject::Name(at, name) => alone(Called::Function(at, name)),
        Subject::Property(value, at, name) => alone(Called::Method(value, at, name)),
        Subject::Safe(value, at, name) => alone(safe_callee(value, at, name)),
        Subject::Math(at, name) => alone(Called::Math(at, name)),
        Subject::Call(callee, count, _) => Waiting { callee, count },
    }
}

fn alone(callee: Called) -> Waiting
    ensures { result ≡ record { callee = callee; count = 1 } }
{
    Waiting { callee, count: 1 }
}

/// The subject that a performed call is, with its result.
///
/// # Errors
///
/// `Mem` where the call had no memory.
pub(crate) fn finished(
    callee: Called,
    count: usize,
    given: Result<Value, EvalRefusal>,
) -> Result<Subject, EvalRefusal>
    ensures { (o : Placed Plain) → Evaluates o given → IsCall callee count o result }
{
    match given {
        Ok(value) => Ok(Subject::Call(callee, count, Some(Ok(value)))),
        Err(EvalRefusal::Fault(fault)) => Ok(Subject::Call(callee, count, Some(Err(fault)))),
        Err(EvalRefusal::Mem) => Err(EvalRefusal::Mem),
    }
}

/// The items of a list, and none of any other value.
pub(crate) fn listed(value: &Value) -> &[Value]
    ensures { map plain_of result.now ≡ listed_of (plain_of value.now) }
{
    match value {
        Value::List(list) => list.items(),
        _ => &[],
    }
}
