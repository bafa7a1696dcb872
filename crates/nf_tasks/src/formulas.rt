//! Evaluates the expressions of a process.

ghost use Rattle.std.specs.Prelude.{◌≡◌, option_map};
ghost use Rattle.nf_value.specs.View.{plain_of};
ghost use Rattle.nf_eval.specs.Placed.{Evaluates};
ghost use Rattle.nf_tasks.specs.Judged.{Answers, AnswersBy, evaluated, task_refusal, wrong_kind};
ghost use Rattle.nf_job.specs.declared.fault.TaskRefusal.TheVariants as refusal;
ghost use Rattle.nf_tasks.specs.Memory.{program, formula_of};
ghost use Rattle.nf_tasks.specs.Prepared.{name_in, named_by};

use nf_builtins::Natives;
use nf_eval::{Closure, apply};
use nf_job::{TaskFault, TaskRefusal};
use nf_value::{EvalFault, EvalKind, EvalRefusal, Place, Txt, Vals, Value, text_of};
use std::alloc::Global;

/// The value of an expression for the values that it sees.
///
/// # Errors
///
/// `Fault` exactly where it has none, with its fault; `Mem` if there is no memory for it.
pub(crate) fn evaluated<N: Natives>(
    alloc: Global,
    formula: &Closure,
    seen: &Vals,
    natives: &N,
) -> Result<Value, TaskRefusal>
    requires { N.keeps natives.now }
    ensures { AnswersBy plain_of
        (evaluated (formula_of (program (N.titles natives.now) (N.answer natives.now)) formula.now seen.now)) result }
{
    match applied(alloc, formula, seen, natives) {
        Ok(value) => Ok(value),
        Err(refusal) => Err(task_refusal(refusal)),
    }
}

fn applied<N: Natives>(
    alloc: Global,
    formula: &Closure,
    seen: &Vals,
    natives: &N,
) -> Result<Value, EvalRefusal>
    requires { N.keeps natives.now }
    ensures { Evaluates (formula_of (program (N.titles natives.now) (N.answer natives.now)) formula.now seen.now) result }
{
    apply(alloc, formula, seen, natives)
}

fn task_refusal(refusal: EvalRefusal) -> TaskRefusal
    ensures { result ≡ task_refusal refusal }
{
    match refusal {
        EvalRefusal::Fault(fault) => TaskRefusal::Fault(TaskFault::Eval(fault)),
        EvalRefusal::Mem => TaskRefusal::Mem,
    }
}

/// What stands at a place is of the wrong kind.
pub(crate) fn wrong_kind(place: Place) -> TaskRefusal
    ensures { result ≡ refusal.Fault (wrong_kind place) }
{
    TaskRefusal::Fault(TaskFault::Eval(EvalFault {
        kind: EvalKind::WrongKind,
        place,
    }))
}

/// The name of a file or a folder that an expression gives: a text, a number in decimal, or a file's name (own).
///
/// # Errors
///
/// `Fault` exactly where the expression has no value, or one that names nothing: then WrongKind at the place. `Mem` if
/// there is no memory for it.
pub(crate) fn named_by<N: Natives>(
    alloc: Global,
    place: Place,
    formula: &Closure,
    seen: &Vals,
    natives: &N,
) -> Result<Txt, TaskRefusal>
    requires { N.keeps natives.now }
    ensures { Answers (named_by place
        (formula_of (program (N.titles natives.now) (N.answer natives.now)) formula.now) seen.now) result }
{
    let value = evaluated(alloc, formula, seen, natives)?;
    name_in(alloc, place, &value)
}

fn name_in(alloc: Global, place: Place, value: &Value) -> Result<Txt, TaskRefusal>
    ensures { Answers (name_in place (plain_of value.now)) result }
{
    match value {
        Value::Text(_) | Value::Int(_) | Value::File(_) => Ok(text_of(alloc, value)?),
        _ => Err(wrong_kind(place)),
    }
}
