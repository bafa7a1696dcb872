//! The labels of `branch` and `multiMap`, each a closure of its own.

ghost use Rattle.std.specs.Prelude.{map};
ghost use Rattle.nf_eval.specs.Placed.{Evaluates};
ghost use Rattle.nf_tasks.specs.Memory.{formula_of, program};
ghost use Rattle.nf_bodies.specs.Labels.{first_true as first_true_of, value_list};

use crate::answers::applied;
use nf_builtins::Natives;
use nf_eval::Closure;
use nf_value::{EvalRefusal, Vals, Value, truth};
use std::alloc::Global;

/// The number of the first label that is true, from 0, or null.
pub(crate) fn first_true<N: Natives>(
    alloc: Global,
    labels: &[Closure],
    args: &Vals,
    natives: &N,
) -> Result<Value, EvalRefusal>
    requires { N.keeps natives.now }
    ensures { Evaluates (first_true_of
        (map (formula_of (program (N.titles natives.now) (N.answer natives.now))) labels.now) 0 args.now) result }
{
    for (number, label) in labels.iter().enumerate() {
        let value = applied(alloc, label, args, natives)?;
        if truth(&value) {
            return Ok(Value::Int(number as i64));
        }
    }
    Ok(Value::Null)
}

/// The list of what the labels give.
pub(crate) fn label_values<N: Natives>(
    alloc: Global,
    labels: &[Closure],
    args: &Vals,
    natives: &N,
) -> Result<Value, EvalRefusal>
    requires { N.keeps natives.now }
    ensures { Evaluates (value_list
        (map (formula_of (program (N.titles natives.now) (N.answer natives.now))) labels.now) args.now) result }
{
    let mut values = Vec::new(alloc);
    for label in labels {
        values.push(applied(alloc, label, args, natives)?)?;
    }
    Ok(Value::List(Vals::of(values)))
}
