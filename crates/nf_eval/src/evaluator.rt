//! The two entries of the crate: `eval` an expression, and `apply` a closure.

ghost use Rattle.nf_ast.specs.View.{view};
ghost use Rattle.nf_placed.specs.Placed.{Evaluates};
ghost use Rattle.nf_eval.specs.Evaluation.{eval_of, apply_of};
ghost use Rattle.nf_eval.specs.Memory.{env_of};
ghost use Rattle.nf_eval.specs.Closing.{closing_of};

use crate::around::Around;
use crate::blocks::applied;
use crate::closures::Closure;
use crate::environment::Env;
use crate::values::value;
use nf_ast::Expr;
use nf_builtins::Natives;
use nf_value::{EvalRefusal, Vals, Value};
use std::alloc::Global;

/// The value of an expression in an environment (Nextflow reference documentation, "Syntax", "Expressions"). Operands are evaluated from the left.
/// A name that nothing binds is null.
///
/// # Errors
///
/// The first fault with its place: that of the operator, or of the name that is read or called. `Mem` where there is no memory for a value.
pub fn eval<N: Natives>(
    alloc: Global,
    expr: &Expr,
    env: &Env,
    natives: &N,
) -> Result<Value, EvalRefusal>
    requires { N.keeps natives.now }
    ensures { Evaluates (eval_of (view expr.now) (env_of env.now (N.titles natives.now) (N.answer natives.now))) result }
{
    value(alloc, expr, &Around::Whole(env), natives)
}

/// The result of a closure for its arguments (Nextflow reference documentation, "Syntax", "Closure"): the value of its body, which sees the names
/// that were around the closure when it was made, and its parameters.
///
/// # Errors
///
/// `Arity` at the closure's brace for another number of arguments than it takes, and any fault of its body. `Mem` where there is no memory for a
/// value.
pub fn apply<N: Natives>(
    alloc: Global,
    closure: &Closure,
    args: &Vals,
    natives: &N,
) -> Result<Value, EvalRefusal>
    requires { N.keeps natives.now }
    ensures { Evaluates (apply_of (closing_of closure.now (N.titles natives.now) (N.answer natives.now)) args.now) result }
{
    applied(
        alloc,
        &closure.code,
        args.items(),
        &Around::Whole(&closure.env),
        natives,
    )
}
