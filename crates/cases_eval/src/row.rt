//! What a row gives.

use crate::functions::known_functions;
use crate::known::known;
use crate::parsed::parsed;
use crate::patterns::build_patterns;
use anyhow::{Result, bail};
use nf_ast::Expr;
use nf_builtins::Natives;
use nf_eval::{Closure, Env, Library, apply, eval};
use nf_names_used::expr_uses;
use nf_value::{EvalRefusal, Value};
use std::alloc::Global;

/// The value of a row, or why it has none.
pub(crate) fn answer<N: Natives>(
    alloc: Global,
    row: &str,
    natives: &N,
) -> Result<Result<Value, EvalRefusal>>
    requires { N.keeps natives.now }
{
    match row.strip_prefix("in a process: ") {
        Some(row) => answer_in(alloc, row, true, natives),
        None => answer_in(alloc, row, false, natives),
    }
}

fn answer_in<N: Natives>(
    alloc: Global,
    row: &str,
    in_process: bool,
    natives: &N,
) -> Result<Result<Value, EvalRefusal>>
    requires { N.keeps natives.now }
{
    match row.split_once(" <- ") {
        Some((closure, args)) => applied(alloc, closure, args, in_process, natives),
        None => value(alloc, row, in_process, natives),
    }
}

fn value<N: Natives>(
    alloc: Global,
    text: &str,
    in_process: bool,
    natives: &N,
) -> Result<Result<Value, EvalRefusal>>
    requires { N.keeps natives.now }
{
    let expr = parsed(alloc, text)?;
    let uses = expr_uses(alloc, &expr)?;
    let mut library = known_functions(alloc)?;
    build_patterns(alloc, &uses, &mut library)?;
    let env = env_over(alloc, library, in_process, natives)?;
    Ok(eval(alloc, &expr, &env, natives))
}

/// The environment of a row.
fn env_over<N: Natives>(
    alloc: Global,
    library: Library,
    in_process: bool,
    natives: &N,
) -> Result<Env>
    requires { N.keeps natives.now }
{
    let mut env = known(alloc, library, natives)?;
    if in_process {
        env.for_process();
    }
    Ok(env)
}

/// What a closure gives for the items of a list.
fn applied<N: Natives>(
    alloc: Global,
    closure: &str,
    args: &str,
    in_process: bool,
    natives: &N,
) -> Result<Result<Value, EvalRefusal>>
    requires { N.keeps natives.now }
{
    let env = env_over(alloc, known_functions(alloc)?, in_process, natives)?;
    let args = parsed(alloc, args)?;
    let args = match eval(alloc, &args, &env, natives) {
        Ok(Value::List(args)) => args,
        _ => bail!("no list of arguments"),
    };
    match &parsed(alloc, closure)? {
        Expr::Closure(code) => {
            let closure = Closure::new(code.copy(alloc)?, env);
            Ok(apply(alloc, &closure, &args, natives))
        }
        _ => bail!("no closure"),
    }
}
