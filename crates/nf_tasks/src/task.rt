//! The map `task`, and the values that expressions see.

ghost use Rattle.std.specs.Prelude.{◌≡◌, IfOk};
ghost use Rattle.nf_value.specs.View.{plain_of};
ghost use Rattle.nf_tasks.specs.Task.{task_map, seen_values};

use nf_value::{Mem, Pairs, Txt, Vals, Value};
use std::alloc::Global;

/// What an expression of a process knows of its task, as the value of `task` (Nextflow reference documentation, "Process", "Task
/// directive values"): `task.attempt`, from 1; `task.cpus`; and `task.process`, the call's path.
///
/// # Errors
///
/// `Mem` if there is no memory for it.
fn task_value(alloc: Global, name: &Txt, attempt: u32, cpus: Value) -> Result<Value, Mem>
    ensures { IfOk result (λ v. plain_of v ≡ task_map name.now attempt (plain_of cpus)) }
{
    let mut pairs = Vec::new(alloc);
    pairs.push((key(alloc, "attempt")?, Value::Int(i64::from(attempt))))?;
    pairs.push((key(alloc, "cpus")?, cpus))?;
    pairs.push((key(alloc, "process")?, Value::Text(name.copy()?)))?;
    Ok(Value::Map(Pairs::of(pairs)))
}

fn key(alloc: Global, name: &str) -> Result<Txt, Mem>
    ensures { IfOk result (λ t. t ≡ name.now) }
{
    Ok(Txt::of(String::from_str(alloc, name)?))
}

/// The values that an expression sees: those of the inputs' names, and `task`.
///
/// # Errors
///
/// `Mem` if there is no memory for them.
pub(crate) fn seen_values(
    alloc: Global,
    values: &Vals,
    name: &Txt,
    attempt: u32,
    cpus: Value,
) -> Result<Vals, Mem>
    ensures { IfOk result (λ vs. vs ≡ seen_values values.now (task_map name.now attempt (plain_of cpus))) }
{
    let mut seen = values.copy()?.into_items();
    seen.push(task_value(alloc, name, attempt, cpus)?)?;
    Ok(Vals::of(seen))
}
