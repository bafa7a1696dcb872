//! Calls of methods, and of functions of `Math`, with values alone.

ghost use Rattle.std.specs.Prelude.{◌≡◌, ◌<◌, List, map, slice_get, Some};
ghost use Rattle.nf_value.specs.Plain.{Plain};
ghost use Rattle.nf_value.specs.View.{plain_of};
ghost use Rattle.nf_builtins.specs.Call.{builtin_rows};
ghost use Rattle.nf_placed.specs.Placed.{Evaluates, fault};
ghost use Rattle.nf_placed.specs.Calls.{plain, by_form, on_items, with_block, method_call, math_call};

use crate::places::{fault_at, placed};
use crate::rows::{math_name, row_named};
use nf_builtins::{Builtin, Form, Method, call};
use nf_value::{EvalKind, EvalRefusal, Place, Vals, Value};
use std::alloc::Global;

/// `a.f(x)` at the place of the method's name, where all arguments are values (Nextflow reference documentation, "Standard library: types"). Takes time
/// by the number of methods, and that of the method.
///
/// # Errors
///
/// The fault of the method at its place, as `nf_builtins` has it, and `NoMethod` where no method has the name or it is read without parentheses. Of a
/// method that takes a closure `NoMethod` comes of any receiver but a list, and then `Arity` unless there is one argument, and `WrongKind` of that.
/// `Mem` where there is no memory for the value.
pub fn method_value(
    alloc: Global,
    place: Place,
    name: &str,
    recv: &Value,
    args: &Vals,
) -> Result<Value, EvalRefusal>
    ensures { Evaluates (method_call place name.now (plain_of recv.now) (map plain args.now)) result }
{
    match row_named(alloc, name)? {
        Some((row, builtin)) => row_value(alloc, place, row, builtin, recv, args),
        None => Err(fault_at(place, EvalKind::NoMethod)),
    }
}

/// `Math.f(x)` at the place of the function's name, where all arguments are values (Nextflow reference documentation, "Standard library: types").
/// Takes time by the number of methods, and that of the function.
///
/// # Errors
///
/// The fault of the function at its place, as `nf_builtins` has it, and `NoMethod` where `Math` has none of that name. `Mem` where there is no memory
/// for the value.
pub fn math_value(
    alloc: Global,
    place: Place,
    name: &str,
    args: &Vals,
) -> Result<Value, EvalRefusal>
    ensures { Evaluates (math_call place name.now (map plain args.now)) result }
{
    let full = math_name(alloc, name)?;
    match row_named(alloc, full.as_str())? {
        Some((row, builtin)) => row_value(alloc, place, row, builtin, &Value::Null, args),
        None => Err(fault_at(place, EvalKind::NoMethod)),
    }
}

fn row_value(
    alloc: Global,
    place: Place,
    row: usize,
    builtin: Builtin,
    recv: &Value,
    args: &Vals,
) -> Result<Value, EvalRefusal>
    requires within { row < 48 }
    requires row { slice_get builtin_rows row ≡ Some builtin }
    ensures { Evaluates (by_form builtin.form place builtin.method (plain_of recv.now) (map plain args.now)) result }
{
    match builtin.form {
        Form::Call => placed(place, call(alloc, row, recv, args)),
        Form::Closure => Err(fault_at(place, without_block(recv, args))),
        Form::Property => Err(fault_at(place, EvalKind::NoMethod)),
    }
}

/// The kind of the fault of a method that takes a closure and got values alone.
fn without_block(recv: &Value, args: &Vals) -> EvalKind
    ensures { (p : Place) (k : Method) → on_items p k (plain_of recv.now) (map plain args.now) ≡ fault result p }
{
    match recv {
        Value::List(_) => block_due(args),
        _ => EvalKind::NoMethod,
    }
}

fn block_due(args: &Vals) -> EvalKind
    ensures { (p : Place) (k : Method) (vs : List Plain) → with_block p k vs (map plain args.now) ≡ fault result p }
{
    match args.items() {
        [_only] => EvalKind::WrongKind,
        _ => EvalKind::Arity,
    }
}
