//! Calls of methods with a closure among the arguments: which method it is, or what is wrong with the call.

ghost use Rattle.std.specs.Prelude.{◌≡◌, ◌<◌, List, length, replicate, slice_get, Some, None, IfOk};
ghost use Rattle.nf_value.specs.Plain.{Plains, null, list};
ghost use Rattle.nf_value.specs.View.{plain_of};
ghost use Rattle.nf_placed.specs.Placed.{fault};
ghost use Rattle.nf_builtins.specs.Call.{builtin_rows};
ghost use Rattle.nf_builtins.specs.declared.rows.Form.TheVariants.{Call};
ghost use Rattle.nf_placed.specs.Calls.{Argument, values_in, unfit, before_kinds as before_kinds_of, by_form, on_items, math_call};
ghost use Rattle.nf_placed.specs.Blocks.{IsBlockCall, GoesOver, IsFaultOfBlocks, IsClosureKind};

use crate::places::fault_at;
use crate::rows::{math_name, row_named};
use nf_builtins::{Builtin, CallFault, Form, Method, call};
use nf_value::{EvalKind, EvalRefusal, Mem, Place, Vals, Value};
use std::alloc::Global;

/// A method of lists that takes a closure (Nextflow reference documentation, "Standard library: types", "Iterable").
#[derive(Debug, Clone, Copy, PartialEq, Eq)]
pub enum BlockMethod {
    /// `any`: whether the closure is true for one.
    Any,
    /// `every`: whether it is true for all.
    Every,
    /// `find`: the first for which it is true.
    Find,
    /// `findAll`: all for which it is true.
    FindAll,
    /// `collect`: what it gives for each.
    Collect,
}

/// The method that `a.f(x)` calls with a closure among its `count` arguments. It calls that closure, its only argument, for the items of the receiver.
/// Takes time by the number of methods, and the time of a method for `count` nulls.
///
/// # Errors
///
/// At the place of the name, the first of these: `NoMethod` where no method has the name, the receiver has no such method, or it is read without
/// parentheses; `Arity` where the method takes another number of arguments (one that takes a closure takes nothing else); `WrongKind` where it takes no
/// closure. `Mem` where there is no memory to find out.
pub fn block_method(
    alloc: Global,
    place: Place,
    name: &str,
    recv: &Value,
    count: usize,
) -> Result<BlockMethod, EvalRefusal>
    ensures { IsBlockCall place name.now (plain_of recv.now) count result }
{
    match row_named(alloc, name)? {
        Some((row, builtin)) => block_row(alloc, place, row, builtin, recv, count),
        None => Err(fault_at(place, EvalKind::NoMethod)),
    }
}

fn block_row(
    alloc: Global,
    place: Place,
    row: usize,
    builtin: Builtin,
    recv: &Value,
    count: usize,
) -> Result<BlockMethod, EvalRefusal>
    requires within { row < 48 }
    requires row { slice_get builtin_rows row ≡ Some builtin }
    ensures { GoesOver place (plain_of recv.now) (by_form builtin.form place builtin.method (plain_of recv.now)) count result }
{
    match builtin.form {
        Form::Call => {
            let kind = call_kind(alloc, row, builtin, recv, count)?;
            Err(fault_at(place, kind))
        }
        Form::Closure => goes_over(place, builtin.method, recv, count),
        Form::Property => Err(fault_at(place, EvalKind::NoMethod)),
    }
}

/// The kind of the fault of a call with a closure among its `count` arguments, where the method takes values. The method is called with nulls: it looks
/// at its receiver and at the number of its arguments before it looks at their kinds.
fn call_kind(
    alloc: Global,
    row: usize,
    builtin: Builtin,
    recv: &Value,
    count: usize,
) -> Result<EvalKind, Mem>
    requires within { row < 48 }
    requires row { slice_get builtin_rows row ≡ Some builtin }
    requires form { builtin.form ≡ Call }
    ensures { IfOk result (λ kind. kind ≡ unfit builtin.method (plain_of recv.now) count) }
{
    let args = nulls(alloc, count)?;
    match call(alloc, row, recv, &args) {
        Ok(_) => Ok(EvalKind::WrongKind),
        Err(fault) => kind_before(fault),
    }
}

fn nulls(alloc: Global, count: usize) -> Result<Vals, Mem>
    ensures { IfOk result (λ vs. vs ≡ replicate count null) }
{
    let mut values = Vec::new(alloc);
    for _ in 0..count {
        values.push(Value::Null)?;
    }
    Ok(Vals::of(values))
}

fn kind_before(fault: CallFault) -> Result<EvalKind, Mem>
    ensures { IfOk result (λ kind. IsClosureKind kind fault) }
{
    match fault {
        CallFault::Kind(kind) => Ok(before_kinds(kind)),
        CallFault::Mem => Err(Mem),
    }
}

/// The kind of a fault that comes before the kinds of arguments are looked at; else `WrongKind`, since a closure is of the wrong kind.
fn before_kinds(kind: EvalKind) -> EvalKind
    ensures { result ≡ before_kinds_of kind }
{
    match kind {
        EvalKind::NoMethod => EvalKind::NoMethod,
        EvalKind::Arity => EvalKind::Arity,
        _ => EvalKind::WrongKind,
    }
}

fn goes_over(
    place: Place,
    method: Method,
    recv: &Value,
    count: usize,
) -> Result<BlockMethod, EvalRefusal>
    ensures { GoesOver place (plain_of recv.now) (on_items place method (plain_of recv.now)) count result }
{
    match recv {
        Value::List(_) => over_list(place, method, count),
        _ => Err(fault_at(place, EvalKind::NoMethod)),
    }
}

fn over_list(place: Place, method: Method, count: usize) -> Result<BlockMethod, EvalRefusal>
    ensures { (vs : Plains) → GoesOver place (list vs) (on_items place method (list vs)) count result }
{
    if count != 1 {
        return Err(fault_at(place, EvalKind::Arity));
    }
    match method {
        Method::Any => Ok(BlockMethod::Any),
        Method::Every => Ok(BlockMethod::Every),
        Method::Find => Ok(BlockMethod::Find),
        Method::FindAll => Ok(BlockMethod::FindAll),
        Method::Collect => Ok(BlockMethod::Collect),
        _ => Err(fault_at(place, EvalKind::NoMethod)),
    }
}

/// The fault of `Math.f(x)` with a closure among its `count` arguments. At the place of the name: `NoMethod` where `Math` has no such function, `Arity`
/// where it takes another number of arguments, and else `WrongKind`. `Mem` where there is no memory to find out. Takes time by the number of methods.
pub fn math_block(alloc: Global, place: Place, name: &str, count: usize) -> EvalRefusal
    ensures { IsFaultOfBlocks (math_call place name.now) count result }
{
    match math_kind(alloc, name, count) {
        Ok(kind) => fault_at(place, kind),
        Err(_) => EvalRefusal::Mem,
    }
}

/// The kind of that fault.
fn math_kind(alloc: Global, name: &str, count: usize) -> Result<EvalKind, Mem>
    ensures { IfOk result (λ kind. (p : Place) (args : List Argument) → length args ≡ count → values_in args ≡ None → math_call p name.now args ≡ fault kind p) }
{
    let full = math_name(alloc, name)?;
    match row_named(alloc, full.as_str())? {
        Some((row, builtin)) => form_kind(alloc, row, builtin, count),
        None => Ok(EvalKind::NoMethod),
    }
}

fn form_kind(alloc: Global, row: usize, builtin: Builtin, count: usize) -> Result<EvalKind, Mem>
    requires within { row < 48 }
    requires row { slice_get builtin_rows row ≡ Some builtin }
    ensures { IfOk result (λ kind. (p : Place) (args : List Argument) → length args ≡ count → values_in args ≡ None → by_form builtin.form p builtin.method null args ≡ fault kind p) }
{
    match builtin.form {
        Form::Call => call_kind(alloc, row, builtin, &Value::Null, count),
        Form::Closure | Form::Property => Ok(EvalKind::NoMethod),
    }
}
