//! Calls of methods.

ghost use Rattle.std.specs.Prelude.{◌≡◌, true, slice_get, IfSome};
ghost use Rattle.nf_value.specs.View.{plain_of};
ghost use Rattle.nf_texts.specs.Outcome.{Gives};
ghost use Rattle.nf_builtins.specs.Call.{builtin_rows, IsPlainRow, answer_of, is_plain, contains_row, drop_row, take_row, index_of_row, reverse_row, is_empty_row, size_row};

use crate::method::Method;
use crate::rows::ROWS;
use crate::{files, lists, maps, numbers, totals};
use nf_texts::{CallFault, joining, texts, tokens};
use nf_value::{EvalKind, Vals, Value};
use std::alloc::Global;

/// Calls the method of a row of the table (Nextflow reference, "Standard library: types"). A function of `Math` ignores the receiver. Methods that take a
/// closure are the evaluator's and may not be called here.
///
/// # Errors
///
/// The first of these: `NoMethod` where the receiver has no such method; `Arity` for another number of arguments; `WrongKind` for an argument of another
/// kind, a negative count, a place outside of a text, an empty list without a first item, or an empty text to be replaced; then `DivZero`, `Overflow` and
/// `NotNumber`, by the method. `TooLarge` comes where the value would weigh more than
/// 16,777,216, and else `TooDeep` where it would be deeper than 64. `Mem` where there is no memory for it.
pub fn call(alloc: Global, row: usize, recv: &Value, args: &Vals) -> Result<Value, CallFault>
    requires { IsPlainRow row }
    ensures { IfSome (slice_get builtin_rows row) (λ b. Gives (answer_of b.method (plain_of recv.now) args.now) result) }
{
    answer(alloc, ROWS[row].method, recv, args)
}

fn answer(alloc: Global, method: Method, recv: &Value, args: &Vals) -> Result<Value, CallFault>
    requires { is_plain method ≡ true }
    ensures { Gives (answer_of method (plain_of recv.now) args.now) result }
{
    match method {
        Method::MathAbs => numbers::abs(args),
        Method::MathMax => numbers::greater(args),
        Method::MathMin => numbers::less(args),
        Method::BaseName => files::base_name(alloc, recv, args),
        Method::Contains => contains(recv, args),
        Method::ContainsKey => maps::contains_key(recv, args),
        Method::Drop => drop(alloc, recv, args),
        Method::EndsWith => texts::ends_with(recv, args),
        Method::Extension => files::extension(alloc, recv, args),
        Method::First => lists::first(recv, args),
        Method::Flatten => totals::flatten(alloc, recv, args),
        Method::GetBaseName => files::base_name(alloc, recv, args),
        Method::GetExtension => files::extension(alloc, recv, args),
        Method::GetName => files::name(alloc, recv, args),
        Method::GetSimpleName => files::simple_name(alloc, recv, args),
        Method::IndexOf => index_of(recv, args),
        Method::Intdiv => numbers::intdiv(recv, args),
        Method::IsEmpty => is_empty(recv, args),
        Method::IsInteger => numbers::is_integer(recv, args),
        Method::Join => joining::join(alloc, recv, args),
        Method::KeySet => maps::key_set(alloc, recv, args),
        Method::Last => lists::last(recv, args),
        Method::Length => texts::length(recv, args),
        Method::Max => lists::max(recv, args),
        Method::Min => lists::min(recv, args),
        Method::Name => files::name(alloc, recv, args),
        Method::Replace => texts::replace(alloc, recv, args),
        Method::Reverse => reverse(alloc, recv, args),
        Method::SimpleName => files::simple_name(alloc, recv, args),
        Method::Size => size(recv, args),
        Method::Sort => lists::sort(recv, args),
        Method::StartsWith => texts::starts_with(recv, args),
        Method::Substring => texts::substring(alloc, recv, args),
        Method::Sum => totals::sum(recv, args),
        Method::Take => take(alloc, recv, args),
        Method::ToInteger => numbers::to_integer(recv, args),
        Method::ToLowerCase => texts::to_lower_case(alloc, recv, args),
        Method::ToText => joining::to_text(alloc, recv, args),
        Method::ToUpperCase => texts::to_upper_case(alloc, recv, args),
        Method::Tokenize => tokens::tokenize(alloc, recv, args),
        Method::Trim => texts::trim(alloc, recv, args),
        Method::Unique => lists::unique(alloc, recv, args),
        Method::Values => maps::values(alloc, recv, args),
        Method::Any | Method::Collect | Method::Every | Method::Find | Method::FindAll => {
            unreachable!()
        }
    }
}

/// `contains(x)` on texts and lists.
fn contains(recv: &Value, args: &Vals) -> Result<Value, CallFault>
    ensures { Gives (contains_row (plain_of recv.now) args.now) result }
{
    match recv {
        Value::Text(text) => texts::contains(text, args),
        Value::List(list) => lists::contains(list, args),
        _ => Err(CallFault::Kind(EvalKind::NoMethod)),
    }
}

/// `drop(n)` on texts and lists.
fn drop(alloc: Global, recv: &Value, args: &Vals) -> Result<Value, CallFault>
    ensures { Gives (drop_row (plain_of recv.now) args.now) result }
{
    match recv {
        Value::Text(text) => texts::drop(alloc, text, args),
        Value::List(list) => lists::drop(alloc, list, args),
        _ => Err(CallFault::Kind(EvalKind::NoMethod)),
    }
}

/// `take(n)` on texts and lists.
fn take(alloc: Global, recv: &Value, args: &Vals) -> Result<Value, CallFault>
    ensures { Gives (take_row (plain_of recv.now) args.now) result }
{
    match recv {
        Value::Text(text) => texts::take(alloc, text, args),
        Value::List(list) => lists::take(alloc, list, args),
        _ => Err(CallFault::Kind(EvalKind::NoMethod)),
    }
}

/// `indexOf(x)` on texts and lists.
fn index_of(recv: &Value, args: &Vals) -> Result<Value, CallFault>
    ensures { Gives (index_of_row (plain_of recv.now) args.now) result }
{
    match recv {
        Value::Text(text) => texts::index_of(text, args),
        Value::List(list) => lists::index_of(list, args),
        _ => Err(CallFault::Kind(EvalKind::NoMethod)),
    }
}

/// `reverse()` on texts and lists.
fn reverse(alloc: Global, recv: &Value, args: &Vals) -> Result<Value, CallFault>
    ensures { Gives (reverse_row (plain_of recv.now) args.now) result }
{
    match recv {
        Value::Text(text) => texts::reverse(alloc, text, args),
        Value::List(list) => lists::reverse(alloc, list, args),
        _ => Err(CallFault::Kind(EvalKind::NoMethod)),
    }
}

/// `isEmpty()` on texts, lists and maps.
fn is_empty(recv: &Value, args: &Vals) -> Result<Value, CallFault>
    ensures { Gives (is_empty_row (plain_of recv.now) args.now) result }
{
    match recv {
        Value::Text(text) => texts::is_empty(text, args),
        Value::List(list) => lists::is_empty(list, args),
        Value::Map(pairs) => maps::is_empty(pairs, args),
        _ => Err(CallFault::Kind(EvalKind::NoMethod)),
    }
}

/// `size()` on texts, lists and maps.
fn size(recv: &Value, args: &Vals) -> Result<Value, CallFault>
    ensures { Gives (size_row (plain_of recv.now) args.now) result }
{
    match recv {
        Value::Text(text) => texts::size(text, args),
        Value::List(list) => lists::size(list, args),
        Value::Map(pairs) => maps::size(pairs, args),
        _ => Err(CallFault::Kind(EvalKind::NoMethod)),
    }
}
