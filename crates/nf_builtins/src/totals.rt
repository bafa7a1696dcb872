//! `sum()` and `flatten()`.

ghost use Rattle.std.specs.Prelude.{◌≡◌, ◌++◌, ◌^◌, ◌≤ℤ◌, ◌+ℤ◌, pos, neg_ℤ, IfOk, map};
ghost use Rattle.nf_value.specs.Plain.{plains_of};
ghost use Rattle.nf_value.specs.View.{plain_of};
ghost use Rattle.nf_texts.specs.Outcome.{Gives};
ghost use Rattle.nf_builtins.specs.Numbers.{number as number_of};
ghost use Rattle.nf_builtins.specs.Lists.{list_sum, list_flatten, total_of, total_with_one, sum_of, leaves, all_leaves};

use nf_texts::CallFault;
use nf_texts::args::{as_int, no_args, on_list};
use nf_texts::limits::judged;
use nf_value::{EvalKind, Mem, Vals, Value};
use std::alloc::Global;

/// `sum()`: the sum of the numbers, or null where there are none.
pub(crate) fn sum(recv: &Value, args: &Vals) -> Result<Value, CallFault>
    ensures { Gives (list_sum (plain_of recv.now) args.now) result }
{
    let list = on_list(recv)?;
    no_args(args)?;
    sum_of_items(list.items())
}

fn sum_of_items(items: &[Value]) -> Result<Value, CallFault>
    ensures { Gives (sum_of (map plain_of items.now)) result }
{
    if items.is_empty() {
        return judged(Value::Null);
    }
    number(total(items)?)
}

fn total(items: &[Value]) -> Result<i128, EvalKind>
    ensures { result ≡ total_of (map plain_of items.now) }
{
    let mut total: i128 = 0;
    for item in items {
        total = total_with(total, item)?;
    }
    Ok(total)
}

/// The total with one more number.
fn total_with(total: i128, item: &Value) -> Result<i128, EvalKind>
    requires low { neg_ℤ (pos (2 ^ 126)) ≤ℤ total }
    requires high { total ≤ℤ pos (2 ^ 126) }
    ensures exact { result ≡ total_with_one total (plain_of item.now) }
    ensures low { IfOk result (λ t. total ≤ℤ (t +ℤ pos (2 ^ 63))) }
    ensures high { IfOk result (λ t. t ≤ℤ (total +ℤ pos (2 ^ 63))) }
{
    let number = as_int(item)?;
    Ok(total + i128::from(number))
}

fn number(total: i128) -> Result<Value, CallFault>
    ensures { Gives (number_of total) result }
{
    match i64::try_from(total) {
        Ok(number) => judged(Value::Int(number)),
        Err(_) => Err(CallFault::Kind(EvalKind::Overflow)),
    }
}

/// `flatten()`: the items of the list and of the lists in it, at any depth, that are no lists.
pub(crate) fn flatten(alloc: Global, recv: &Value, args: &Vals) -> Result<Value, CallFault>
    ensures { Gives (list_flatten (plain_of recv.now) args.now) result }
{
    let list = on_list(recv)?;
    no_args(args)?;
    let mut values = Vec::new(alloc);
    put_all_leaves(&mut values, list.copy()?)?;
    judged(Value::List(Vals::of(values)))
}

#[cycle(leaves)]
fn put_leaves(values: &mut Vec<Value>, value: Value) -> Result<(), Mem>
    ensures { IfOk result (λ _. map plain_of values.new.items ≡ map plain_of values.old.items ++ leaves (plain_of value)) }
{
    match value {
        Value::List(list) => put_all_leaves(values, list),
        other => {
            values.push(other)?;
            Ok(())
        }
    }
}

#[cycle(leaves)]
fn put_all_leaves(values: &mut Vec<Value>, list: Vals) -> Result<(), Mem>
    ensures { IfOk result (λ _. map plain_of values.new.items ≡ map plain_of values.old.items ++ all_leaves (plains_of list)) }
{
    for item in list.into_items() {
        put_leaves(values, item)?;
    }
    Ok(())
}
