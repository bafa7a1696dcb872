//! The methods of lists.

ghost use Rattle.nf_value.specs.View.{plain_of};
ghost use Rattle.nf_texts.specs.Outcome.{Gives};
ghost use Rattle.nf_builtins.specs.Lists.{list_contains, list_index_of, list_take, list_drop, list_is_empty, list_size, list_reverse, list_first, list_last, list_sort, list_unique, list_max, list_min};

use crate::items::{count, firsts, front, greatest_of, has, least_of, place_of, rest, reversed};
use nf_bag::sorted;
use nf_texts::CallFault;
use nf_texts::args::{count_arg, no_args, on_list, one_arg};
use nf_texts::limits::{copied, count_value, judged};
use nf_value::{EvalKind, Vals, Value};
use std::alloc::Global;

/// `contains(x)`: whether the list has the item.
pub(crate) fn contains(list: &Vals, args: &Vals) -> Result<Value, CallFault>
    ensures { Gives (list_contains list.now args.now) result }
{
    let item = one_arg(args)?;
    judged(Value::Truth(has(list, item)))
}

/// `indexOf(x)`: the first place of the item, or -1.
pub(crate) fn index_of(list: &Vals, args: &Vals) -> Result<Value, CallFault>
    ensures { Gives (list_index_of list.now args.now) result }
{
    let item = one_arg(args)?;
    match place_of(list, item) {
        Some(place) => count_value(place),
        None => judged(Value::Int(-1)),
    }
}

/// `take(n)`: the first n items.
pub(crate) fn take(alloc: Global, list: &Vals, args: &Vals) -> Result<Value, CallFault>
    ensures { Gives (list_take list.now args.now) result }
{
    let count = count_arg(args)? as usize;
    judged(Value::List(front(alloc, list, count)?))
}

/// `drop(n)`: what follows the first n items.
pub(crate) fn drop(alloc: Global, list: &Vals, args: &Vals) -> Result<Value, CallFault>
    ensures { Gives (list_drop list.now args.now) result }
{
    let count = count_arg(args)? as usize;
    judged(Value::List(rest(alloc, list, count)?))
}

/// `isEmpty()`: whether the list has no items.
pub(crate) fn is_empty(list: &Vals, args: &Vals) -> Result<Value, CallFault>
    ensures { Gives (list_is_empty list.now args.now) result }
{
    no_args(args)?;
    judged(Value::Truth(list.len() == 0))
}

/// `size()`: the number of items.
pub(crate) fn size(list: &Vals, args: &Vals) -> Result<Value, CallFault>
    ensures { Gives (list_size list.now args.now) result }
{
    no_args(args)?;
    count_value(count(list))
}

/// `reverse()`: the items from the last to the first.
pub(crate) fn reverse(alloc: Global, list: &Vals, args: &Vals) -> Result<Value, CallFault>
    ensures { Gives (list_reverse list.now args.now) result }
{
    no_args(args)?;
    judged(Value::List(reversed(alloc, list)?))
}

/// `first()`: the first item.
pub(crate) fn first(recv: &Value, args: &Vals) -> Result<Value, CallFault>
    ensures { Gives (list_first (plain_of recv.now) args.now) result }
{
    let list = on_list(recv)?;
    no_args(args)?;
    match list.items() {
        [first, ..] => copied(first),
        [] => Err(CallFault::Kind(EvalKind::WrongKind)),
    }
}

/// `last()`: the last item.
pub(crate) fn last(recv: &Value, args: &Vals) -> Result<Value, CallFault>
    ensures { Gives (list_last (plain_of recv.now) args.now) result }
{
    let list = on_list(recv)?;
    no_args(args)?;
    match list.items() {
        [.., last] => copied(last),
        [] => Err(CallFault::Kind(EvalKind::WrongKind)),
    }
}

/// `sort()`: the items in rising order.
pub(crate) fn sort(recv: &Value, args: &Vals) -> Result<Value, CallFault>
    ensures { Gives (list_sort (plain_of recv.now) args.now) result }
{
    let list = on_list(recv)?;
    no_args(args)?;
    judged(Value::List(sorted(list.copy()?)?))
}

/// `unique()`: each value once, where it stands first.
pub(crate) fn unique(alloc: Global, recv: &Value, args: &Vals) -> Result<Value, CallFault>
    ensures { Gives (list_unique (plain_of recv.now) args.now) result }
{
    let list = on_list(recv)?;
    no_args(args)?;
    judged(Value::List(firsts(alloc, list)?))
}

/// `max()`: the greatest item, or null.
pub(crate) fn max(recv: &Value, args: &Vals) -> Result<Value, CallFault>
    ensures { Gives (list_max (plain_of recv.now) args.now) result }
{
    let list = on_list(recv)?;
    no_args(args)?;
    match greatest_of(list) {
        Some(item) => copied(item),
        None => judged(Value::Null),
    }
}

/// `min()`: the smallest item, or null.
pub(crate) fn min(recv: &Value, args: &Vals) -> Result<Value, CallFault>
    ensures { Gives (list_min (plain_of recv.now) args.now) result }
{
    let list = on_list(recv)?;
    no_args(args)?;
    match least_of(list) {
        Some(item) => copied(item),
        None => judged(Value::Null),
    }
}
