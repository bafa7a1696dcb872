//! The methods of maps.

ghost use Rattle.std.specs.Prelude.{◌≡◌, ◌<◌, ◌^◌, IfOk, map};
ghost use Rattle.nf_value.specs.Plain.{plains_of, plain_pairs_of};
ghost use Rattle.nf_value.specs.View.{plain_of};
ghost use Rattle.nf_value.specs.Code.{count_pairs};
ghost use Rattle.nf_texts.specs.Outcome.{Gives};
ghost use Rattle.nf_builtins.specs.Maps.{contains_key as contains_key_of, key_set as key_set_of, map_values, map_is_empty, map_size, has_key as has_key_of, keys_of, values_of};

use nf_texts::CallFault;
use nf_texts::args::{no_args, on_map, text_arg};
use nf_texts::limits::{count_value, judged};
use nf_value::{Mem, Pairs, Vals, Value};
use std::alloc::Global;

/// `containsKey(k)`: whether the map has the key.
pub(crate) fn contains_key(recv: &Value, args: &Vals) -> Result<Value, CallFault>
    ensures { Gives (contains_key_of (plain_of recv.now) args.now) result }
{
    let pairs = on_map(recv)?;
    let key = text_arg(args)?;
    judged(Value::Truth(has_key(pairs, key.as_str())))
}

/// `keySet()`: the keys in their order.
pub(crate) fn key_set(alloc: Global, recv: &Value, args: &Vals) -> Result<Value, CallFault>
    ensures { Gives (key_set_of (plain_of recv.now) args.now) result }
{
    let pairs = on_map(recv)?;
    no_args(args)?;
    judged(Value::List(keys(alloc, pairs)?))
}

/// `values()`: the values in the order of their keys.
pub(crate) fn values(alloc: Global, recv: &Value, args: &Vals) -> Result<Value, CallFault>
    ensures { Gives (map_values (plain_of recv.now) args.now) result }
{
    let pairs = on_map(recv)?;
    no_args(args)?;
    judged(Value::List(values_in(alloc, pairs)?))
}

/// `isEmpty()`: whether the map has no pairs.
pub(crate) fn is_empty(pairs: &Pairs, args: &Vals) -> Result<Value, CallFault>
    ensures { Gives (map_is_empty (plain_pairs_of pairs.now) args.now) result }
{
    no_args(args)?;
    judged(Value::Truth(count(pairs) == 0))
}

/// `size()`: the number of pairs.
pub(crate) fn size(pairs: &Pairs, args: &Vals) -> Result<Value, CallFault>
    ensures { Gives (map_size (plain_pairs_of pairs.now) args.now) result }
{
    no_args(args)?;
    count_value(count(pairs))
}

fn count(pairs: &Pairs) -> usize
    ensures count { result ≡ count_pairs (plain_pairs_of pairs.now) }
    ensures small { result < 2 ^ 63 }
{
    pairs.items().len()
}

fn has_key(pairs: &Pairs, key: &str) -> bool
    ensures { result ≡ has_key_of key.now (plain_pairs_of pairs.now) }
{
    for (other, _) in pairs.items() {
        if other.as_str() == key {
            return true;
        }
    }
    false
}

fn keys(alloc: Global, pairs: &Pairs) -> Result<Vals, Mem>
    ensures { IfOk result (λ v. plains_of v ≡ keys_of (plain_pairs_of pairs.now)) }
{
    let mut keys = Vec::new(alloc);
    for (key, _) in pairs.items() {
        keys.push(Value::Text(key.copy()?))?;
    }
    Ok(Vals::of(keys))
}

fn values_in(alloc: Global, pairs: &Pairs) -> Result<Vals, Mem>
    ensures { IfOk result (λ v. plains_of v ≡ values_of (plain_pairs_of pairs.now)) }
{
    let mut values = Vec::new(alloc);
    for (_, value) in pairs.items() {
        values.push(value.copy()?)?;
    }
    Ok(Vals::of(values))
}
