//! `toString()` and `join(t)`.

ghost use Rattle.std.specs.Prelude.{◌≡◌, ◌++◌, ◌≤◌, ◌^◌, ◌+◌, min, length, OnOk, IfOk, string_bytes, map};
ghost use Rattle.nf_value.specs.View.{plain_of};
ghost use Rattle.nf_value.specs.Text.{value_text};
ghost use Rattle.nf_texts.specs.Outcome.{Gives};
ghost use Rattle.nf_texts.specs.Joined.{joined as joined_of, list_join, to_text as to_text_of};

use crate::args::{no_args, on_list, text_arg};
use crate::fault::CallFault;
use crate::lengths::{sum_len, text_len};
use crate::limits::{capped_len, text_fault};
use nf_value::{EvalKind, Mem, Txt, Vals, Value, text_of};
use std::alloc::Global;

/// `toString()`: the text of the value. Null has no such method.
pub fn to_text(alloc: Global, recv: &Value, args: &Vals) -> Result<Value, CallFault>
    ensures { Gives (to_text_of (plain_of recv.now) args.now) result }
{
    match recv {
        Value::Null => Err(CallFault::Kind(EvalKind::NoMethod)),
        value => {
            no_args(args)?;
            text_fault(text_len(value))?;
            Ok(Value::Text(text_of(alloc, value)?))
        }
    }
}

/// `join(t)`: the texts of the items, with `t` between each two.
pub fn join(alloc: Global, recv: &Value, args: &Vals) -> Result<Value, CallFault>
    ensures { Gives (list_join (plain_of recv.now) args.now) result }
{
    let list = on_list(recv)?;
    let between = text_arg(args)?;
    text_fault(joined_len(list, between.as_str()))?;
    Ok(Value::Text(joined(alloc, list, between.as_str())?))
}

fn joined_len(list: &Vals, between: &str) -> u64
    ensures { result ≡ min (length (joined_of between.now list.now)) (2 ^ 32) }
{
    let mut len = 0;
    let mut separator = "";
    for item in list.items() {
        len = sum_len(capped_len(len, separator.len()), text_len(item));
        separator = between;
    }
    len
}

fn joined(alloc: Global, list: &Vals, between: &str) -> Result<Txt, Mem>
    ensures { IfOk result (λ t. t ≡ joined_of between.now list.now) }
{
    let mut out = String::new(alloc);
    let mut separator = "";
    for item in list.items() {
        push_item(alloc, &mut out, separator, item)?;
        separator = between;
    }
    Ok(Txt::of(out))
}

fn push_item(alloc: Global, out: &mut String, separator: &str, item: &Value) -> Result<(), Mem>
    ensures { OnOk result (string_bytes out.new ≡ string_bytes out.old ++ (separator.now ++ value_text (plain_of item.now))) }
{
    let text = text_of(alloc, item)?;
    out.push_str(separator)?;
    out.push_str(text.as_str())?;
    Ok(())
}
