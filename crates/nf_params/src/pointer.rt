//! Pointers to values (RFC 6901), from the value outwards.

ghost use Rattle.std.specs.Prelude.{◌≡◌, ◌++◌, OnOk, IfOk, string_bytes, decimal, encode_utf8};
ghost use Rattle.nf_params.specs.Pointer.{escaped, IsHere, IsUnder, part_text};

use crate::fault::ParamsFault;
use nf_value::{Mem, Txt};
use std::alloc::Global;

/// The value itself is refused.
pub(crate) fn here(alloc: Global) -> ParamsFault
    ensures { IsHere result }
{
    ParamsFault::BadParams {
        pointer: Txt::of(String::new(alloc)),
    }
}

/// What is refused lies in an item of a list.
pub(crate) fn under_index(alloc: Global, index: usize, fault: ParamsFault) -> ParamsFault
    ensures { IsUnder (decimal index) fault result }
{
    let ParamsFault::BadParams { pointer } = fault else {
        return ParamsFault::Mem;
    };
    match at_index(alloc, index, &pointer) {
        Ok(pointer) => ParamsFault::BadParams { pointer },
        Err(_) => ParamsFault::Mem,
    }
}

fn at_index(alloc: Global, index: usize, pointer: &Txt) -> Result<Txt, Mem>
    ensures { IfOk result (λ t. t ≡ part_text (decimal index) pointer.now) }
{
    let mut digits = itoa::Buffer::new();
    let mut text = String::from_str(alloc, "/")?;
    text.push_str(digits.format(index))?;
    text.push_str(pointer.as_str())?;
    Ok(Txt::of(text))
}

/// What is refused lies in a member of an object.
pub(crate) fn under_key(alloc: Global, key: &str, fault: ParamsFault) -> ParamsFault
    ensures { IsUnder (escaped key.now) fault result }
{
    let ParamsFault::BadParams { pointer } = fault else {
        return ParamsFault::Mem;
    };
    match at_key(alloc, key, &pointer) {
        Ok(pointer) => ParamsFault::BadParams { pointer },
        Err(_) => ParamsFault::Mem,
    }
}

fn at_key(alloc: Global, key: &str, pointer: &Txt) -> Result<Txt, Mem>
    ensures { IfOk result (λ t. t ≡ part_text (escaped key.now) pointer.now) }
{
    let mut text = String::from_str(alloc, "/")?;
    push_escaped(&mut text, key)?;
    text.push_str(pointer.as_str())?;
    Ok(Txt::of(text))
}

/// Appends a key with `~0` for `~` and `~1` for `/`.
fn push_escaped(out: &mut String, key: &str) -> Result<(), Mem>
    ensures { OnOk result (string_bytes out.new ≡ string_bytes out.old ++ escaped key.now) }
{
    for mark in key.chars() {
        push_mark(out, mark)?;
    }
    Ok(())
}

fn push_mark(out: &mut String, mark: char) -> Result<(), Mem>
    ensures { OnOk result (string_bytes out.new ≡ string_bytes out.old ++ escaped (encode_utf8 mark)) }
{
    if mark == '~' {
        out.push_str("~0")?;
    } else if mark == '/' {
        out.push_str("~1")?;
    } else {
        out.push(mark)?;
    }
    Ok(())
}
