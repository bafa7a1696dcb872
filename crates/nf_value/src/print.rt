//! The text of a value.

ghost use Rattle.std.specs.Prelude.{◌≡◌, ◌++◌, OnOk, IfOk, string_bytes, codes};
ghost use Rattle.std.specs.Fmt.{signed_decimal};
ghost use Rattle.nf_value.specs.Plain.{plains_of, plain_pairs_of};
ghost use Rattle.nf_value.specs.View.{plain_of};
ghost use Rattle.nf_value.specs.Text.{value_text, with_commas, entries_text, item_texts, pair_texts};

use crate::list::Vals;
use crate::map::Pairs;
use crate::mem::Mem;
use crate::text::Txt;
use crate::value::Value;
use std::alloc::Global;

/// The text of a value, as a template or `println` prints it (Nextflow reference, "Script: String interpolation"). A number is decimal,
/// a text is itself, a file is its name. A list is `[1, 2]`, and a map is `[a:1, b:2]`, in the order of its keys; an empty map is `[:]`.
/// Texts in lists and maps have no quotes.
///
/// # Errors
///
/// `Mem` where there is no memory for it.
pub fn text_of(alloc: Global, value: &Value) -> Result<Txt, Mem>
    ensures { IfOk result (λ t. t ≡ value_text (plain_of value.now)) }
{
    let mut out = String::new(alloc);
    push_text(&mut out, value)?;
    Ok(Txt::of(out))
}

fn push_number(out: &mut String, number: i64) -> Result<(), Mem>
    ensures { OnOk result (string_bytes out.new ≡ string_bytes out.old ++ signed_decimal number) }
{
    write!(out, "{number}")?;
    Ok(())
}

#[cycle(text)]
fn push_text(out: &mut String, value: &Value) -> Result<(), Mem>
    ensures { OnOk result (string_bytes out.new ≡ string_bytes out.old ++ value_text (plain_of value.now)) }
{
    match value {
        Value::Null => out.push_str("null")?,
        Value::Truth(true) => out.push_str("true")?,
        Value::Truth(false) => out.push_str("false")?,
        Value::Int(number) => push_number(out, *number)?,
        Value::Text(text) => out.push_str(text.as_str())?,
        Value::File(file) => out.push_str(file.file().name.as_str())?,
        Value::List(list) => push_list(out, list)?,
        Value::Map(pairs) => push_map(out, pairs)?,
    }
    Ok(())
}

#[cycle(text)]
fn push_item(out: &mut String, separator: &str, item: &Value) -> Result<(), Mem>
    ensures { OnOk result (string_bytes out.new ≡ string_bytes out.old ++ (separator.now ++ value_text (plain_of item.now))) }
{
    out.push_str(separator)?;
    push_text(out, item)
}

#[cycle(text)]
fn push_pair(out: &mut String, separator: &str, pair: &(Txt, Value)) -> Result<(), Mem>
    ensures { OnOk result (string_bytes out.new ≡ string_bytes out.old ++ (separator.now ++ (pair.now.0 ++ codes ":" ++ value_text (plain_of pair.now.1)))) }
{
    out.push_str(separator)?;
    out.push_str(pair.0.as_str())?;
    out.push_str(":")?;
    push_text(out, &pair.1)
}

#[cycle(text)]
fn push_list(out: &mut String, list: &Vals) -> Result<(), Mem>
    ensures { OnOk result (string_bytes out.new ≡ string_bytes out.old ++ (codes "[" ++ with_commas (item_texts (plains_of list.now)) ++ codes "]")) }
{
    out.push_str("[")?;
    let mut separator = "";
    for item in &list.items {
        push_item(out, separator, item)?;
        separator = ", ";
    }
    out.push_str("]")?;
    Ok(())
}

#[cycle(text)]
fn push_map(out: &mut String, pairs: &Pairs) -> Result<(), Mem>
    ensures { OnOk result (string_bytes out.new ≡ string_bytes out.old ++ (codes "[" ++ entries_text (pair_texts (plain_pairs_of pairs.now)) ++ codes "]")) }
{
    if pairs.items.is_empty() {
        out.push_str("[:]")?;
        return Ok(());
    }
    out.push_str("[")?;
    let mut separator = "";
    for pair in &pairs.items {
        push_pair(out, separator, pair)?;
        separator = ", ";
    }
    out.push_str("]")?;
    Ok(())
}
