//! The error line that a failed call writes.

ghost use Rattle.std.specs.Prelude.{◌≡◌, IfOk, string_bytes};
ghost use Rattle.hex.specs.Hex.{encode_lower};
ghost use Rattle.nf_ends.specs.Ends.{cause_text, clash_text, end_text, error_line as error_line_of, lower_text, order_text, parse_text, placed, placed_if, subject_text, task_text};
ghost use Rattle.nf_ends.specs.Lines.{damage_text, named_text};

use crate::end::{End, ItemCause};
use nf_bag::OpFault;
use nf_job::TaskFault;
use nf_kinds::Broken;
use nf_meaning::LowerFault;
use nf_parser::ParseFault;
use nf_publish::Clash;
use nf_value::{Digest, Mem, Place, Txt, Vals, Value, text_of};
use std::alloc::Global;

/// The error line of an end (own): `error: `, what is wrong, a line end. What is wrong in a script begins with its place, as
/// `LINE:COL: NAME`; what is wrong with a task with `task PROC INPUTS #n: `. `Ok`, `SinkFault` and `Mem` write no such line.
///
/// # Errors
///
/// `Mem` if there is no memory for it.
pub fn error_line(alloc: Global, end: &End) -> Result<String, Mem>
    ensures { IfOk result (λ s. string_bytes s ≡ error_line_of end.now) }
{
    let text = text_of_end(alloc, end)?;
    Ok(format!(in alloc; "error: {text}\n")?)
}

fn text_of_end(alloc: Global, end: &End) -> Result<String, Mem>
    ensures { IfOk result (λ s. string_bytes s ≡ end_text end.now) }
{
    match end {
        End::TaskFailed {
            process,
            inputs,
            n,
            fault,
        } => text_of_task(alloc, process, inputs, *n, fault),
        End::ItemFault { place, fault } => {
            let cause = text_of_cause(alloc, fault)?;
            at_place(alloc, *place, cause.as_str())
        }
        End::PublishClash(clash) => text_of_clash(alloc, clash),
        End::Charge { .. } => Ok(String::from_str(alloc, "Charge past 67108864")?),
        End::Usage(fault) => Ok(format!(in alloc; "usage: {fault}")?),
        End::NoScript => Ok(String::from_str(alloc, "NoScript")?),
        End::NoFile { path } => named(alloc, "NoFile", path),
        End::FileTooLong { path } => named(alloc, "FileTooLong", path),
        End::Lex(fault) => Ok(format!(in alloc; "{fault}")?),
        End::Parse(fault) => text_of_parse(alloc, *fault),
        End::Lower(fault) => text_of_lower(alloc, *fault),
        End::Order(broken) => text_of_order(alloc, *broken),
        End::BadParams { pointer } => named(alloc, "BadParams", pointer),
        End::HostFault => Ok(String::from_str(alloc, "HostFault")?),
        End::LaneFault => Ok(String::from_str(alloc, "LaneFault")?),
        End::KeeperFault => Ok(String::from_str(alloc, "KeeperFault")?),
        End::Damaged { due, .. } => text_of_damage(alloc, due),
        End::Ok | End::SinkFault | End::Mem => Ok(String::new(alloc)),
    }
}

fn text_of_task(
    alloc: Global,
    process: &Txt,
    inputs: &Vals,
    n: u32,
    fault: &TaskFault,
) -> Result<String, Mem>
    ensures { IfOk result (λ s. string_bytes s ≡ task_text process.now inputs.now n fault.now) }
{
    let inputs = text_of(alloc, &Value::List(inputs.copy()?))?;
    let process = process.as_str();
    let inputs = inputs.as_str();
    Ok(format!(in alloc; "task {process} {inputs} #{n}: {fault}")?)
}

fn text_of_cause(alloc: Global, cause: &ItemCause) -> Result<String, Mem>
    ensures { IfOk result (λ s. string_bytes s ≡ cause_text cause.now) }
{
    match cause {
        ItemCause::Eval { item, fault } => {
            let kind = fault.kind;
            let item = text_of(alloc, item)?;
            let item = item.as_str();
            Ok(format!(in alloc; "{kind} on {item}")?)
        }
        ItemCause::Op(fault) => {
            let subject = text_of_subject(alloc, fault)?;
            let subject = subject.as_str();
            Ok(format!(in alloc; "{fault} on {subject}")?)
        }
    }
}

/// The text of the item, key or total that an operator fails on.
fn text_of_subject(alloc: Global, fault: &OpFault) -> Result<Txt, Mem>
    ensures { IfOk result (λ t. t ≡ subject_text fault.now) }
{
    match fault {
        OpFault::DuplicateKey { key } => text_of(alloc, key),
        OpFault::NotATuple { item } | OpFault::NotANumber { item } | OpFault::TooDeep { item } => {
            text_of(alloc, item)
        }
        OpFault::Overflow { total } => Ok(Txt::of(format!(in alloc; "{total}")?)),
        OpFault::Mem => Ok(Txt::of(String::new(alloc))),
    }
}

fn text_of_clash(alloc: Global, clash: &Clash) -> Result<String, Mem>
    ensures { IfOk result (λ s. string_bytes s ≡ clash_text clash.now) }
{
    let target = clash.target.as_str();
    let first = hex_of(alloc, &clash.first)?;
    let second = hex_of(alloc, &clash.second)?;
    Ok(format!(in alloc; "PublishClash {target} {first} {second}")?)
}

fn text_of_parse(alloc: Global, fault: ParseFault) -> Result<String, Mem>
    ensures { IfOk result (λ s. string_bytes s ≡ parse_text fault) }
{
    match fault {
        ParseFault::Unexpected { place } => at_place(alloc, place, "Unexpected"),
        ParseFault::TooDeep { place } => at_place(alloc, place, "TooDeep"),
        ParseFault::Mem => Ok(String::from_str(alloc, "Mem")?),
    }
}

fn text_of_lower(alloc: Global, fault: LowerFault) -> Result<String, Mem>
    ensures { IfOk result (λ s. string_bytes s ≡ lower_text fault) }
{
    let name = format!(in alloc; "{fault}")?;
    at_place_if(alloc, fault.place(), name)
}

fn at_place_if(alloc: Global, place: Option<Place>, text: String) -> Result<String, Mem>
    ensures { IfOk result (λ s. string_bytes s ≡ placed_if place (string_bytes text)) }
{
    match place {
        Some(place) => at_place(alloc, place, text.as_str()),
        None => Ok(text),
    }
}

fn text_of_order(alloc: Global, broken: Broken) -> Result<String, Mem>
    ensures { IfOk result (λ s. string_bytes s ≡ order_text broken) }
{
    let rule = broken.rule;
    let text = format!(in alloc; "{rule}")?;
    at_place(alloc, broken.place, text.as_str())
}

fn text_of_damage(alloc: Global, due: &Digest) -> Result<String, Mem>
    ensures { IfOk result (λ s. string_bytes s ≡ damage_text due.now) }
{
    let due = hex_of(alloc, due)?;
    Ok(format!(in alloc; "Damaged {due}")?)
}

/// A digest in hexadecimal digits.
fn hex_of(alloc: Global, digest: &Digest) -> Result<String, Mem>
    ensures { IfOk result (λ s. string_bytes s ≡ encode_lower digest.now.0) }
{
    Ok(hex::encode(alloc, digest.0.as_slice())?)
}

/// A name, a blank and a text.
fn named(alloc: Global, name: &str, text: &Txt) -> Result<String, Mem>
    ensures { IfOk result (λ s. string_bytes s ≡ named_text name.now text.now) }
{
    let text = text.as_str();
    Ok(format!(in alloc; "{name} {text}")?)
}

fn at_place(alloc: Global, place: Place, text: &str) -> Result<String, Mem>
    ensures { IfOk result (λ s. string_bytes s ≡ placed place text.now) }
{
    Ok(format!(in alloc; "{place}: {text}")?)
}
