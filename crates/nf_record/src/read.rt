//! `read_record`: reads a record from bytes.

ghost use Rattle.std.specs.Prelude.{◌≡◌, IfOk, map, option_map};
ghost use Rattle.nf_value.specs.View.{plain_of};
ghost use Rattle.nf_value.specs.Plain.{plains_of};
ghost use Rattle.nf_codec.specs.Reading.{read};
ghost use Rattle.nf_record.specs.Record.{IsRead};
ghost use Rattle.nf_record.specs.Parts.{three_in, all_in, exit_in, captured_in, file_in, files_in, found_in, report_in, form_in, job_in};
ghost use Rattle.nf_record.specs.Reading.{whole_in, record_of, record_in};

use crate::stored::{Form, Record};
use nf_codec::{CodeFault, decode};
use nf_job::{Captured, FileRefs, Found, Report};
use nf_value::{FileRef, Mem, Txt, Value};
use std::alloc::Global;

/// The record that the bytes are, in either form. `None` exactly if they aren't one whole record and nothing else.
///
/// # Errors
///
/// `Mem` if there is no memory for it.
pub fn read_record(alloc: Global, bytes: &[u8]) -> Result<Option<Record>, Mem>
    ensures exact { IfOk result (IsRead bytes.now) }
    ensures same { IfOk result (λ o. o ≡ record_in bytes.now) }
{
    nf_codec::laws::codes_read_back();
    nf_codec::laws::only_codes_are_read();
    let found = read_as(alloc, bytes)?;
    Ok(found)
}

fn read_as(alloc: Global, bytes: &[u8]) -> Result<Option<Record>, Mem>
    ensures { IfOk result (λ o. o ≡ record_in bytes.now) }
{
    let Some(value) = whole_value(alloc, bytes)? else {
        return Ok(None);
    };
    record_from(alloc, &value)
}

// The value whose code the bytes are.
fn whole_value(alloc: Global, bytes: &[u8]) -> Result<Option<Value>, Mem>
    ensures { IfOk result (λ o. option_map plain_of o ≡ whole_in (read 64 bytes.now)) }
{
    match decode(alloc, bytes) {
        Ok((value, len)) => {
            if len == bytes.len() {
                Ok(Some(value))
            } else {
                Ok(None)
            }
        }
        Err(CodeFault::NotAValue { .. }) => Ok(None),
        Err(CodeFault::TooDeep { .. }) => Ok(None),
        Err(CodeFault::Mem) => Err(Mem),
    }
}

fn record_from(alloc: Global, value: &Value) -> Result<Option<Record>, Mem>
    ensures { IfOk result (λ o. o ≡ record_of (plain_of value.now)) }
{
    let Some((form, job, report)) = three(value) else {
        return Ok(None);
    };
    let Some(form) = form_from(form) else {
        return Ok(None);
    };
    let Some(job) = job_from(job)? else {
        return Ok(None);
    };
    let Some(report) = report_from(alloc, report)? else {
        return Ok(None);
    };
    Ok(Some(Record { form, job, report }))
}

fn report_from(alloc: Global, value: &Value) -> Result<Option<Report>, Mem>
    ensures { IfOk result (λ o. o ≡ report_in (plain_of value.now)) }
{
    let Some((exit, captured, found)) = three(value) else {
        return Ok(None);
    };
    let Some(exit) = exit_from(exit) else {
        return Ok(None);
    };
    let Some(captured) = captured_from(captured)? else {
        return Ok(None);
    };
    let Some(found) = found_from(alloc, found)? else {
        return Ok(None);
    };
    Ok(Some(Report {
        exit,
        captured,
        found,
    }))
}

// The items of a list of three.
fn three(value: &Value) -> Option<(&Value, &Value, &Value)>
    ensures { option_map (λ p. (plain_of p.0.now, plain_of p.1.now, plain_of p.2.now)) result
        ≡ three_in (plain_of value.now) }
{
    let Value::List(items) = value else {
        return None;
    };
    match items.items() {
        [first, second, third] => Some((first, second, third)),
        _ => None,
    }
}

fn form_from(value: &Value) -> Option<Form>
    ensures { result ≡ form_in (plain_of value.now) }
{
    let Value::Text(text) = value else {
        return None;
    };
    let name = text.as_str();
    if name == "nfrec2" {
        Some(Form::Current)
    } else if name == "nfrec1" {
        Some(Form::Older)
    } else {
        None
    }
}

fn job_from(value: &Value) -> Result<Option<Txt>, Mem>
    ensures { IfOk result (λ o. o ≡ job_in (plain_of value.now)) }
{
    match value {
        Value::Text(text) => Ok(Some(text.copy()?)),
        _ => Ok(None),
    }
}

fn exit_from(value: &Value) -> Option<i32>
    ensures { result ≡ exit_in (plain_of value.now) }
{
    match value {
        Value::Int(number) => i32::try_from(*number).ok(),
        _ => None,
    }
}

fn captured_from(value: &Value) -> Result<Option<Captured>, Mem>
    ensures { IfOk result (λ o. o ≡ captured_in (plain_of value.now)) }
{
    match value {
        Value::Null => Ok(Some(Captured::None)),
        Value::Truth(false) => Ok(Some(Captured::Bad)),
        Value::Text(text) => Ok(Some(Captured::Text(text.copy()?))),
        _ => Ok(None),
    }
}

fn found_from(alloc: Global, value: &Value) -> Result<Option<Found>, Mem>
    ensures { IfOk result (λ o. o ≡ found_in (plain_of value.now)) }
{
    let Value::List(items) = value else {
        return Ok(None);
    };
    let Some(lists) = all_files(alloc, items.items())? else {
        return Ok(None);
    };
    Ok(Some(Found::of(lists)))
}

fn all_files(alloc: Global, items: &[Value]) -> Result<Option<Vec<FileRefs>>, Mem>
    ensures { IfOk result (λ o. option_map (λ v. v.items) o ≡ all_in files_in (plains_of (map plain_of items.now))) }
{
    let mut lists = Vec::new(alloc);
    for item in items {
        let Some(files) = files_from(alloc, item)? else {
            return Ok(None);
        };
        lists.push(files)?;
    }
    Ok(Some(lists))
}

fn files_from(alloc: Global, value: &Value) -> Result<Option<FileRefs>, Mem>
    ensures { IfOk result (λ o. o ≡ files_in (plain_of value.now)) }
{
    let Value::List(items) = value else {
        return Ok(None);
    };
    let Some(files) = each_file(alloc, items.items())? else {
        return Ok(None);
    };
    Ok(Some(FileRefs::of(files)))
}

fn each_file(alloc: Global, items: &[Value]) -> Result<Option<Vec<FileRef>>, Mem>
    ensures { IfOk result (λ o. option_map (λ v. v.items) o ≡ all_in file_in (plains_of (map plain_of items.now))) }
{
    let mut files = Vec::new(alloc);
    for item in items {
        let Some(file) = file_from(item)? else {
            return Ok(None);
        };
        files.push(file)?;
    }
    Ok(Some(files))
}

fn file_from(value: &Value) -> Result<Option<FileRef>, Mem>
    ensures { IfOk result (λ o. o ≡ file_in (plain_of value.now)) }
{
    match value {
        Value::File(file) => Ok(Some(file.file().copy()?)),
        _ => Ok(None),
    }
}
