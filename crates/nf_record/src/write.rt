//! `record_text`: writes a record as bytes.

ghost use Rattle.std.specs.Prelude.{◌≡◌, [], ◌∷◌, IfOk, OnOk, map, FitsSigned};
ghost use Rattle.std.specs.Int.{w32};
ghost use Rattle.nf_value.specs.View.{plain_of};
ghost use Rattle.nf_value.specs.Plain.{text, list, plains_of};
ghost use Rattle.nf_job.specs.JobText.{files_plain};
ghost use Rattle.nf_record.specs.Record.{form_name, captured_plain, found_plain, report_plain, record_plain, IsRecord};

use crate::stored::{Form, Record};
use nf_codec::encode;
use nf_job::{Captured, FileRefs, Found, Report};
use nf_value::{Mem, Txt, Vals, Value};
use std::alloc::Global;

/// The bytes of a record (own): the code (`nf_codec`) of a list of three items, which are the form's text (`nfrec1` or `nfrec2`), the
/// job's text, and the report. The report is a list of three items: the exit status, the standard output (null if it wasn't wanted,
/// false if it was no text), and the list of the files that were found, a list for each pattern.
///
/// Example: `l3:s6:nfrec2s3:jobl3:i0;s1:al0:` says that the job `job` ended with status 0, wrote `a`, and had no patterns.
///
/// # Errors
///
/// `Mem` if there is no memory for it.
pub fn record_text(alloc: Global, stored: &Record) -> Result<Vec<u8>, Mem>
    ensures { IfOk result (λ b. IsRecord b.items stored.now) }
{
    let value = record_value(alloc, stored)?;
    let bytes = encode(alloc, &value)?;
    Ok(bytes)
}

fn record_value(alloc: Global, stored: &Record) -> Result<Value, Mem>
    ensures plain { IfOk result (λ v. plain_of v ≡ record_plain stored.now) }
    ensures exit { OnOk result (FitsSigned w32 stored.now.report.exit) }
{
    let form = text_value(alloc, name_of(stored.form))?;
    let job = text_value(alloc, stored.job.as_str())?;
    let report = report_value(alloc, &stored.report)?;
    three(alloc, form, job, report)
}

fn report_value(alloc: Global, report: &Report) -> Result<Value, Mem>
    ensures plain { IfOk result (λ v. plain_of v ≡ report_plain report.now) }
    ensures exit { OnOk result (FitsSigned w32 report.now.exit) }
{
    let exit = Value::Int(i64::from(report.exit));
    let captured = captured_value(&report.captured)?;
    let found = found_value(alloc, &report.found)?;
    three(alloc, exit, captured, found)
}

fn three(alloc: Global, first: Value, second: Value, third: Value) -> Result<Value, Mem>
    ensures { IfOk result (λ v. plain_of v ≡ list (plains_of (plain_of first ∷ plain_of second ∷ plain_of third ∷ []))) }
{
    let mut items = Vec::new(alloc);
    items.push(first)?;
    items.push(second)?;
    items.push(third)?;
    Ok(Value::List(Vals::of(items)))
}

fn name_of(form: Form) -> &'static str
    ensures { result.now ≡ form_name form }
{
    match form {
        Form::Older => "nfrec1",
        Form::Current => "nfrec2",
    }
}

fn text_value(alloc: Global, from: &str) -> Result<Value, Mem>
    ensures { IfOk result (λ v. plain_of v ≡ text from.now) }
{
    let copy = String::from_str(alloc, from)?;
    Ok(Value::Text(Txt::of(copy)))
}

fn captured_value(captured: &Captured) -> Result<Value, Mem>
    ensures { IfOk result (λ v. plain_of v ≡ captured_plain captured.now) }
{
    match captured {
        Captured::None => Ok(Value::Null),
        Captured::Bad => Ok(Value::Truth(false)),
        Captured::Text(text) => Ok(Value::Text(text.copy()?)),
    }
}

fn found_value(alloc: Global, found: &Found) -> Result<Value, Mem>
    ensures { IfOk result (λ v. plain_of v ≡ found_plain found.now) }
{
    let mut values = Vec::new(alloc);
    for files in found.items() {
        values.push(files_value(alloc, files)?)?;
    }
    Ok(Value::List(Vals::of(values)))
}

fn files_value(alloc: Global, files: &FileRefs) -> Result<Value, Mem>
    ensures { IfOk result (λ v. plain_of v ≡ files_plain files.now) }
{
    let mut values = Vec::new(alloc);
    for file in files.items() {
        values.push(Value::of_file(alloc, file.copy()?)?)?;
    }
    Ok(Value::List(Vals::of(values)))
}
