//! `lookup`: the report that records have for a job.

ghost use Rattle.std.specs.Prelude.{◌≡◌, Some, IfOk, option_copied};
ghost use Rattle.std.specs.Option.{option_and_then};
ghost use Rattle.nf_record.specs.Lookup.{same_form, report_if, report_at, found_report, IsReportAt, IsAnswer};

use crate::read::read_record;
use crate::stored::{Form, Record};
use nf_job::{Job, OldJob, Report};
use nf_value::{Mem, Txt};
use std::alloc::Global;

/// The report that was kept for a job (own): that of `bytes`, which are held at the job's key, if they are exactly one record of the
/// current form with the job's text; else that of `old`, which are held at its older key, if they are exactly one record of the older
/// form with the job's older text; else none. Only a first attempt has an older text.
///
/// # Errors
///
/// `Mem` if there is no memory for it.
pub fn lookup(
    alloc: Global,
    bytes: Option<&[u8]>,
    old: Option<&[u8]>,
    job: &Job,
) -> Result<Option<Report>, Mem>
    ensures exact { IfOk result (IsAnswer (option_copied bytes.entry) (option_copied old.entry) job.now) }
    ensures same { IfOk result (λ o. o ≡ found_report (option_copied bytes.entry) (option_copied old.entry) job.now) }
{
    let current = report_at(alloc, Form::Current, job.text(), bytes)?;
    if current.is_some() {
        return Ok(current);
    }
    match job.old() {
        Some(older) => older_report(alloc, older, old),
        None => Ok(None),
    }
}

fn older_report(alloc: Global, older: &OldJob, old: Option<&[u8]>) -> Result<Option<Report>, Mem>
    ensures exact { IfOk result (IsReportAt Form.Older older.now (option_copied old.entry)) }
    ensures same { IfOk result (λ o. o ≡ report_at Form.Older older.now (option_copied old.entry)) }
{
    report_at(alloc, Form::Older, older.text(), old)
}

// The report of the bytes, if they are a record of this form with this job text.
#[tactic(auto, using(crate::proofs::Answering::not_there))]
fn report_at(
    alloc: Global,
    form: Form,
    text: &Txt,
    bytes: Option<&[u8]>,
) -> Result<Option<Report>, Mem>
    ensures exact { IfOk result (IsReportAt form text.now (option_copied bytes.entry)) }
    ensures same { IfOk result (λ o. o ≡ report_at form text.now (option_copied bytes.entry)) }
{
    match bytes {
        Some(bytes) => report_in(alloc, form, text, bytes),
        None => Ok(None),
    }
}

fn report_in(alloc: Global, form: Form, text: &Txt, bytes: &[u8]) -> Result<Option<Report>, Mem>
    ensures exact { IfOk result (IsReportAt form text.now (Some bytes.now)) }
    ensures same { IfOk result (λ o. o ≡ report_at form text.now (Some bytes.now)) }
{
    crate::laws::records_read_back();
    let found = read_record(alloc, bytes)?;
    Ok(judged(form, text, found))
}

fn judged(form: Form, text: &Txt, found: Option<Record>) -> Option<Report>
    ensures { result ≡ option_and_then (report_if form text.now) found }
{
    match found {
        Some(stored) => report_if(form, text, stored),
        None => None,
    }
}

fn report_if(form: Form, text: &Txt, stored: Record) -> Option<Report>
    ensures { result ≡ report_if form text.now stored }
{
    if is_form(form, stored.form) && stored.job.as_str() == text.as_str() {
        Some(stored.report)
    } else {
        None
    }
}

fn is_form(form: Form, other: Form) -> bool
    ensures { result ≡ same_form form other }
{
    match form {
        Form::Older => matches!(other, Form::Older),
        Form::Current => matches!(other, Form::Current),
    }
}
