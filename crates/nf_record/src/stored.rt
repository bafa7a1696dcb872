//! `Record`: what a record says, and in which form.

use nf_job::Report;
use nf_value::Txt;

/// The two forms of records (own). Only the current form is written; the older one is still read.
#[derive(Clone, Copy)]
pub enum Form {
    /// The text `nfrec1` and a job's text in the older form, which has no attempt.
    Older,
    /// The text `nfrec2` and a job's text.
    Current,
}

/// What a record says (own).
#[derive(Drop)]
pub struct Record {
    /// The form.
    pub form: Form,
    /// The text of the job.
    pub job: Txt,
    /// What the job came to.
    pub report: Report,
}
