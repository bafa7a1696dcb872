//! `Ran`: a job that a lane ran, and what its report amounts to.

ghost use Rattle.std.specs.Prelude.{◌≡◌, Result, IfOk};
ghost use Rattle.nf_job.specs.declared.fault.TaskFault.{TaskFault};
ghost use Rattle.nf_job.specs.declared.emitted.Outputs.{Outputs};
ghost use Rattle.nf_flight.specs.Ticket.{node_of, inputs_of, attempt_of};
ghost use Rattle.nf_stored.specs.Answers.{AnswersTask};
ghost use Rattle.nf_core.specs.Records.{is_recorded as recorded};
ghost use Rattle.nf_core.specs.Kept.{IsRecordFor};

use nf_flight::Ticket;
use nf_job::{Job, Outputs, Report, TaskFault, TaskRefusal};
use nf_lane::Finished;
use nf_record::{Form, Record, record_text};
use nf_stored::Rules;
use nf_value::{Bytes, Mem};
use std::alloc::Global;

/// A job that a lane ran, what its report amounts to, and the bytes of the record that is to be kept of it (own). It is made outside of a run's lock.
#[derive(Drop)]
pub struct Ran<D> {
    pub(crate) done: D,
    pub(crate) report: Report,
    pub(crate) outs: Result<Outputs, TaskFault>,
    pub(crate) bytes: Option<Bytes>,
}

impl<D: Finished + Drop> Ran<D> {
    ghost use Rattle.nf_core.specs.Ran.{IsRan};

    /// What the run of a ticket's job came to under these rules. A record is kept of it if it amounts to values or its task is tried again.
    ///
    /// # Errors
    ///
    /// `Mem` if there is no memory for it. The Done is lost then.
    pub fn of<R: Rules>(
        alloc: Global,
        rules: &R,
        ticket: &Ticket,
        job: &Job,
        done: D,
    ) -> Result<Ran<D>, Mem>
        requires { R.keeps rules.now }
        ensures { IfOk result (IsRan (R.meaning rules.now) ticket.now job.now done (D.told done)) }
    {
        let report = done.report().copy()?;
        let outs = outs_of(alloc, rules, ticket, &report)?;
        let bytes = record_of(alloc, job, &report, &outs)?;
        Ok(Ran {
            done,
            report,
            outs,
            bytes,
        })
    }
}

/// What a report of a ticket's attempt amounts to under these rules.
///
/// # Errors
///
/// `Mem` if there is no memory for it.
pub fn outs_of<R: Rules>(
    alloc: Global,
    rules: &R,
    ticket: &Ticket,
    report: &Report,
) -> Result<Result<Outputs, TaskFault>, Mem>
    requires { R.keeps rules.now }
    ensures { IfOk result (λ outs. outs ≡ (R.meaning rules.now).outputs (node_of ticket.now) (inputs_of ticket.now)
        (attempt_of ticket.now) report.now) }
{
    let answer = rules.outputs(
        alloc,
        ticket.node(),
        ticket.inputs(),
        ticket.attempt(),
        report,
    );
    judged(answer)
}

// The answer without its want of memory.
fn judged(answer: Result<Outputs, TaskRefusal>) -> Result<Result<Outputs, TaskFault>, Mem>
    ensures { (due : Result Outputs TaskFault) → AnswersTask due answer → IfOk result (λ outs. outs ≡ due) }
{
    match answer {
        Ok(outputs) => Ok(Ok(outputs)),
        Err(TaskRefusal::Fault(fault)) => Ok(Err(fault)),
        Err(TaskRefusal::Mem) => Err(Mem),
    }
}

// Whether a record is kept of a report that amounts to this.
fn is_recorded(outs: &Result<Outputs, TaskFault>) -> bool
    ensures { result ≡ recorded outs.now }
{
    matches!(outs, Ok(Outputs::Emits(_) | Outputs::Again))
}

// The record that is kept of the job, if one is.
fn record_of(
    alloc: Global,
    job: &Job,
    report: &Report,
    outs: &Result<Outputs, TaskFault>,
) -> Result<Option<Bytes>, Mem>
    ensures { IfOk result (IsRecordFor (recorded outs.now) job.now report.now) }
{
    if !is_recorded(outs) {
        return Ok(None);
    }
    let stored = Record {
        form: Form::Current,
        job: job.text().copy()?,
        report: report.copy()?,
    };
    Ok(Some(Bytes::of(record_text(alloc, &stored)?)))
}
