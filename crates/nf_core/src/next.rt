//! `Next`: what comes next of a task.

use nf_flight::Ticket;
use nf_job::Report;

/// What comes next of a ticket whose attempt has a job (own).
#[derive(Drop)]
pub enum Next {
    /// The attempt is started: its job is to be run.
    Run {
        /// The ticket.
        ticket: Ticket,
    },
    /// The keeper has a record of the job: its files are to be looked for.
    Look {
        /// The ticket.
        ticket: Ticket,
        /// What the record tells.
        report: Report,
    },
    /// The ticket was given up.
    Over,
}
