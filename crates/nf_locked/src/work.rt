//! `Work` and `Begun`: what a worker is to do outside of the lock.

use nf_flight::Ticket;
use nf_job::Report;

/// What a step under the lock leaves to do outside of it (own). A ticket in it is a copy of one that is out.
#[derive(Drop)]
pub enum Work {
    /// An operator took an item, which is to be answered.
    Item {
        /// The copy.
        ticket: Ticket,
    },
    /// A process took, and its task is to be done.
    Task {
        /// The copy.
        ticket: Ticket,
    },
    /// A move was made that needs nothing outside of the lock.
    Moved,
    /// There is no move now.
    Nothing,
}

/// What comes next of an attempt at a task (own).
#[derive(Drop)]
pub enum Begun {
    /// It is started: its job is to be run, once.
    Run,
    /// The keeper has a record of the job: its files are to be looked for.
    Look {
        /// What the record tells.
        report: Report,
    },
    /// The ticket was given up.
    Over,
}
