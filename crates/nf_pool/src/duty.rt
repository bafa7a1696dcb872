//! `Duty`: what a worker is to do outside of the lock.

use nf_flight::Ticket;

/// What a holding leaves a worker to do outside of the lock (own).
#[derive(Drop)]
pub(crate) enum Duty {
    /// Items of one operator are to be answered.
    Items {
        /// Copies of their tickets, at most 64.
        items: Vec<Ticket>,
    },
    /// A task is to be done.
    Task {
        /// The copy of its ticket.
        ticket: Ticket,
    },
    /// Nothing now: the lock is to be taken again.
    Again,
    /// No more moves come.
    Over,
}
