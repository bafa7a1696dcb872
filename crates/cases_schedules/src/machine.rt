//! `Machine`: a run of a row's flow, with its tickets.

ghost use Rattle.std.specs.Prelude.{◌≡◌, None, slice_index_or};
ghost use Rattle.std.specs.Option.{option_copied};

use nf_flight::Ticket;
use nf_flow::Flow;
use nf_machine::Move;

/// A step that may come next. The rules and the outcomes of the row tell all else of it. A ticket is named by its place among those of the run.
#[derive(Debug, Clone, Copy, PartialEq, Eq, Drop)]
pub(crate) enum Choice {
    /// A step that the run takes by itself.
    Move(Move),
    /// The closure answers to the ticket's item.
    Give(usize),
    /// The ticket's attempt starts, or is refused if it has no job.
    Start(usize),
    /// A record of the ticket's attempt is taken in place of a start.
    Reuse(usize),
    /// The ticket's attempt ends.
    Finish(usize),
    /// The ticket is given up.
    GiveUp(usize),
}

/// A run of a row's flow, with its tickets.
#[derive(Drop)]
pub(crate) struct Machine {
    pub(crate) flow: Flow,
    /// By their numbers from 1; nothing for a ticket that left.
    pub(crate) tickets: Vec<Option<Ticket>>,
}

impl Machine {
    /// The ticket at a place, if it is in flight.
    pub(crate) fn ticket(&self, place: usize) -> Option<&Ticket>
        ensures { option_copied result ≡ slice_index_or self.now.tickets.items place None }
    {
        match self.tickets.as_slice().get(place) {
            Some(Some(ticket)) => Some(ticket),
            _ => None,
        }
    }
}
