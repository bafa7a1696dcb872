//! The tickets that a machine holds: at each place that of a number, from 1, or nothing once it left.

ghost use Rattle.std.specs.Prelude.{◌≡◌, ◌++◌, ◌∷◌, [], None, Some, suc, length, slice_index_or, slice_set, OnOk};
ghost use Rattle.nf_flight.specs.Ticket.{number_of};

use anyhow::{Result, bail};
use nf_flight::Ticket;

/// Holds the ticket of a take behind the others.
pub(crate) fn hold(tickets: &mut Vec<Option<Ticket>>, ticket: Ticket) -> Result<()>
    ensures number { OnOk result (number_of ticket ≡ suc (length tickets.old.items)) }
    ensures held { OnOk result (tickets.new.items ≡ tickets.old.items ++ Some ticket ∷ []) }
{
    let number = ticket.number() as usize;
    if number == 0 || number - 1 != tickets.len() {
        bail!("a ticket of another number");
    }
    tickets.push(Some(ticket))?;
    Ok(())
}

/// Takes out the ticket at a place, if it is there.
pub(crate) fn take_out(tickets: &mut Vec<Option<Ticket>>, place: usize) -> Option<Ticket>
    ensures taken { result ≡ slice_index_or tickets.old.items place None }
    ensures left { tickets.new.items ≡ slice_set tickets.old.items place None }
{
    if place >= tickets.len() {
        return None;
    }
    tickets[place].take()
}

/// Puts a ticket that came back to its place.
pub(crate) fn put_back(tickets: &mut Vec<Option<Ticket>>, place: usize, back: Option<Ticket>)
    ensures { tickets.new.items ≡ slice_set tickets.old.items place back }
{
    if place < tickets.len() {
        tickets[place] = back;
    }
}
