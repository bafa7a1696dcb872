//! The tickets that are out with one lane.

ghost use Rattle.std.specs.Prelude.{◌≡◌, ◌<◌, true, IfOk, IfSome, MatchOption, vec_capacity, vec_len};
ghost use Rattle.nf_flight.specs.Ticket.{attempt_of};
ghost use Rattle.nf_locked.specs.Leaves.{IsWithout};

use nf_flight::Ticket;
use nf_value::laws::equal_is_same;
use nf_value::{Mem, Vals};

/// A copy of a ticket whose attempt is the first, for work outside of the lock.
///
/// # Errors
///
/// `Mem` if there is no memory for it.
pub(crate) fn copy_of(ticket: &Ticket) -> Result<Ticket, Mem>
    requires { attempt_of ticket.now ≡ 1 }
    ensures { IfOk result (λ t. t ≡ ticket.now) }
{
    let inputs = ticket.inputs().copy()?;
    Ok(Ticket::new(
        ticket.number(),
        ticket.node(),
        ticket.port(),
        inputs,
        ticket.n(),
    ))
}

/// Whether the ticket is the one that this is a copy of.
#[tactic(auto, using(crate::proofs::Copies::same_ticket))]
pub(crate) fn is_copy(ticket: &Ticket, copy: &Ticket) -> bool
    ensures { result ≡ true → ticket.now ≡ copy.now }
{
    if ticket.number() != copy.number() || ticket.node() != copy.node() {
        return false;
    }
    if ticket.port() != copy.port() || ticket.n() != copy.n() {
        return false;
    }
    if ticket.attempt() != copy.attempt() {
        return false;
    }
    are_same(ticket.inputs(), copy.inputs())
}

// Whether two lists hold the same values.
fn are_same(one: &Vals, other: &Vals) -> bool
    ensures { result ≡ true → one.now ≡ other.now }
{
    equal_is_same();
    one.items() == other.items()
}

/// The ticket that this is a copy of, taken out of a lane's list.
pub(crate) fn take_back(tickets: &mut Vec<Ticket>, copy: &Ticket) -> Option<Ticket>
    ensures same { IfSome result (λ t. t ≡ copy.now) }
    ensures left { MatchOption result (tickets.new.items ≡ tickets.old.items) (λ t. IsWithout t tickets.old.items tickets.new.items) }
    ensures room { IfSome result (λ _. vec_len tickets.new < vec_capacity tickets.new) }
{
    let place = tickets.iter().position(|ticket| is_copy(ticket, copy))?;
    Some(tickets.remove(place))
}
