//! Steps of a flow alone, which the calls of a run are made of.

ghost use Rattle.std.specs.Prelude.{◌≡◌, ◌<◌, ◌++◌, ◌∷◌, [], MatchBool, true, vec_capacity, vec_len};
ghost use Rattle.nf_machine.specs.declared.event.Event.TheVariants as e;
ghost use Rattle.nf_flight.specs.Ticket.{number_of};
ghost use Rattle.nf_flow.specs.Seen.{MayAdd, grown};
ghost use Rattle.nf_flow.specs.Questions.{IsFlying};
ghost use Rattle.nf_core.specs.Leaves.{up_cause, CanEnd, CanGoOn, CanStart, IsFresh, MayStart, StartsOrUp};

use nf_flight::Ticket;
use nf_flow::Flow;
use nf_machine::{Cause, Stop};

/// Gives the ticket up: without a cause if the run is stopped, else for want of memory. Takes no memory.
pub(crate) fn give_back(flow: &mut Flow, ticket: Ticket)
    requires ticket { IsFlying flow.old ticket }
    requires legal { MayAdd flow.old (e.Abort (number_of ticket) (up_cause flow.old)) }
    ensures { flow.new ≡ grown flow.old (e.Abort (number_of ticket) (up_cause flow.old)) }
{
    let cause = if flow.is_stopped() {
        None
    } else {
        Some(Stop::Mem)
    };
    flow.abort(ticket, cause);
}

/// Whether the run goes on, and the ticket's attempt isn't started.
pub(crate) fn is_fresh(flow: &Flow, ticket: &Ticket) -> bool
    requires { IsFlying flow.now ticket.now }
    ensures { result ≡ true → IsFresh flow.now ticket.now }
{
    if flow.is_stopped() {
        return false;
    }
    !flow.is_started(ticket)
}

/// Whether the run goes on, the ticket's attempt isn't started, and there is room for an event.
pub(crate) fn can_start(flow: &mut Flow, ticket: &Ticket) -> bool
    requires { IsFlying flow.old ticket.now }
    ensures { MatchBool result (CanStart flow.old ticket.now flow.new) (flow.new ≡ flow.old) }
{
    if flow.is_stopped() || flow.is_started(ticket) {
        return false;
    }
    flow.make_room().is_ok()
}

/// Whether the ticket's attempt is started, and there is room for an event.
pub(crate) fn can_end(flow: &mut Flow, ticket: &Ticket) -> bool
    requires { IsFlying flow.old ticket.now }
    ensures { MatchBool result (CanEnd flow.old ticket.now flow.new) (flow.new ≡ flow.old) }
{
    if !flow.is_started(ticket) {
        return false;
    }
    flow.make_room().is_ok()
}

/// Whether the run goes on, and there is room for an event.
pub(crate) fn can_go_on(flow: &mut Flow) -> bool
    ensures { MatchBool result (CanGoOn flow.old flow.new) (flow.new ≡ flow.old) }
{
    if flow.is_stopped() {
        return false;
    }
    flow.make_room().is_ok()
}

/// Starts the ticket's attempt if that may start and there is room for the event; else gives the ticket up.
pub(crate) fn start_in(flow: &mut Flow, ticket: Ticket, cause: Cause) -> Option<Ticket>
    requires ticket { IsFlying flow.old ticket }
    requires start { MayStart flow.old ticket cause }
    requires abort { MayAdd flow.old (e.Abort (number_of ticket) (up_cause flow.old)) }
    ensures { StartsOrUp flow.old ticket cause result flow.new }
{
    if !can_start(flow, &ticket) {
        give_back(flow, ticket);
        return None;
    }
    flow.start(&ticket, cause);
    Some(ticket)
}

/// Keeps a Done behind the others, for which there is room. Takes no memory.
pub(crate) fn keep_done<D: Drop>(dones: &mut Vec<D>, done: D)
    requires { vec_len dones.old < vec_capacity dones.old }
    ensures { dones.new.items ≡ dones.old.items ++ done ∷ [] }
{
    dones.push_reserved(done);
}
