//! Steps of a flow alone, which the calls are made of.

ghost use Rattle.std.specs.Prelude.{◌≡◌, None, OnOk, OnErr, MatchBool};
ghost use Rattle.nf_machine.specs.declared.event.Event.TheVariants as e;
ghost use Rattle.nf_flight.specs.Ticket.{number_of};
ghost use Rattle.nf_flow.specs.Seen.{MayAdd, grown, roomy, state_of};
ghost use Rattle.nf_flow.specs.Questions.{IsFlying};
ghost use Rattle.nf_steps.specs.Steps.{CanEnd, CanGoOn, CanStart, up_cause};

use nf_flight::Ticket;
use nf_flow::Flow;
use nf_machine::Stop;
use nf_value::Mem;

/// Makes room for an event of a run that goes on. Without memory for it the run halts.
pub(crate) fn room_or_halt(flow: &mut Flow) -> Result<(), Mem>
    requires { (state_of flow.old).stop ≡ None }
    ensures ok { OnOk result (flow.new ≡ roomy flow.old) }
    ensures err { OnErr result (flow.new ≡ grown flow.old e.Halt) }
{
    let Ok(()) = flow.make_room() else {
        flow.halt_for_memory();
        return Err(Mem);
    };
    Ok(())
}

/// Gives the ticket up: without a cause if the run is stopped, else for want of memory. Takes no memory.
pub(crate) fn give_back(flow: &mut Flow, ticket: Ticket)
    requires ticket { IsFlying flow.old ticket }
    requires legal { MayAdd flow.old (e.Abort (number_of ticket) (up_cause flow.old)) }
    ensures { flow.new ≡ grown flow.old (e.Abort (number_of ticket) (up_cause flow.old)) }
{
    let cause = if flow.is_stopped() {
        None
    } else {
        Some(Stop::Mem)
    };
    flow.abort(ticket, cause);
}

/// Whether the run goes on, and there is room for an event.
pub(crate) fn can_go_on(flow: &mut Flow) -> bool
    ensures { MatchBool result (CanGoOn flow.old flow.new) (flow.new ≡ flow.old) }
{
    if flow.is_stopped() {
        return false;
    }
    flow.make_room().is_ok()
}

/// Whether the run goes on, the ticket's attempt isn't started, and there is room for an event.
pub(crate) fn can_start(flow: &mut Flow, ticket: &Ticket) -> bool
    requires { IsFlying flow.old ticket.now }
    ensures { MatchBool result (CanStart flow.old ticket.now flow.new) (flow.new ≡ flow.old) }
{
    if flow.is_stopped() || flow.is_started(ticket) {
        return false;
    }
    flow.make_room().is_ok()
}

/// Whether the ticket's attempt is started, and there is room for an event.
pub(crate) fn can_end(flow: &mut Flow, ticket: &Ticket) -> bool
    requires { IsFlying flow.old ticket.now }
    ensures { MatchBool result (CanEnd flow.old ticket.now flow.new) (flow.new ≡ flow.old) }
{
    if !flow.is_started(ticket) {
        return false;
    }
    flow.make_room().is_ok()
}
