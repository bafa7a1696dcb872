//! What workers left out, given up.

ghost use Rattle.std.specs.Prelude.{◌≡◌, ◌∷◌, List, map};
ghost use Rattle.nf_core.specs.Calls.{GivesUp};
ghost use Rattle.nf_flow.specs.Questions.{IsFlying};
ghost use Rattle.nf_flow.specs.Seen.{events_of, plain_of};
ghost use Rattle.nf_locked.specs.Locked.{failures_of, starts_of};
ghost use Rattle.nf_locked.specs.Out.{AreOut};
ghost use Rattle.nf_machine.specs.History.{IsHistory};
ghost use Rattle.nf_flight.specs.declared.ticket.Ticket.{Ticket};
ghost use Rattle.nf_pool.specs.Sweep.{AreAmongOut, IsSwept};
ghost use Rattle.nf_serial.specs.Serial.{IsIdle};

use nf_core::{Fixed, RunState};
use nf_flight::Ticket;
use nf_keeper::Keeper;
use nf_lane::Lane;
use nf_machine::Stop;

/// Gives each ticket up that is left out. Takes no memory.
pub(crate) fn sweep<L: Lane, K: Keeper, J: Fixed>(
    run: &mut RunState<L, K, J>,
    out: Vec<Vec<Ticket>>,
)
    requires { AreOut run.old (map (λ v. v.items) out.items) }
    ensures idle { IsIdle run.new }
    ensures starts { starts_of run.new ≡ starts_of run.old }
    ensures failures { failures_of run.new ≡ failures_of run.old }
{
    for tickets in out {
        sweep_lane(run, tickets);
    }
}

// Gives the tickets of one lane up.
fn sweep_lane<L: Lane, K: Keeper, J: Fixed>(run: &mut RunState<L, K, J>, tickets: Vec<Ticket>)
    requires { AreAmongOut run.old tickets.items }
    ensures { (others : List (List Ticket)) → AreOut run.old (tickets.items ∷ others) → IsSwept run.old run.new others }
{
    for ticket in tickets {
        drop_ticket(run, ticket);
    }
}

// Gives a ticket up: without a cause if the run is stopped, else for want of memory.
fn drop_ticket<L: Lane, K: Keeper, J: Fixed>(run: &mut RunState<L, K, J>, ticket: Ticket)
    requires { IsFlying run.old ticket }
    ensures up { GivesUp run.old ticket run.new }
    ensures lawful { IsHistory (plain_of run.old) J.facts.rules (events_of run.old) }
{
    run.holds();
    if run.flow().is_stopped() {
        run.give_up(ticket, None);
        return;
    }
    run.give_up(ticket, Some(Stop::Mem));
}
