//! What is left to do in a run, and that it comes to its end.

ghost use Rattle.std.specs.Prelude.{◌≡◌, ◌≤◌, ◌<◌, ◌^◌, None, true};
ghost use Rattle.nf_flight.specs.Ticket.{attempt_of};
ghost use Rattle.nf_flow.specs.Questions.{IsFlying};
ghost use Rattle.nf_flow.specs.Seen.{Seen, grown, plain_of, state_of};
ghost use Rattle.nf_machine.specs.History.{is_over};
ghost use Rattle.nf_machine.specs.declared.event.Event.{Event};
ghost use Rattle.nf_flow.specs.Ready.{IsReady};
ghost use Rattle.nf_serial.specs.Serial.{IsIdle, work_of};

use nf_core::{Fixed, RunState};
use nf_flight::Ticket;
use nf_graph::laws::well_made;
use nf_keeper::Keeper;
use nf_lane::Lane;
use nf_machine::laws::{comes_to_an_end, goes_on};

/// Each event leaves less to do.
pub(crate) fn falls<L: Lane, K: Keeper, J: Fixed>(run: &RunState<L, K, J>)
    ensures { (z : Seen) (x : Event) → run.now ≡ grown z x → work_of run.now < work_of z }
{
    run.holds();
    comes_to_an_end();
    well_made();
    let _nodes = run.flow().graph().nodes();
}

/// A run has fewer than 2^34 events before it.
pub(crate) fn few_left<L: Lane, K: Keeper, J: Fixed>(run: &RunState<L, K, J>)
    ensures { work_of run.now < 2 ^ 34 }
{
    run.holds();
    comes_to_an_end();
    well_made();
    let _nodes = run.flow().graph().nodes();
}

/// A run with nothing in flight that has no move is over.
pub(crate) fn ends<L: Lane, K: Keeper, J: Fixed>(run: &RunState<L, K, J>)
    ensures { IsReady run.now.graph (state_of run.now) None → IsIdle run.now → is_over (plain_of run.now) (state_of run.now) ≡ true }
{
    run.holds();
    goes_on();
    well_made();
    let _nodes = run.flow().graph().nodes();
}

/// A task has at most 101 attempts.
pub(crate) fn few_attempts<L: Lane, K: Keeper, J: Fixed>(run: &RunState<L, K, J>, ticket: &Ticket)
    requires { IsFlying run.now ticket.now }
    ensures first { 1 ≤ attempt_of ticket.now }
    ensures last { attempt_of ticket.now ≤ 101 }
{
    run.holds();
    nf_bounds::laws::numbers_are_small();
    well_made();
    let _nodes = run.flow().graph().nodes();
}
