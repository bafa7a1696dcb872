//! What is known of a ticket in flight that came back.

ghost use Rattle.std.specs.Prelude.{◌≡◌, ◌≤◌, ◌⊎◌};
ghost use Rattle.nf_core.specs.Calls.{GivesUp};
ghost use Rattle.nf_flight.specs.Ticket.{attempt_of, number_of};
ghost use Rattle.nf_flow.specs.Questions.{IsFlying};
ghost use Rattle.nf_flow.specs.Seen.{grown};
ghost use Rattle.nf_locked.specs.Locked.{AnswersIt, IsItemOf};
ghost use Rattle.nf_machine.specs.declared.event.Event.TheVariants as e;

use nf_core::{Fixed, RunState};
use nf_flight::Ticket;
use nf_graph::laws::well_made;
use nf_keeper::Keeper;
use nf_lane::Lane;
use nf_stored::Rules;
use nf_value::{EvalFault, Value};

/// Enters the rules' answer for the one item of an operator's ticket. Where the run is stopped or there is no memory, the
/// ticket is given up.
pub(crate) fn give<L: Lane, K: Keeper, J: Fixed, R: Rules>(
    run: &mut RunState<L, K, J>,
    ticket: Ticket,
    rules: &R,
    answer: Result<Value, EvalFault>,
)
    requires rules { R.meaning rules.now ≡ J.facts.rules }
    requires ticket { IsFlying run.old ticket }
    requires item { IsItemOf J.facts ticket }
    requires answer { AnswersIt J.facts ticket answer }
    ensures { (run.new ≡ grown run.old (e.Give (number_of ticket) answer)) ⊎ GivesUp run.old ticket run.new }
{
    run.holds();
    well_made();
    let _nodes = run.flow().graph().nodes();
    run.give(ticket, rules, answer);
}

/// A task has at most 101 attempts.
pub(crate) fn few_attempts<L: Lane, K: Keeper, J: Fixed>(run: &RunState<L, K, J>, ticket: &Ticket)
    requires { IsFlying run.now ticket.now }
    ensures first { 1 ≤ attempt_of ticket.now }
    ensures last { attempt_of ticket.now ≤ 101 }
{
    run.holds();
    nf_bounds::laws::numbers_are_small();
    well_made();
    let _nodes = run.flow().graph().nodes();
}
