//! A law of runs, a contract over the definitions alone.

ghost use Rattle.nf_graph.specs.Rules.{Rules};
ghost use Rattle.nf_machine.specs.declared.event.Cause.{Cause};
ghost use Rattle.nf_machine.specs.declared.event.Event.TheVariants as e;
ghost use Rattle.nf_machine.specs.History.{IsHistory};
ghost use Rattle.nf_flight.specs.declared.ticket.Ticket.{Ticket};
ghost use Rattle.nf_flight.specs.Ticket.{number_of};
ghost use Rattle.nf_flow.specs.Seen.{Seen, events_of, grown, plain_of};
ghost use Rattle.nf_flow.specs.Questions.{IsFlying};

/// A ticket whose attempt starts stays in flight.
pub fn started_stays()
    ensures { (R : Rules) → (z : Seen) → (t : Ticket) → (cause : Cause) → IsHistory (plain_of z) R (events_of z) → IsFlying z t
        → IsFlying (grown z (e.Start (number_of t) cause)) t }
{}
