//! A law of runs, a contract over the definitions alone.

ghost use Rattle.nf_machine.specs.declared.event.Event.{Event};
ghost use Rattle.nf_flow.specs.Seen.{Seen, grown};
ghost use Rattle.nf_steps.specs.Run.{Stay, ticket_of};

/// An event leaves each ticket in flight but the one that it is about.
#[tactic(auto, using(crate::proofs::Staying::others_stay))]
pub fn others_stay()
    ensures { (z : Seen) (x : Event) → Stay z (ticket_of x) (grown z x) }
{}
