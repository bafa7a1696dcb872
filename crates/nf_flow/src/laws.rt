//! Laws of the states of a run, each a contract over the definitions alone.

ghost use Rattle.std.specs.Prelude.{◌≡◌, [], ◌∷◌, ℕ, Some};
ghost use Rattle.nf_graph.specs.Node.{node_at};
ghost use Rattle.nf_graph.specs.WellMade.{IsWellMade};
ghost use Rattle.nf_machine.specs.declared.event.Event.{Event};
ghost use Rattle.nf_machine.specs.State.{Ticket};
ghost use Rattle.nf_machine.specs.Step.{ticket_at};
ghost use Rattle.nf_machine.specs.Legal.{IsOperatorKind};
ghost use Rattle.nf_bounds.specs.Bounds.{IsBounded};
ghost use Rattle.nf_flow.specs.Seen.{Seen, MayAdd, plain_of, state_of};

/// The numbers of a run that goes on are small.
pub(crate) fn numbers_are_small()
    ensures { (z : Seen) (x : Event) → IsWellMade z.graph → MayAdd z x → IsBounded (plain_of z) (state_of z) }
{
    nf_graph::laws::well_made();
    nf_bounds::laws::numbers_are_small();
}

/// An operator's ticket has its one item as inputs.
pub(crate) fn operators_take_one_item()
    ensures { (z : Seen) (x : Event) (t : ℕ) (k : Ticket) → IsWellMade z.graph → MayAdd z x → ticket_at t (state_of z).tickets ≡ Some k
        → IsOperatorKind (node_at (plain_of z) k.node).kind → k.take.inputs ≡ k.take.item ∷ [] }
{
    nf_graph::laws::well_made();
}
