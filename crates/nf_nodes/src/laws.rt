//! A law of the nodes of a run, a contract over the definitions alone.

ghost use Rattle.std.specs.Prelude.{◌≡◌, ◌==◌, ℕ, List, count_by};
ghost use Rattle.nf_graph.specs.declared.node.Node.{Node};
ghost use Rattle.nf_machine.specs.State.{State, Ticket};
ghost use Rattle.nf_nodes.specs.Nodes.{AreNodes};
ghost use Rattle.nf_nodes.specs.declared.nodes.Nodes.{Nodes};

/// The nodes show a state still where takes in flight changed, but not how many of each node there are.
#[tactic(auto, using(crate::proofs::Stepping::tickets_alone))]
pub fn tickets_change()
    ensures { (nodes : List Node) (s u : State) (c : Nodes) → AreNodes nodes s c → u.spots ≡ s.spots → u.stop ≡ s.stop
        → ((i : ℕ) → count_by (λ (k : Ticket). k.node == i) u.tickets ≡ count_by (λ (k : Ticket). k.node == i) s.tickets)
        → AreNodes nodes u c }
{}
