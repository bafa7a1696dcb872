//! Laws of the states of a run, each a contract over the definitions alone.

ghost use Rattle.std.specs.Prelude.{◌≤◌, List, length};
ghost use Rattle.nf_graph.specs.Rules.{Rules, IsRules};
ghost use Rattle.nf_graph.specs.Node.{PlainNode, IsGraph};
ghost use Rattle.nf_machine.specs.Event.{PlainEvent};
ghost use Rattle.nf_machine.specs.History.{after, IsHistory};
ghost use Rattle.nf_bounds.specs.Bounds.{IsBounded};

/// After each lawful history of a graph of at most 65,536 nodes the numbers of the state are small: the next ticket's has 27 bits, a node
/// took less often than that and was pushed less often still, the charge is within its limit while the run goes on, and no attempt is
/// past the 101st. The nodes of tickets in flight aren't closed.
#[tactic(auto, using(crate::proofs::Bounded::bounded))]
pub fn numbers_are_small()
    ensures { (g : List PlainNode) (R : Rules) (h : List PlainEvent) → IsGraph g → length g ≤ 65536 → IsRules R → IsHistory g R h
        → IsBounded g (after g h) }
{}
