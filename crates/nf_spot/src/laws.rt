//! Laws of a node's state, each a contract over the definitions alone.

ghost use Rattle.std.specs.Prelude.{◌≡◌, ◌+◌, ◌<◌, ◌^◌, ℕ, List, [], false, length};
ghost use Rattle.nf_graph.specs.Rules.{Outs, emit_at};
ghost use Rattle.nf_graph.specs.WellMade.{plain_kind};
ghost use Rattle.nf_graph.specs.declared.node.Node.{Node};
ghost use Rattle.nf_machine.specs.State.{Ended, Spot};
ghost use Rattle.nf_machine.specs.Legal.{IsOperatorKind};
ghost use Rattle.nf_spot.specs.Spot.{CanPush, HasTakeRoom, IsNode, outs_on};
ghost use Rattle.nf_spot.specs.declared.node_state.NodeState.{NodeState};

/// After fewer than 2^32 pushes an operator that isn't closed has room for one more, and after fewer than 2^32 - 1 takes a node has room
/// for one more.
pub fn rooms()
    ensures push { (node : Node) (sp : Spot) (c : NodeState) → IsNode node sp c → IsOperatorKind (plain_kind node.kind)
        → sp.closed ≡ false → length sp.pushed < 2 ^ 32 → CanPush c }
    ensures take { (node : Node) (sp : Spot) (c : NodeState) → IsNode node sp c
        → length sp.taken + 1 < 2 ^ 32 → HasTakeRoom c }
{
    nf_operator::laws::room();
}

/// What came back from tasks isn't kept in memory, and a task that emits nothing leaves the node as it was.
pub fn came_back()
    ensures ended { (node : Node) (sp : Spot) (c : NodeState) (es : List Ended) → IsNode node sp c
        → IsNode node (record sp { ended = es }) c }
    ensures nothing { (node : Node) (sp : Spot) (c : NodeState) (outs : Outs) → IsNode node sp c
        → ((o : ℕ) → emit_at outs o ≡ []) → IsNode node (outs_on sp outs) c }
{}
