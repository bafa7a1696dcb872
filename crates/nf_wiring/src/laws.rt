//! Laws of port numbers, each a contract over the definitions alone.

ghost use Rattle.std.specs.Prelude.{◌≡◌, ◌<◌, ℕ, List, length};
ghost use Rattle.nf_graph.specs.declared.node.Node.{Node};
ghost use Rattle.nf_graph.specs.WellMade.{node_in};
ghost use Rattle.nf_wiring.specs.Places.{HasNumber, StandsWithin, place_in, port_count};
ghost use Rattle.nf_wiring.specs.Wiring.{IsWiring, count_of};
ghost use Rattle.nf_wiring.specs.declared.wiring.Wiring.{Wiring};

/// Each port of a graph has a number, each number below their count is that of a port, no two are of one port, and a wiring knows how
/// many there are.
#[tactic(auto, using(crate::proofs::Numbers::reached, crate::proofs::Numbers::stands, crate::proofs::Numbers::apart, crate::proofs::Numbers::counted))]
pub fn numbers()
    ensures each { (nodes : List Node) (i k : ℕ) → i < length nodes → k < length (node_in nodes i).ports → HasNumber nodes i k }
    ensures within { (nodes : List Node) (n : ℕ) → n < port_count nodes → StandsWithin nodes n }
    ensures apart { (nodes : List Node) (m n : ℕ) → m < port_count nodes → n < port_count nodes
        → place_in nodes m ≡ place_in nodes n → m ≡ n }
    ensures count { (nodes : List Node) (w : Wiring) → IsWiring nodes w → count_of w ≡ port_count nodes }
{}
