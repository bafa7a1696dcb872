//! Laws of the meaning of graphs, each a contract over the definitions alone.

ghost use Rattle.std.specs.Prelude.{◌≡◌, ◌≢◌, ◌<◌, ◌++◌, ◌∷◌, [], List, ℕ, length, true, Ok, Err, is_ok};
ghost use Rattle.nf_job.specs.declared.emitted.Outputs.TheVariants as outputs;
ghost use Rattle.nf_job.specs.declared.fault.TaskFault.{TaskFault};
ghost use Rattle.nf_job.specs.declared.report.Report.{Report};
ghost use Rattle.nf_graph.specs.Attempts.{LeadTo, ComesTo, IsUndecided};
ghost use Rattle.nf_graph.specs.Rules.{Rules};
ghost use Rattle.nf_graph.specs.Node.{PlainNode, IsGraph};
ghost use Rattle.nf_graph.specs.Meaning.{Outcomes, Instance, bags};
ghost use Rattle.nf_graph.specs.Singles.{HasSingles, IsMadeByNodes, FailsAlone};
ghost use Rattle.nf_graph.specs.WellMade.{plain_graph, IsWellMade};
ghost use Rattle.nf_graph.specs.declared.node.Node.{Node};

use nf_operator::laws::{kinds, operators};

/// Each output's bag is what its node makes of the bags of the graph.
#[tactic(auto, using(crate::proofs::Fix::made_by_nodes))]
pub fn node_by_node()
    ensures { (g : List PlainNode) → (R : Rules) → (o : Outcomes) → IsGraph g → IsMadeByNodes g R o (bags R o g) }
{}

/// Nodes that are added behind change no bag of the nodes before them.
#[tactic(auto, using(crate::proofs::Fix::earlier_stays))]
pub fn added_later()
    ensures { (g : List PlainNode) → (h : List PlainNode) → (R : Rules) → (o : Outcomes) → (i : ℕ) → i < length g
        → bags R o (g ++ h) i ≡ bags R o g i }
{}

/// At most one item comes to a value port.
#[tactic(auto, using(crate::proofs::Singles::has_singles))]
pub fn value_ports()
    ensures { (g : List PlainNode) → (R : Rules) → (o : Outcomes) → IsGraph g → HasSingles g (bags R o g) }
{}

/// An instance whose reports lead to an attempt without a job, be it the first or a later one, emits nothing and has the fault of that
/// attempt alone, whatever reports follow.
pub fn without_a_job()
    ensures first { (R : Rules) → (o : Outcomes) → (i : ℕ) → (z : Instance) → (f : TaskFault) → R.job i z.0 z.1 1 ≡ Err f
        → FailsAlone R o i z f }
    ensures later { (R : Rules) → (o : Outcomes) → (i : ℕ) → (z : Instance) → (attempt : ℕ) → (later : List Report) → (f : TaskFault)
        → LeadTo R o i z attempt later → R.job i z.0 z.1 attempt ≡ Err f → FailsAlone R o i z f }
{}

/// An instance whose reports lead to an attempt with a job is decided by the report of that attempt, unless it is tried again; and by
/// nothing as long as there is none.
pub fn with_a_job()
    ensures decided { (R : Rules) → (o : Outcomes) → (i : ℕ) → (z : Instance) → (attempt : ℕ) → (r : Report) → (later : List Report)
        → LeadTo R o i z attempt (r ∷ later) → is_ok (R.job i z.0 z.1 attempt) ≡ true → R.outputs i z.0 attempt r ≢ Ok outputs.Again
        → ComesTo R o i z (R.outputs i z.0 attempt r) }
    ensures waiting { (R : Rules) → (o : Outcomes) → (i : ℕ) → (z : Instance) → (attempt : ℕ) → LeadTo R o i z attempt []
        → is_ok (R.job i z.0 z.1 attempt) ≡ true → IsUndecided R o i z }
{}

/// A graph in memory is a graph: its rows are operators, and its value ports read value channels.
pub fn well_made()
    ensures { (nodes : List Node) → IsWellMade nodes → IsGraph (plain_graph nodes) }
{
    operators();
    kinds();
}
