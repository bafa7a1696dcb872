//! Laws of what a run printed, each a contract over the definitions alone.

ghost use Rattle.std.specs.Prelude.{◌≡◌, ℕ, List, true};
ghost use Rattle.nf_bag.specs.Bag.{IsSameBag};
ghost use Rattle.nf_graph.specs.Meaning.{Outcomes, printed};
ghost use Rattle.nf_graph.specs.Node.{IsGraph, PlainNode, node_at, operator};
ghost use Rattle.nf_graph.specs.Rules.{Rules};
ghost use Rattle.nf_machine.specs.Event.{PlainEvent};
ghost use Rattle.nf_machine.specs.History.{Agrees, IsHistory, after, ended_well};
ghost use Rattle.nf_opstream.specs.Operator.{Operator};
ghost use Rattle.nf_shown.specs.Shown.{printed_in};

/// A run that ended well printed at each of its operators what its graph means, whatever the order of its events: the same
/// bag, under all outcomes that agree with its history.
pub fn printed_as_meant()
    ensures { (g : List PlainNode) (R : Rules) (o : Outcomes) (h : List PlainEvent) (i : ℕ) (op : Operator)
        → IsGraph g → IsHistory g R h → Agrees o (after g h) → ended_well g (after g h) ≡ true
        → (node_at g i).kind ≡ operator op → IsSameBag (printed_in g h i) (printed R o g i) }
{}
