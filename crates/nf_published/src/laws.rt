//! Laws of what a run published, each a contract over the definitions alone.

ghost use Rattle.std.specs.Prelude.{◌≡◌, List, true};
ghost use Rattle.nf_bag.specs.Tests.{IsSameByTests};
ghost use Rattle.nf_graph.specs.Node.{IsGraph};
ghost use Rattle.nf_machine.specs.Event.{PlainEvent};
ghost use Rattle.nf_machine.specs.History.{Agrees, IsHistory, after, ended_well};
ghost use Rattle.nf_plan.specs.declared.builder.PlanBuilder.{PlanBuilder};
ghost use Rattle.nf_plan.specs.Plans.{graph_of};
ghost use Rattle.nf_plan.specs.Runs.{Run};
ghost use Rattle.nf_plan.specs.Whole.{graph_meaning};
ghost use Rattle.nf_published.specs.Published.{published_in, publishing_of};

/// A run that ended well published the files that its plan's graph means, each as often, whatever the order of its events
/// and under all outcomes that agree with its history.
pub fn published_as_meant()
    ensures { (x : Run) (b : PlanBuilder) (h : List PlainEvent)
        → IsGraph (graph_of b) → IsHistory (graph_of b) x.rules h → Agrees x.outcomes (after (graph_of b) h)
        → ended_well (graph_of b) (after (graph_of b) h) ≡ true
        → IsSameByTests (published_in (publishing_of x.program b.infos.items) (graph_of b) h)
        (graph_meaning x b).targets }
{}
