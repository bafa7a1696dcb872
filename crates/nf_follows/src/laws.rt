//! Laws of plans that grow, each a contract over the definitions alone.

ghost use Rattle.std.specs.Prelude.{◌≡◌, ◌<◌, ◌≤◌, ℕ, length};
ghost use Rattle.nf_graph.specs.declared.node.Node.{Node};
ghost use Rattle.nf_plan.specs.NodeInfo.{NodeInfo};
ghost use Rattle.nf_meaning.specs.Stands.{PortThing, ThingStands};
ghost use Rattle.nf_meaning.specs.Things.{Thing};
ghost use Rattle.nf_plan.specs.declared.builder.PlanBuilder.{PlanBuilder};
ghost use Rattle.nf_plan.specs.Counts.{Grows};
ghost use Rattle.nf_plan.specs.Plans.{Adds, HasRoom};
ghost use Rattle.nf_plan.specs.Runs.{Run, RunsNodes, bags_of};
ghost use Rattle.nf_follows.specs.Extends.{Extends};
ghost use Rattle.nf_follows.specs.Rooms.{KeepsRoom};
ghost use Rattle.nf_follows.specs.Things.{ThingReads};

use nf_graph::laws::added_later;

/// A plan with a node more is one to which nodes were added behind, and so is one to which more were added then. The
/// rules and outcomes of its run are those of its first nodes, and the bags of these stay.
pub fn plans_extend()
    ensures same { (b : PlanBuilder) → Extends b b }
    ensures one { (old : PlanBuilder) → (new : PlanBuilder) → (node : Node) → (info : NodeInfo) → Adds old new node info
        → Extends old new }
    ensures again { (one : PlanBuilder) → (two : PlanBuilder) → (three : PlanBuilder) → Extends one two
        → Extends two three → Extends one three }
    ensures runs { (x : Run) → (old : PlanBuilder) → (new : PlanBuilder) → Extends old new
        → RunsNodes x new.infos.items → RunsNodes x old.infos.items }
    ensures bags { (x : Run) → (old : PlanBuilder) → (new : PlanBuilder) → Extends old new → (i : ℕ)
        → i < length old.nodes.items → bags_of x new i ≡ bags_of x old i }
{
    added_later();
}

/// What a name stands for where a plan is made reads the plan, and stands for the same value, channel or outputs,
/// after nodes are added behind.
pub fn things_last()
    ensures reads { (old : PlanBuilder) → (new : PlanBuilder) → Extends old new → (t : PortThing) → ThingReads old t
        → ThingReads new t }
    ensures stands { (x : Run) → (old : PlanBuilder) → (new : PlanBuilder) → Extends old new → (t : PortThing) →
        (y : Thing)
        → ThingReads old t → ThingStands (bags_of x old) t y → ThingStands (bags_of x new) t y }
{
    added_later();
}

/// A call that is counted keeps its room while its arguments are gone through, each of which may be calls that are
/// counted and added. With its own node then, no more was added than was counted.
pub fn rooms_last()
    ensures same { (b : PlanBuilder) → KeepsRoom b b }
    ensures again { (one : PlanBuilder) → (two : PlanBuilder) → (three : PlanBuilder) → KeepsRoom one two
        → KeepsRoom two three → KeepsRoom one three }
    ensures counted { (old : PlanBuilder) → (ports : ℕ) → (new : PlanBuilder) → Grows old ports new → KeepsRoom old new }
    ensures room { (old : PlanBuilder) → (new : PlanBuilder) → (ports : ℕ) → KeepsRoom old new → HasRoom old ports
        → HasRoom new ports }
    ensures call { (old : PlanBuilder) → (counted : PlanBuilder) → (ports : ℕ) → (before : PlanBuilder)
        → (new : PlanBuilder) → (node : Node) → (info : NodeInfo) → Grows old ports counted → KeepsRoom counted before
        → Adds before new node info → length node.ports ≤ ports → KeepsRoom old new }
{}
