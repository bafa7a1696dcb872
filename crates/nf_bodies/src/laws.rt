//! Laws of bodies, each a contract over the definitions alone.

ghost use Rattle.std.specs.Prelude.{◌≡◌, ◌∷◌, ℕ, List, None, Some};
ghost use Rattle.std.specs.Global.{Vec};
ghost use Rattle.nf_value.specs.View.{plain_of};
ghost use Rattle.nf_value.specs.declared.value.Value.{Value};
ghost use Rattle.nf_bag.specs.declared.rows.Row.{Row};
ghost use Rattle.nf_bag.specs.declared.rows.Row.TheVariants as row;
ghost use Rattle.nf_eval.specs.Evaluation.{Closing};
ghost use Rattle.nf_eval.specs.declared.closures.Closure.{Closure};
ghost use Rattle.nf_meaning.specs.Rules as graph;
ghost use Rattle.nf_tasks.specs.Memory.{Program, process_of};
ghost use Rattle.nf_tasks.specs.declared.process.ProcessSpec.{ProcessSpec};
ghost use Rattle.nf_meaning.specs.Taken.{Taken};
ghost use Rattle.nf_meaning.specs.Tasks.{CalledProcess};
ghost use Rattle.nf_bodies.specs.Bodies.{rules_of};
ghost use Rattle.nf_bodies.specs.Labels.{Label, HasLabels};
ghost use Rattle.nf_bodies.specs.Means.{AnswersAs, GivesAs, GiveLabels, HasNothing, HasTasksOf, IsApplied};
ghost use Rattle.nf_bodies.specs.declared.body.NodeBody.TheVariants as body;
ghost use Rattle.nf_bodies.specs.declared.body.NodeInfo.{NodeInfo};

use nf_tasks::laws::{attempts_end, without_a_job};

/// Nodes answer as rules of a graph have to: an attempt without a job amounts to its fault, and the 101st isn't tried again.
pub fn nodes_are_rules()
    ensures { (n : Program) → (infos : List NodeInfo) → graph.IsRules (rules_of n infos) }
{
    without_a_job();
    attempts_end();
}

/// Which body answers items as the call of an operator does, by what the call took from its arguments.
pub fn answers()
    ensures item { (n : Program) → (r : Row) → (t : Taken) → HasNothing t → AnswersAs n body.Item r t }
    ensures literal { (n : Program) → (r : Row) → (t : Taken) → (v : Value) → t.closing ≡ None → t.pattern ≡ None
        → t.literal ≡ Some (plain_of v) → AnswersAs n (body.Literal v) r t }
    ensures pattern { (n : Program) → (r : Row) → (t : Taken) → (re : List ℕ) → t.closing ≡ None → t.pattern ≡ Some re
        → AnswersAs n (body.Pattern re) r t }
{}

/// The same of bodies with closures. A closure of labels is taken apart, label by label.
pub fn closures()
    ensures applied { (n : Program) → (r : Row) → (t : Taken) → (stored : Closure) → (c : Closing) → IsApplied r
        → t.closing ≡ Some c → GivesAs n stored c → AnswersAs n (body.Applied stored) r t }
    ensures branch { (n : Program) → (t : Taken) → (stored : Vec Closure) → (c : Closing) → (first : Label)
        → (more : List Label) → t.closing ≡ Some c → HasLabels c first more
        → GiveLabels n stored.items c (first ∷ more) → AnswersAs n (body.Branch stored) row.Branch t }
    ensures multi_map { (n : Program) → (t : Taken) → (stored : Vec Closure) → (c : Closing) → (first : Label)
        → (more : List Label) → t.closing ≡ Some c → HasLabels c first more
        → GiveLabels n stored.items c (first ∷ more) → AnswersAs n (body.MultiMap stored) row.MultiMap t }
{}

/// A process in memory that is the one of a call has the tasks of that call.
pub fn tasks()
    ensures { (n : Program) → (s : ProcessSpec) → (c : CalledProcess) → process_of n s ≡ c.process
        → HasTasksOf n (body.Process s) c }
{}
