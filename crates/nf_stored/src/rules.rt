//! `Rules`: what a run asks about the nodes of its graph.

ghost use Rattle.std.specs.Prelude.{◌≡◌, ◌≤◌, OnOk};
ghost use Rattle.nf_value.specs.Plain.{list, plains_of};
ghost use Rattle.nf_value.specs.View.{plain_of};
ghost use Rattle.nf_job.specs.Sizes.{IsFit};
ghost use Rattle.nf_stored.specs.Answers.{AnswersItem, AnswersTask};

use nf_job::{Job, Outputs, Report, TaskRefusal};
use nf_value::{EvalRefusal, Vals, Value};
use std::alloc::Global;

/// What a run asks about the nodes of its graph, by their places in it (own). The answers depend on the rules and the arguments alone,
/// so any number of workers may ask the same rules at once.
pub trait Rules {
    ghost use Rattle.nf_graph.specs.Rules as graph;

    /// The answers as functions.
    ghost meaning: { Self → graph.Rules };

    /// What has to hold of the rules for them to answer so.
    ghost keeps: { Self → Type 0 };

    /// The answer of an operator's closure to an item.
    ///
    /// # Errors
    ///
    /// `Fault` exactly if the closure fails on the item, with its fault; `Mem` instead of any answer if there is no memory.
    fn gives(&self, alloc: Global, node: u32, item: &Value) -> Result<Value, EvalRefusal>
        requires { keeps self.now }
        ensures { AnswersItem ((meaning self.now).answer node (plain_of item.now)) result };

    /// The job of an attempt at a task of a process. `n` is how many tasks of the process with equal inputs come before it, from 0;
    /// `attempt` is from 1 to 101. The numbers, lengths and counts in the inputs of a task that has a job fit 64 bits.
    ///
    /// # Errors
    ///
    /// `Fault` exactly if the attempt has no job, with the reason; `Mem` instead of any answer if there is no memory.
    fn job(
        &self,
        alloc: Global,
        node: u32,
        inputs: &Vals,
        n: u32,
        attempt: u32,
    ) -> Result<Job, TaskRefusal>
        requires kept { keeps self.now }
        requires first { 1 ≤ attempt }
        requires last { attempt ≤ 101 }
        ensures answer { AnswersTask ((meaning self.now).job node inputs.now n attempt) result }
        ensures fit { OnOk result (IsFit (list (plains_of inputs.now))) };

    /// What the report of an attempt at a task amounts to.
    ///
    /// # Errors
    ///
    /// `Fault` exactly if the attempt has no job, with the same reason; `Mem` instead of any answer if there is no memory.
    fn outputs(
        &self,
        alloc: Global,
        node: u32,
        inputs: &Vals,
        attempt: u32,
        report: &Report,
    ) -> Result<Outputs, TaskRefusal>
        requires { keeps self.now }
        ensures { AnswersTask ((meaning self.now).outputs node inputs.now attempt report.now) result };

    /// Where an attempt has no job, each report of it is refused by the same fault; and the last attempt isn't tried again.
    ghost proper: { (rules : Self) → graph.IsRules (meaning rules) };
}
