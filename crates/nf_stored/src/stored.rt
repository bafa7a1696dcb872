//! `StoredRules`: rules by three closures.

ghost use Rattle.std.specs.Prelude.{◌≡◌};

use crate::book::RuleBook;
use crate::rules::Rules;
use nf_job::{Job, Outputs, Report, TaskRefusal};
use nf_value::{EvalRefusal, Vals, Value};
use std::alloc::Global;

/// Rules by three closures. `book` says what they answer; that the closures answer so has to hold where they are called.
#[derive(Drop)]
pub struct StoredRules<B, F, G, H> {
    book: B,
    gives: F,
    job: G,
    outputs: H,
}

impl<B, F, G, H> StoredRules<B, F, G, H>
where
    B: RuleBook,
    F: Fn(Global, u32, &Value) -> Result<Value, EvalRefusal>,
    G: Fn(Global, u32, &Vals, u32, u32) -> Result<Job, TaskRefusal>,
    H: Fn(Global, u32, &Vals, u32, &Report) -> Result<Outputs, TaskRefusal>,
{
    /// The rules with the answers of the book, by these closures. Takes no memory.
    pub fn new(book: B, gives: F, job: G, outputs: H) -> StoredRules<B, F, G, H>
        ensures book { result.book ≡ book }
        ensures gives { result.gives ≡ gives }
        ensures job { result.job ≡ job }
        ensures outputs { result.outputs ≡ outputs }
    {
        StoredRules {
            book,
            gives,
            job,
            outputs,
        }
    }
}

impl<B, F, G, H> Rules for StoredRules<B, F, G, H>
where
    B: RuleBook,
    F: Fn(Global, u32, &Value) -> Result<Value, EvalRefusal>,
    G: Fn(Global, u32, &Vals, u32, u32) -> Result<Job, TaskRefusal>,
    H: Fn(Global, u32, &Vals, u32, &Report) -> Result<Outputs, TaskRefusal>,
{
    ghost use Rattle.std.specs.Prelude.{ℕ, ◌≤◌, OnOk};
    ghost use Rattle.nf_value.specs.Plain.{list, plains_of};
    ghost use Rattle.nf_value.specs.View.{plain_of};
    ghost use Rattle.nf_job.specs.Sizes.{IsFit};
    ghost use Rattle.nf_stored.specs.Answers.{AnswersItem, AnswersTask};

    ghost meaning = { λ s. B.told s.book };

    ghost keeps = { λ s.
        F.IsAlwaysCallable s.gives
        × ((alloc : _) (node : ℕ) (item : _) (r : _) → F.post s.gives alloc node item r
        → AnswersItem ((B.told s.book).answer node (plain_of item.now)) r)
        × ((alloc : _) (node : ℕ) (inputs : _) (n attempt : ℕ) → 1 ≤ attempt → attempt ≤ 101
        → G.pre s.job alloc node inputs n attempt)
        × ((alloc : _) (node : ℕ) (inputs : _) (n attempt : ℕ) (r : _) → 1 ≤ attempt → attempt ≤ 101
        → G.post s.job alloc node inputs n attempt r
        → AnswersTask ((B.told s.book).job node inputs.now n attempt) r × OnOk r (IsFit (list (plains_of inputs.now))))
        × H.IsAlwaysCallable s.outputs
        × ((alloc : _) (node : ℕ) (inputs : _) (attempt : ℕ) (report : _) (r : _) → H.post s.outputs alloc node inputs attempt report r
        → AnswersTask ((B.told s.book).outputs node inputs.now attempt report.now) r) };

    fn gives(&self, alloc: Global, node: u32, item: &Value) -> Result<Value, EvalRefusal> {
        (self.gives)(alloc, node, item)
    }

    fn job(
        &self,
        alloc: Global,
        node: u32,
        inputs: &Vals,
        n: u32,
        attempt: u32,
    ) -> Result<Job, TaskRefusal> {
        (self.job)(alloc, node, inputs, n, attempt)
    }

    fn outputs(
        &self,
        alloc: Global,
        node: u32,
        inputs: &Vals,
        attempt: u32,
        report: &Report,
    ) -> Result<Outputs, TaskRefusal> {
        (self.outputs)(alloc, node, inputs, attempt, report)
    }

    ghost proper = { λ s. B.proper s.book };
}
