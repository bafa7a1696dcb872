//! `NodeRules`: what a run asks about the nodes of a plan.

ghost use Rattle.std.specs.Prelude.{◌≡◌};

use crate::body::NodeInfo;
use crate::tasks::no_process;
use nf_builtins::Natives;
use nf_job::{Job, Outputs, Report, TaskRefusal};
use nf_stored::Rules;
use nf_value::{EvalRefusal, Vals, Value};
use std::alloc::Global;

/// What the nodes of a plan answer, by their places, with the functions that the program adds (own). Past the last node stands a source.
#[derive(Clone, Copy)]
pub struct NodeRules<'a, N> {
    infos: &'a [NodeInfo],
    natives: &'a N,
}

impl<'a, N: Natives> NodeRules<'a, N> {
    /// The rules of these nodes. Takes no memory.
    pub fn new(infos: &'a [NodeInfo], natives: &'a N) -> NodeRules<'a, N>
        ensures infos { result.infos.now ≡ infos.now }
        ensures natives { result.natives.now ≡ natives.now }
    {
        NodeRules { infos, natives }
    }
}

impl<N: Natives> Rules for NodeRules<'_, N> {
    ghost use Rattle.nf_tasks.specs.Memory.{program};
    ghost use Rattle.nf_bodies.specs.Bodies.{rules_of};
    ghost use Rattle.nf_bodies.specs.Proper.{are_rules};

    ghost meaning = { λ r. rules_of (program (N.titles r.natives.now) (N.answer r.natives.now)) r.infos.now };

    ghost keeps = { λ r. N.keeps r.natives.now };

    fn gives(&self, alloc: Global, node: u32, item: &Value) -> Result<Value, EvalRefusal> {
        match self.infos.get(node as usize) {
            Some(info) => info.body.gives(alloc, item, self.natives),
            None => Ok(item.copy()?),
        }
    }

    fn job(
        &self,
        alloc: Global,
        node: u32,
        inputs: &Vals,
        n: u32,
        attempt: u32,
    ) -> Result<Job, TaskRefusal> {
        match self.infos.get(node as usize) {
            Some(info) => info.body.job(alloc, inputs, n, attempt, self.natives),
            None => Err(no_process()),
        }
    }

    fn outputs(
        &self,
        alloc: Global,
        node: u32,
        inputs: &Vals,
        attempt: u32,
        report: &Report,
    ) -> Result<Outputs, TaskRefusal> {
        match self.infos.get(node as usize) {
            Some(info) => info
                .body
                .outputs(alloc, inputs, attempt, report, self.natives),
            None => Err(no_process()),
        }
    }

    ghost proper = { λ r. are_rules (program (N.titles r.natives.now) (N.answer r.natives.now)) r.infos.now };
}
