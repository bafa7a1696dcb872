//! `TableRules`: the rules of a row. They tell what closures answer, which attempts have no job, and what reports come to.

use crate::lookup::{answer_to, outputs_of, refusal_of};
use nf_flight::Ticket;
use nf_job::{Emitted, Job, Outputs, Report, TaskFault, TaskRefusal};
use nf_steps::echo_job;
use nf_stored::Rules;
use nf_value::{EvalFault, EvalRefusal, Txt, Vals, Value};
use std::alloc::Global;

/// What becomes of a process that fails (Nextflow reference documentation, "Process directives: errorStrategy").
#[derive(Debug, Clone, Copy, PartialEq, Eq, Drop)]
pub(crate) enum Strategy {
    /// It ends the run.
    Terminate,
    /// The run goes on without it.
    Ignore,
    /// It is tried again so many times.
    Retry(u32),
}

/// What an operator's closure answers to an item.
#[derive(Drop)]
pub(crate) struct Answer {
    pub(crate) node: u32,
    pub(crate) item: Value,
    pub(crate) answer: Result<Value, EvalFault>,
}

/// The strategy of a process.
#[derive(Drop)]
pub(crate) struct Handling {
    pub(crate) node: u32,
    pub(crate) strategy: Strategy,
}

/// What a process emits for a standard output.
#[derive(Drop)]
pub(crate) struct Told {
    pub(crate) node: u32,
    pub(crate) text: Txt,
    pub(crate) values: Emitted,
}

/// An attempt that has a fault in place of a job.
#[derive(Drop)]
pub(crate) struct Refused {
    pub(crate) node: u32,
    pub(crate) inputs: Vals,
    pub(crate) attempt: u32,
    pub(crate) fault: EvalFault,
}

/// The rules of all nodes.
#[derive(Drop)]
pub(crate) struct TableRules {
    pub(crate) answers: Vec<Answer>,
    pub(crate) strategies: Vec<Handling>,
    pub(crate) outputs: Vec<Told>,
    pub(crate) refused: Vec<Refused>,
}

impl TableRules {
    /// No rules.
    pub(crate) fn new(alloc: Global) -> TableRules {
        TableRules {
            answers: Vec::new(alloc),
            strategies: Vec::new(alloc),
            outputs: Vec::new(alloc),
            refused: Vec::new(alloc),
        }
    }

    /// Whether the ticket's attempt has a job.
    pub(crate) fn has_job(&self, ticket: &Ticket) -> bool {
        let refused = self.refused.as_slice();
        refusal_of(refused, ticket.node(), ticket.inputs(), ticket.attempt()).is_none()
    }
}

impl Rules for TableRules {
    ghost use Rattle.cases_schedules.specs.Table.{table_are_rules, table_rules};

    ghost meaning = { λ t. table_rules t };

    ghost keeps = { λ t. Unit {0} };

    fn gives(&self, _alloc: Global, node: u32, item: &Value) -> Result<Value, EvalRefusal> {
        answer_to(self.answers.as_slice(), node, item)
    }

    fn job(
        &self,
        alloc: Global,
        node: u32,
        inputs: &Vals,
        n: u32,
        attempt: u32,
    ) -> Result<Job, TaskRefusal> {
        match refusal_of(self.refused.as_slice(), node, inputs, attempt) {
            Some(fault) => Err(TaskRefusal::Fault(TaskFault::Eval(fault))),
            None => Ok(echo_job(alloc, inputs, n, attempt)?),
        }
    }

    fn outputs(
        &self,
        alloc: Global,
        node: u32,
        inputs: &Vals,
        attempt: u32,
        report: &Report,
    ) -> Result<Outputs, TaskRefusal> {
        match refusal_of(self.refused.as_slice(), node, inputs, attempt) {
            Some(fault) => Err(TaskRefusal::Fault(TaskFault::Eval(fault))),
            None => Ok(outputs_of(alloc, self, node, attempt, report)?),
        }
    }

    ghost proper = { λ t. table_are_rules t };
}
