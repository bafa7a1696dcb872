//! A small graph and its rules.

ghost use Rattle.std.specs.Prelude.{◌≡◌, ◌≤◌, IfOk, OnOk};
ghost use Rattle.nf_value.specs.Plain.{list, plains_of};
ghost use Rattle.nf_job.specs.Sizes.{IsFit};
ghost use Rattle.nf_stored.specs.Answers.{AnswersTask};
ghost use Rattle.tests_core.specs.Tried.{source_node, task_node, tried_job, tried_nodes, tried_outputs, tried_parts, view_node};

use nf_bag::{OpOpts, Row, Total};
use nf_graph::{Graph, Node, NodeKind, Port, Ports};
use nf_job::{
    Emitted, FileRefs, Job, JobParts, Outputs, Report, TaskFault, TaskRefusal, Txts, inputs_code,
    make_job,
};
use nf_stored::Rules;
use nf_value::{EvalRefusal, Mem, Txt, Vals, Value};
use std::alloc::Global;

fn source(alloc: Global) -> Result<Node, Mem>
    ensures { IfOk result (λ n. n ≡ source_node) }
{
    Ok(Node {
        kind: NodeKind::Source {
            items: Vals::of(vec![in alloc; Value::Int(7)]?),
        },
        ports: Ports::of(Vec::new(alloc)),
        outs: 1,
    })
}

/// The operator `view`, which reads node 0.
fn view(alloc: Global) -> Result<Node, Mem>
    ensures { IfOk result (λ n. n ≡ view_node) }
{
    let mut ports = Vec::new(alloc);
    ports.push(Port {
        from: 0,
        out: 0,
        value: false,
    })?;
    Ok(Node {
        kind: NodeKind::Op {
            row: Row::View,
            opts: OpOpts {
                by: None,
                remainder: false,
                sort: false,
                flat: false,
                start: None,
                total: Total::Sum,
                outs: 0,
            },
        },
        ports: Ports::of(ports),
        outs: 1,
    })
}

/// A process without inputs.
fn task(alloc: Global) -> Node
    ensures { result ≡ task_node }
{
    Node {
        kind: NodeKind::Process { queue: None },
        ports: Ports::of(Vec::new(alloc)),
        outs: 1,
    }
}

pub(crate) fn graph(alloc: Global) -> Result<Graph, Mem>
    ensures { IfOk result (λ g. g ≡ tried_nodes) }
{
    Ok(Graph::new(vec![in alloc; source(alloc)?, view(alloc)?, task(alloc)]?))
}

/// The rules of the graph.
#[derive(Drop)]
pub(crate) struct Tried;

impl Rules for Tried {
    ghost use Rattle.tests_core.specs.Tried.{tried_rules, tried_are_rules};

    ghost meaning = { λ r. tried_rules };

    ghost keeps = { λ r. Unit {0} };

    fn gives(&self, _alloc: Global, _node: u32, _item: &Value) -> Result<Value, EvalRefusal> {
        Ok(Value::Null)
    }

    fn job(
        &self,
        alloc: Global,
        node: u32,
        inputs: &Vals,
        n: u32,
        attempt: u32,
    ) -> Result<Job, TaskRefusal> {
        tried_job(alloc, node, inputs, n, attempt)
    }

    fn outputs(
        &self,
        alloc: Global,
        node: u32,
        _inputs: &Vals,
        attempt: u32,
        _report: &Report,
    ) -> Result<Outputs, TaskRefusal> {
        tried_outputs(alloc, node, attempt)
    }

    ghost proper = { λ r. tried_are_rules };
}

fn tried_parts(alloc: Global, inputs: &Vals, n: u32, attempt: u32) -> Result<JobParts, Mem>
    ensures parts { IfOk result (λ p. p ≡ tried_parts inputs.now n attempt) }
    ensures fit { OnOk result (IsFit (list (plains_of inputs.now))) }
{
    Ok(JobParts {
        process: txt(alloc, "P")?,
        script: txt(alloc, "true")?,
        inputs: inputs_code(alloc, inputs)?,
        stdin: None,
        staged: FileRefs::of(Vec::new(alloc)),
        patterns: Txts::of(Vec::new(alloc)),
        wants_stdout: false,
        n,
        attempt,
    })
}

fn tried_job(
    alloc: Global,
    node: u32,
    inputs: &Vals,
    n: u32,
    attempt: u32,
) -> Result<Job, TaskRefusal>
    requires first { 1 ≤ attempt }
    requires last { attempt ≤ 101 }
    ensures answer { AnswersTask (tried_job node inputs.now n attempt) result }
    ensures fit { OnOk result (IsFit (list (plains_of inputs.now))) }
{
    match node {
        2 => {
            let parts = tried_parts(alloc, inputs, n, attempt)?;
            Ok(make_job(alloc, parts)?)
        }
        _ => Err(TaskRefusal::Fault(TaskFault::BadStdout)),
    }
}

fn tried_outputs(alloc: Global, node: u32, attempt: u32) -> Result<Outputs, TaskRefusal>
    ensures { (inputs : _) → (report : _) → AnswersTask (tried_outputs node inputs attempt report) result }
{
    match (node, attempt) {
        (2, 0 | 1) => Ok(Outputs::Again),
        (2, _) => Ok(Outputs::Emits(Emitted::of(vec![in alloc; Some(Value::Null)]?))),
        _ => Err(TaskRefusal::Fault(TaskFault::BadStdout)),
    }
}

fn txt(alloc: Global, text: &str) -> Result<Txt, Mem>
    ensures { IfOk result (λ t. t ≡ text.now) }
{
    Ok(Txt::of(String::from_str(alloc, text)?))
}
