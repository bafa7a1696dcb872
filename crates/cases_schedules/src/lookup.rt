//! What the lines of a row's rules tell of a node.

ghost use Rattle.std.specs.Prelude.{◌≡◌, IfOk};
ghost use Rattle.nf_value.specs.View.{plain_of};
ghost use Rattle.nf_graph.specs.Meaning.{same_inputs};
ghost use Rattle.nf_machine.specs.Event.{answer_of};
ghost use Rattle.nf_stored.specs.Answers.{AnswersItem};
ghost use Rattle.cases_schedules.specs.Table.{answer_in, ended_by, failed_by, is_answer, is_refusal, is_told, printed_by, refusal_in, strategy_in, values_in};

use crate::rules::{Answer, Handling, Refused, Strategy, TableRules, Told};
use nf_job::{Captured, Emitted, Outputs, Report, TaskFault};
use nf_value::{EvalFault, EvalRefusal, Mem, Txt, Vals, Value};
use std::alloc::Global;

/// The answer of a node's closure to an item: the item itself where no line tells another.
pub(crate) fn answer_to(answers: &[Answer], node: u32, item: &Value) -> Result<Value, EvalRefusal>
    ensures { AnswersItem (answer_in node (plain_of item.now) answers.now) result }
{
    for answer in answers {
        if is_answer(answer, node, item) {
            return copied(&answer.answer);
        }
    }
    Ok(item.copy()?)
}

fn is_answer(answer: &Answer, node: u32, item: &Value) -> bool
    ensures { result ≡ is_answer node (plain_of item.now) answer.now }
{
    let is_item = answer.item == *item;
    answer.node == node && is_item
}

fn copied(answer: &Result<Value, EvalFault>) -> Result<Value, EvalRefusal>
    ensures { AnswersItem (answer_of answer.now) result }
{
    match answer {
        Ok(value) => Ok(value.copy()?),
        Err(fault) => Err(EvalRefusal::Fault(*fault)),
    }
}

/// The fault that an attempt has in place of a job, if it has one.
pub(crate) fn refusal_of(
    refused: &[Refused],
    node: u32,
    inputs: &Vals,
    attempt: u32,
) -> Option<EvalFault>
    ensures { result ≡ refusal_in node inputs.now attempt refused.now }
{
    for refusal in refused {
        if is_refusal(refusal, node, inputs, attempt) {
            return Some(refusal.fault);
        }
    }
    None
}

fn is_refusal(refusal: &Refused, node: u32, inputs: &Vals, attempt: u32) -> bool
    ensures { result ≡ is_refusal node inputs.now attempt refusal.now }
{
    let are_inputs = are_same(&refusal.inputs, inputs);
    refusal.node == node && (refusal.attempt == attempt && are_inputs)
}

fn are_same(inputs: &Vals, others: &Vals) -> bool
    ensures { result ≡ same_inputs inputs.now others.now }
{
    inputs.items() == others.items()
}

/// What the report of an attempt comes to.
pub(crate) fn outputs_of(
    alloc: Global,
    rules: &TableRules,
    node: u32,
    attempt: u32,
    report: &Report,
) -> Result<Outputs, Mem>
    ensures { IfOk result (λ o. o ≡ ended_by rules.now node attempt report.now.exit report.now.captured) }
{
    if report.exit != 0 {
        let status = report.exit;
        let strategy = strategy_of(rules.strategies.as_slice(), node);
        return Ok(failed(strategy, attempt, TaskFault::Exit { status }));
    }
    printed(alloc, rules, node, attempt, &report.captured)
}

/// What an attempt that printed this comes to.
fn printed(
    alloc: Global,
    rules: &TableRules,
    node: u32,
    attempt: u32,
    captured: &Captured,
) -> Result<Outputs, Mem>
    ensures { IfOk result (λ o. o ≡ printed_by rules.now node attempt captured.now) }
{
    let strategy = strategy_of(rules.strategies.as_slice(), node);
    match captured {
        Captured::Text(text) => {
            let values = values_of(alloc, rules.outputs.as_slice(), node, text)?;
            Ok(Outputs::Emits(values))
        }
        Captured::None => Ok(failed(strategy, attempt, TaskFault::BadStdout)),
        Captured::Bad => Ok(failed(strategy, attempt, TaskFault::BadStdout)),
    }
}

/// What becomes of a failed attempt.
fn failed(strategy: Strategy, attempt: u32, fault: TaskFault) -> Outputs
    ensures { result ≡ failed_by strategy attempt fault }
{
    match strategy {
        Strategy::Terminate => Outputs::Failed(fault),
        Strategy::Ignore => Outputs::Ignored,
        Strategy::Retry(times) => {
            if attempt <= 100 && attempt <= times {
                Outputs::Again
            } else {
                Outputs::Failed(fault)
            }
        }
    }
}

fn strategy_of(strategies: &[Handling], node: u32) -> Strategy
    ensures { result ≡ strategy_in node strategies.now }
{
    for handling in strategies {
        if handling.node == node {
            return handling.strategy;
        }
    }
    Strategy::Terminate
}

/// What a process emits for this standard output.
fn values_of(alloc: Global, outputs: &[Told], node: u32, text: &Txt) -> Result<Emitted, Mem>
    ensures { IfOk result (λ e. e ≡ values_in node text.now outputs.now) }
{
    for told in outputs {
        if is_told(told, node, text) {
            return told.values.copy();
        }
    }
    let value = Value::Text(text.copy()?);
    Ok(Emitted::of(vec![in alloc; Some(value)]?))
}

fn is_told(told: &Told, node: u32, text: &Txt) -> bool
    ensures { result ≡ is_told node text.now told.now }
{
    let is_text = told.text.as_str() == text.as_str();
    told.node == node && is_text
}
