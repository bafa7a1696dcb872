//! The rules of a small graph.

ghost use Rattle.std.specs.Prelude.{◌≡◌, ◌≤◌, IfOk, OnOk};
ghost use Rattle.nf_value.specs.Plain.{list, plains_of};
ghost use Rattle.nf_value.specs.View.{plain_of};
ghost use Rattle.nf_job.specs.Sizes.{IsFit};
ghost use Rattle.nf_stored.specs.Answers.{AnswersItem, AnswersTask};
ghost use Rattle.tests_rules.specs.Small.{small_answer, small_parts, small_job, small_outputs, status_of};

use nf_job::{
    Captured, Emitted, FileRefs, Found, Job, JobParts, Outputs, Report, TaskFault, TaskRefusal,
    Txts, inputs_code, make_job,
};
use nf_stored::{RuleBook, Rules, StoredRules};
use nf_value::{EvalFault, EvalKind, EvalRefusal, Mem, Place, Txt, Vals, Value};
use std::alloc::Global;
use std::process::Abort;
use std::test::Fail;
use std::thread::{Threads, join};

/// Node 1 gives each item back. Node 2 is a process: its first attempt is tried again, and a later one emits its status.
#[derive(Drop)]
struct Small;

impl RuleBook for Small {
    ghost use Rattle.tests_rules.specs.Small.{small_rules, small_are_rules};

    ghost told = { λ _. small_rules };

    ghost proper = { λ _. small_are_rules };
}

const NO_CLOSURE: EvalFault = EvalFault {
    kind: EvalKind::NoMethod,
    place: Place { line: 1, col: 1 },
};

fn small_answer(node: u32, item: &Value) -> Result<Value, EvalRefusal>
    ensures { AnswersItem (small_answer node (plain_of item.now)) result }
{
    match node {
        1 => Ok(item.copy()?),
        _ => Err(EvalRefusal::Fault(NO_CLOSURE)),
    }
}

fn small_parts(alloc: Global, inputs: &Vals, n: u32, attempt: u32) -> Result<JobParts, Mem>
    ensures parts { IfOk result (λ p. p ≡ small_parts inputs.now n attempt) }
    ensures fit { OnOk result (IsFit (list (plains_of inputs.now))) }
{
    Ok(JobParts {
        process: txt(alloc, "P")?,
        script: txt(alloc, "true")?,
        inputs: inputs_code(alloc, inputs)?,
        stdin: None,
        staged: FileRefs::of(Vec::new(alloc)),
        patterns: Txts::of(Vec::new(alloc)),
        wants_stdout: false,
        n,
        attempt,
    })
}

fn small_job(
    alloc: Global,
    node: u32,
    inputs: &Vals,
    n: u32,
    attempt: u32,
) -> Result<Job, TaskRefusal>
    requires first { 1 ≤ attempt }
    requires last { attempt ≤ 101 }
    ensures answer { AnswersTask (small_job node inputs.now n attempt) result }
    ensures fit { OnOk result (IsFit (list (plains_of inputs.now))) }
{
    match node {
        2 => {
            let parts = small_parts(alloc, inputs, n, attempt)?;
            Ok(make_job(alloc, parts)?)
        }
        _ => Err(TaskRefusal::Fault(TaskFault::BadStdout)),
    }
}

fn small_outputs(
    alloc: Global,
    node: u32,
    inputs: &Vals,
    attempt: u32,
    report: &Report,
) -> Result<Outputs, TaskRefusal>
    ensures { AnswersTask (small_outputs node inputs.now attempt report.now) result }
{
    match node {
        2 => Ok(status_of(alloc, attempt, report)?),
        _ => Err(TaskRefusal::Fault(TaskFault::BadStdout)),
    }
}

fn status_of(alloc: Global, attempt: u32, report: &Report) -> Result<Outputs, Mem>
    ensures { IfOk result (λ o. o ≡ status_of attempt report.now) }
{
    match attempt {
        0 | 1 => Ok(Outputs::Again),
        _ => {
            let status = Value::Int(i64::from(report.exit));
            Ok(Outputs::Emits(Emitted::of(vec![in alloc; Some(status)]?)))
        }
    }
}

fn txt(alloc: Global, text: &str) -> Result<Txt, Mem>
    ensures { IfOk result (λ t. t ≡ text.now) }
{
    Ok(Txt::of(String::from_str(alloc, text)?))
}

/// What two workers get for an item at the first two nodes.
fn ask_both<Q: Rules + Sync, R: Threads + Sync>(
    rt: &R,
    alloc: Global,
    rules: &Q,
    item: &Value,
) -> (Result<Value, EvalRefusal>, Result<Value, EvalRefusal>)
    requires { Q.keeps rules.now }
    ensures at_0 { AnswersItem ((Q.meaning rules.now).answer 0 (plain_of item.now)) result.0 }
    ensures at_1 { AnswersItem ((Q.meaning rules.now).answer 1 (plain_of item.now)) result.1 }
{
    join(
        rt,
        || -> Result<Value, EvalRefusal>
            requires { Q.keeps rules.now }
            ensures { AnswersItem ((Q.meaning rules.entry.now).answer 0 (plain_of item.entry.now)) result }
        { rules.gives(alloc, 0, item) },
        || -> Result<Value, EvalRefusal>
            requires { Q.keeps rules.now }
            ensures { AnswersItem ((Q.meaning rules.entry.now).answer 1 (plain_of item.entry.now)) result }
        { rules.gives(alloc, 1, item) },
    )
}

/// The job of the first attempt at the first task with these inputs.
fn first_job<Q: Rules>(
    alloc: Global,
    rules: &Q,
    node: u32,
    inputs: &Vals,
) -> Result<Job, TaskRefusal>
    requires { Q.keeps rules.now }
    ensures answer { AnswersTask ((Q.meaning rules.now).job node inputs.now 0 1) result }
    ensures fit { OnOk result (IsFit (list (plains_of inputs.now))) }
{
    rules.job(alloc, node, inputs, 0, 1)
}

/// What status 7 of an attempt at the process amounts to.
fn seven<Q: Rules>(alloc: Global, rules: &Q, attempt: u32) -> Result<Outputs, TaskRefusal>
    requires { Q.keeps rules.now }
{
    let inputs = Vals::of(Vec::new(alloc));
    let report = Report {
        exit: 7,
        captured: Captured::None,
        found: Found::of(Vec::new(alloc)),
    };
    rules.outputs(alloc, 2, &inputs, attempt, &report)
}

/// The one number that a task emits.
fn number(outputs: &Result<Outputs, TaskRefusal>) -> Option<i64> {
    match outputs {
        Ok(Outputs::Emits(emitted)) => match emitted.items() {
            [Some(Value::Int(number))] => Some(*number),
            _ => None,
        },
        _ => None,
    }
}

fn is_again(outputs: &Result<Outputs, TaskRefusal>) -> bool {
    matches!(outputs, Ok(Outputs::Again))
}

fn is_number(answer: &Result<Value, EvalRefusal>, number: i64) -> bool {
    match answer {
        Ok(Value::Int(given)) => *given == number,
        _ => false,
    }
}

fn is_refused(job: &Result<Job, TaskRefusal>) -> bool {
    matches!(job, Err(TaskRefusal::Fault(TaskFault::BadStdout)))
}

fn has_text(job: &Result<Job, TaskRefusal>, text: &str) -> bool {
    match job {
        Ok(job) => job.text().as_str() == text,
        Err(_) => false,
    }
}

/// The text of the job of the first attempt at the task with the input 5.
const TEXT: &str = "l10:s6:nfjob2s1:Ps4:trues6:l1:i5;nl0:l0:fi0;i1;";

fn items_are_answered<Q: Rules + Sync, R: Threads + Sync + Abort>(rt: &R, alloc: Global, rules: &Q)
    requires { Q.keeps rules.now }
{
    let (at_0, at_1) = ask_both(rt, alloc, rules, &Value::Int(5));
    assert_eq!(rt; at_0.err(), Some(EvalRefusal::Fault(NO_CLOSURE)));
    assert!(rt; is_number(&at_1, 5));
}

fn jobs_are_made<Q: Rules>(rt: &impl Abort, alloc: Global, rules: &Q) -> Result<(), Fail>
    requires { Q.keeps rules.now }
{
    let inputs = Vals::of(vec![in alloc; Value::Int(5)]?);
    assert!(rt; is_refused(&first_job(alloc, rules, 1, &inputs)));
    assert!(rt; has_text(&first_job(alloc, rules, 2, &inputs), TEXT));
    Ok(())
}

fn reports_are_judged<Q: Rules>(rt: &impl Abort, alloc: Global, rules: &Q)
    requires { Q.keeps rules.now }
{
    assert!(rt; is_again(&seven(alloc, rules, 1)));
    assert_eq!(rt; number(&seven(alloc, rules, 2)), Some(7));
}

#[test]
fn rules_by_three_closures(rt: HostRuntime) -> Result<(), Fail> {
    let rules = StoredRules::new(
        Small,
        |_alloc: Global, node: u32, item: &Value| -> Result<Value, EvalRefusal>
            ensures { AnswersItem (small_answer node (plain_of item.now)) result }
        { small_answer(node, item) },
        |alloc: Global, node: u32, inputs: &Vals, n: u32, attempt: u32| -> Result<Job, TaskRefusal>
            requires first { 1 ≤ attempt }
            requires last { attempt ≤ 101 }
            ensures answer { AnswersTask (small_job node inputs.now n attempt) result }
            ensures fit { OnOk result (IsFit (list (plains_of inputs.now))) }
        { small_job(alloc, node, inputs, n, attempt) },
        |alloc: Global, node: u32, inputs: &Vals, attempt: u32, report: &Report| -> Result<
            Outputs,
            TaskRefusal,
        >
            ensures { AnswersTask (small_outputs node inputs.now attempt report.now) result }
        { small_outputs(alloc, node, inputs, attempt, report) },
    );
    items_are_answered(&rt, rt.alloc(), &rules);
    reports_are_judged(&rt, rt.alloc(), &rules);
    jobs_are_made(&rt, rt.alloc(), &rules)
}
