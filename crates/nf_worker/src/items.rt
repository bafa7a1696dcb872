//! `answers_of`: the rules' answers for items of operators.

ghost use Rattle.std.specs.Prelude.{◌≡◌, IfOk, Result, map};
ghost use Rattle.std.specs.List.{AllByRecursion};
ghost use Rattle.nf_locked.specs.Locked.{AnswersIt, IsItemOf};
ghost use Rattle.nf_machine.specs.Event.{answer_of};
ghost use Rattle.nf_stored.specs.Answers.{AnswersItem};
ghost use Rattle.nf_value.specs.Plain.{Plain};
ghost use Rattle.nf_value.specs.declared.fault.EvalFault.{EvalFault};
ghost use Rattle.nf_worker.specs.Worker.{HasAnswer, ticket_of};

use nf_core::Fixed;
use nf_flight::Ticket;
use nf_stored::Rules;
use nf_value::{EvalFault, EvalRefusal, Mem, Value};
use std::alloc::Global;

/// An operator's ticket with the rules' answer for its item (own).
#[derive(Drop)]
pub struct Answered {
    /// The copy of the ticket that is out.
    pub ticket: Ticket,
    /// The answer: a value, or the fault of the closure.
    pub answer: Result<Value, EvalFault>,
}

/// The rules' answers for the items of operators' tickets, in their order (own). Each closure is evaluated once for each item.
///
/// # Errors
///
/// `Mem` if there is no memory for one of the answers or for their list.
pub fn answers_of<J: Fixed, R: Rules>(
    alloc: Global,
    rules: &R,
    items: Vec<Ticket>,
) -> Result<Vec<Answered>, Mem>
    requires rules { R.meaning rules.now ≡ J.facts.rules }
    requires keeps { R.keeps rules.now }
    requires items { AllByRecursion (IsItemOf J.facts) items.items }
    ensures tickets { IfOk result (λ v. map ticket_of v.items ≡ items.items) }
    ensures answers { IfOk result (λ v. AllByRecursion (HasAnswer J.facts) v.items) }
{
    let mut answered = Vec::new(alloc);
    for ticket in items {
        let answer = answer_to::<J, R>(alloc, rules, &ticket)?;
        answered.push(Answered { ticket, answer })?;
    }
    Ok(answered)
}

// The rules' answer for the one item of an operator's ticket.
//
// Errors: `Mem` if there is no memory for it.
fn answer_to<J: Fixed, R: Rules>(
    alloc: Global,
    rules: &R,
    ticket: &Ticket,
) -> Result<Result<Value, EvalFault>, Mem>
    requires rules { R.meaning rules.now ≡ J.facts.rules }
    requires keeps { R.keeps rules.now }
    requires item { IsItemOf J.facts ticket.now }
    ensures { IfOk result (AnswersIt J.facts ticket.now) }
{
    let items = ticket.inputs().items();
    settled(rules.gives(alloc, ticket.node(), &items[0]))
}

// The answer without its want of memory.
fn settled(answer: Result<Value, EvalRefusal>) -> Result<Result<Value, EvalFault>, Mem>
    ensures { (due : Result Plain EvalFault) → AnswersItem due answer → IfOk result (λ a. answer_of a ≡ due) }
{
    match answer {
        Ok(value) => Ok(Ok(value)),
        Err(EvalRefusal::Fault(fault)) => Ok(Err(fault)),
        Err(EvalRefusal::Mem) => Err(Mem),
    }
}
