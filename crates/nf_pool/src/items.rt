//! Items of one operator: taken in one holding of the lock, answered outside of it, and given back in one holding.

ghost use Rattle.std.specs.Prelude.{◌≡◌, ◌<◌, IfOk, length};
ghost use Rattle.std.specs.List.{AllByRecursion};
ghost use Rattle.nf_locked.specs.Locked.{IsItemOf};
ghost use Rattle.nf_worker.specs.Worker.{HasAnswer};

use nf_core::Fixed;
use nf_flight::Ticket;
use nf_keeper::Keeper;
use nf_lane::Lane;
use nf_locked::{Locked, Work};
use nf_stored::Rules;
use nf_value::Mem;
use nf_worker::{Answered, answers_of};
use std::alloc::Global;
use std::sync::ledger::Ledger;
use std::sync::{Mutex, Wait};

/// The most pairs of `make_room` and one method in one holding of the lock, and so the most items that a worker takes
/// at once.
pub(crate) const PAIRS: usize = 64;

/// The item that a holding took, with up to 63 more of the same operator.
///
/// # Errors
///
/// `Mem` if there is no memory for their list. What was taken stays out.
pub(crate) fn more_items<L: Lane, K: Keeper, J: Fixed, B: Ledger, F: Ledger>(
    alloc: Global,
    locked: &mut Locked<L, K, J, B, F>,
    index: usize,
    first: Ticket,
) -> Result<Vec<Ticket>, Mem>
    requires lane { index < length J.facts.lanes }
    requires first { IsItemOf J.facts first }
    ensures { IfOk result (λ v. AllByRecursion (IsItemOf J.facts) v.items) }
{
    let node = first.node();
    let mut items = Vec::new(alloc);
    items.push(first)?;
    for _ in 1..PAIRS {
        let Work::Item { ticket } = locked.step_at(index, node) else {
            return Ok(items);
        };
        items.push(ticket)?;
    }
    Ok(items)
}

/// Answers items outside of the lock, and gives the answers back in one holding. Without the memory for that the run is
/// stopped.
pub(crate) fn answer_items<L, K, J, B, F, R, T>(
    rt: &T,
    alloc: Global,
    lock: &Mutex<Locked<L, K, J, B, F>>,
    rules: &R,
    index: usize,
    items: Vec<Ticket>,
)
where
    L: Lane,
    K: Keeper,
    J: Fixed,
    B: Ledger,
    F: Ledger,
    R: Rules,
    T: Wait,
    requires lane { index < length J.facts.lanes }
    requires rules { R.meaning rules.now ≡ J.facts.rules }
    requires keeps { R.keeps rules.now }
    requires items { AllByRecursion (IsItemOf J.facts) items.items }
{
    let answered = answers_of::<J, R>(alloc, rules, items);
    let mut guard = lock.lock(rt);
    let locked = &mut *guard;
    match answered {
        Ok(answered) => give_all(locked, index, rules, answered),
        Err(Mem) => locked.halt(),
    }
}

// Gives answers back.
fn give_all<L: Lane, K: Keeper, J: Fixed, B: Ledger, F: Ledger, R: Rules>(
    locked: &mut Locked<L, K, J, B, F>,
    index: usize,
    rules: &R,
    answered: Vec<Answered>,
)
    requires lane { index < length J.facts.lanes }
    requires rules { R.meaning rules.now ≡ J.facts.rules }
    requires answered { AllByRecursion (HasAnswer J.facts) answered.items }
{
    for one in answered {
        give_one(locked, index, rules, one);
    }
}

// Gives an answer back.
fn give_one<L: Lane, K: Keeper, J: Fixed, B: Ledger, F: Ledger, R: Rules>(
    locked: &mut Locked<L, K, J, B, F>,
    index: usize,
    rules: &R,
    one: Answered,
)
    requires lane { index < length J.facts.lanes }
    requires rules { R.meaning rules.now ≡ J.facts.rules }
    requires answered { HasAnswer J.facts one }
{
    let Answered { ticket, answer } = one;
    locked.give(index, rules, &ticket, answer);
}
