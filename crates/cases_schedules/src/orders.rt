//! The orders in which a row is run.

ghost use Rattle.std.specs.Prelude.{OnOk};
ghost use Rattle.cases_schedules.specs.Held.{IsSound};
ghost use Rattle.cases_schedules.specs.Table.{table_rules};

use crate::cases::{Case, Orders};
use crate::choices::choices;
use crate::machine::Machine;
use crate::report::report;
use crate::steps::{opened, refuse, step};
use anyhow::{Result, bail};
use std::alloc::Global;

/// How many orders `all` may have.
const MOST_ORDERS: usize = 20_000;

/// How many orders `seeded` has.
const SEEDS: u64 = 1_000;

/// How many orders `refused` has.
const REFUSED_SEEDS: u64 = 20;

/// How many steps a run may have.
const MOST_STEPS: usize = 10_000;

/// One of the choices at a step: its place among them, and their number.
#[derive(Debug, Clone, Copy, PartialEq, Eq, Drop)]
struct Turn {
    place: usize,
    count: usize,
}

/// What chooses the next step.
#[derive(Drop)]
enum Chooser {
    /// The turns of an order, and how many were taken. Past the last the first choice is taken, and becomes a turn.
    Turns(Vec<Turn>, usize),
    /// The latest number of a row of random numbers.
    Random(u64),
    /// The same, and how many steps are taken before one is refused its memory.
    Refusing(u64, usize),
}

/// Each distinct report of a row, in order.
pub(crate) fn reports(alloc: Global, case: &Case) -> Result<Vec<String>> {
    let mut found = match case.orders {
        Orders::All => of_all(alloc, case)?,
        Orders::Seeded => of_seeds(alloc, case)?,
        Orders::Refused => of_refused(alloc, case)?,
    };
    found.sort()?;
    Ok(found)
}

/// The reports of all orders: each order changes the latest choice that can be changed of the one before.
fn of_all(alloc: Global, case: &Case) -> Result<Vec<String>> {
    let mut found = Vec::new(alloc);
    let mut turns = Vec::new(alloc);
    for _ in 0..MOST_ORDERS {
        let mut chooser = Chooser::Turns(turns, 0);
        add(&mut found, run(alloc, case, &mut chooser)?)?;
        turns = match chooser {
            Chooser::Turns(turns, _) => turns,
            Chooser::Random(_) | Chooser::Refusing(_, _) => bail!("no turns"),
        };
        if !turn_on(&mut turns) {
            return Ok(found);
        }
    }
    bail!("more than {MOST_ORDERS} orders")
}

fn of_seeds(alloc: Global, case: &Case) -> Result<Vec<String>> {
    let mut found = Vec::new(alloc);
    for seed in 0..SEEDS {
        add(&mut found, run(alloc, case, &mut Chooser::Random(seed))?)?;
    }
    Ok(found)
}

/// The reports of some orders, each with the memory of its first step refused, of its second, and so on, and last with none refused.
fn of_refused(alloc: Global, case: &Case) -> Result<Vec<String>> {
    let mut found = Vec::new(alloc);
    for seed in 0..REFUSED_SEEDS {
        for refused in 0..MOST_STEPS {
            let report = run(alloc, case, &mut Chooser::Refusing(seed, refused))?;
            let is_refused = report.as_str() == "stop: Mem";
            add(&mut found, report)?;
            if !is_refused {
                break;
            }
        }
    }
    Ok(found)
}

/// Adds a report that isn't there.
fn add(found: &mut Vec<String>, report: String) -> Result<()> {
    if !found.iter().any(|other| other.as_str() == report.as_str()) {
        found.push(report)?;
    }
    Ok(())
}

/// Goes on to the next order, if there is one.
fn turn_on(turns: &mut Vec<Turn>) -> bool {
    for _ in 0..turns.len() {
        let Some(turn) = turns.pop() else {
            return false;
        };
        let place = turn.place.saturating_add(1);
        if place < turn.count {
            let count = turn.count;
            return turns.push(Turn { place, count }).is_ok();
        }
    }
    false
}

/// Runs a row to its end, and gives its report.
fn run(alloc: Global, case: &Case, chooser: &mut Chooser) -> Result<String> {
    let mut machine = opened(alloc, case)?;
    end_of(alloc, case, &mut machine, chooser)
}

fn end_of(
    alloc: Global,
    case: &Case,
    machine: &mut Machine,
    chooser: &mut Chooser,
) -> Result<String>
    requires { IsSound (table_rules case.now.rules) machine.old }
{
    'steps: for _ in 0..MOST_STEPS {
        if !goes_on(alloc, case, machine, chooser)? {
            return report(alloc, case, &machine.flow);
        }
    }
    bail!("more than {MOST_STEPS} steps")
}

/// Takes the next step, if the run isn't over.
fn goes_on(alloc: Global, case: &Case, machine: &mut Machine, chooser: &mut Chooser) -> Result<bool>
    requires { IsSound (table_rules case.now.rules) machine.old }
    ensures { OnOk result (IsSound (table_rules case.now.rules) machine.new) }
{
    let choices = choices(alloc, case, machine)?;
    if choices.is_empty() {
        return Ok(false);
    }
    let place = chooser.choose(choices.len())?;
    let Some(choice) = choices.as_slice().get(place) else {
        bail!("no such choice");
    };
    if chooser.refuses() {
        refuse(case, machine, *choice)?;
        return Ok(true);
    }
    step(alloc, case, machine, *choice)?;
    Ok(true)
}

impl Chooser {
    /// The place of the next choice of so many.
    fn choose(&mut self, count: usize) -> Result<usize> {
        match self {
            Chooser::Turns(turns, taken) => {
                let next = *taken;
                *taken = next.saturating_add(1);
                if let Some(turn) = turns.as_slice().get(next) {
                    return Ok(turn.place);
                }
                turns.push(Turn { place: 0, count })?;
                Ok(0)
            }
            Chooser::Random(latest) | Chooser::Refusing(latest, _) => {
                *latest = latest
                    .wrapping_mul(6364136223846793005)
                    .wrapping_add(1442695040888963407);
                let drawn = (*latest >> 33) as usize;
                match drawn.checked_rem(count) {
                    Some(place) => Ok(place),
                    None => bail!("no choice"),
                }
            }
        }
    }

    /// Whether the next step is refused its memory.
    fn refuses(&mut self) -> bool {
        match self {
            Chooser::Refusing(_, left) => {
                let is_last = *left == 0;
                *left = left.checked_sub(1).unwrap_or(usize::MAX);
                is_last
            }
            Chooser::Turns(_, _) | Chooser::Random(_) => false,
        }
    }
}
