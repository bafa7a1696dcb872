//! The order rules, and the places at which a script breaks them.

ghost use Rattle.std.specs.Prelude.{◌≡◌, ◌++◌, [], Some, MatchOption, OnOk};
ghost use Rattle.nf_kinds.specs.Fault.{IsFirst, breaks_if, earlier_of, first_of, is_before as is_before_of};
ghost use Rattle.nf_kinds.specs.Texts.{rule_text};

use nf_value::{Mem, Place};
use std::fmt;

/// An order rule (own): what a script may not do, so that its result doesn't depend on the order in which items
/// arrive. Displayed as `Order rule 1`.
#[derive(Debug, Clone, Copy, PartialEq, Eq)]
pub enum OrderRule {
    /// A process takes at most one queue. At the process's name in the call.
    ProcessQueues = 1,
    /// No operator gives the order of arrival, as `first` of a queue does. At the operator's name.
    Arrival = 2,
    /// The closure of `reduce` is `a + b`, `Math.min(a, b)`, `Math.max(a, b)`, `a && b` or `a || b`, with its two
    /// parameters in either order. At `reduce`.
    ReduceClosure = 3,
    /// `unique`, `min`, `max` and `toSortedList` take no closure. At the operator's name.
    ComparingClosure = 4,
    /// `groupTuple` takes no `size:`. At the operator's name.
    GroupSize = 5,
    /// A closure or function assigns to names of its own alone, and a process reads no `task.index`, `task.hash` or
    /// `task.workDir`. At the name that is assigned to, or at `task`.
    SharedState = 6,
}

impl fmt::Display for OrderRule {
    ghost output = { λ r. Some (rule_text r) };

    fn fmt<W: fmt::Write>(&self, f: &mut fmt::Formatter<W>) -> fmt::Result {
        match self {
            OrderRule::ProcessQueues => write!(f, "Order rule 1"),
            OrderRule::Arrival => write!(f, "Order rule 2"),
            OrderRule::ReduceClosure => write!(f, "Order rule 3"),
            OrderRule::ComparingClosure => write!(f, "Order rule 4"),
            OrderRule::GroupSize => write!(f, "Order rule 5"),
            OrderRule::SharedState => write!(f, "Order rule 6"),
        }
    }
}

/// A rule that is broken at a place.
#[derive(Debug, Clone, Copy, PartialEq, Eq)]
pub struct Broken {
    /// The rule.
    pub rule: OrderRule,
    /// The place.
    pub place: Place,
}

/// Notes that a rule is broken at a place, if it is.
pub fn note_if(
    is_broken: bool,
    rule: OrderRule,
    place: Place,
    broken: &mut Vec<Broken>,
) -> Result<(), Mem>
    ensures { OnOk result (broken.new.items ≡ broken.old.items ++ breaks_if is_broken rule place) }
{
    if is_broken {
        broken.push(Broken { rule, place })?;
    }
    Ok(())
}

/// The first of these in the text, and at one place that of the smaller rule.
pub fn earliest(broken: &[Broken]) -> Option<Broken>
    ensures first { MatchOption result (broken.now ≡ []) (λ f. IsFirst f broken.now) }
    ensures only { result ≡ first_of broken.now }
{
    let mut first: Option<Broken> = None;
    for one in broken {
        first = earlier(first, *one);
    }
    first
}

fn earlier(first: Option<Broken>, one: Broken) -> Option<Broken>
    ensures { result ≡ Some (earlier_of first one) }
{
    match first {
        Some(first) if !is_before(one, first) => Some(first),
        _ => Some(one),
    }
}

fn is_before(one: Broken, other: Broken) -> bool
    ensures { result ≡ is_before_of one other }
{
    let place = one.place;
    let to = other.place;
    place.line < to.line
        || (place.line == to.line
            && (place.col < to.col
                || (place.col == to.col && (one.rule as u8) < (other.rule as u8))))
}
