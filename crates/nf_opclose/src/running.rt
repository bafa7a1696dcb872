//! What `reduce` makes of the values so far.

ghost use Rattle.std.specs.Prelude.{◌≡◌, ◌+◌, ◌^◌, ◌≤◌, ◌+ℤ◌, List, [], ◌∷◌, true, false, ◌&&◌, ◌||◌, length, unwrap_or, Ok, MatchResult, IsTrue, ◌↔◌};
ghost use Rattle.std.specs.Option.{option_map};
ghost use Rattle.nf_value.specs.Plain.{Plain, truth as plain_truth};
ghost use Rattle.nf_value.specs.View.{plain_of};
ghost use Rattle.nf_opstream.specs.Promise.{emits_of, IsFault};
ghost use Rattle.nf_opclose.specs.Gathered.{if_any, if_some};
ghost use Rattle.nf_opclose.specs.Numbers.{number_of, total_due};
ghost use Rattle.nf_opclose.specs.Reduce.{refuses as is_refused, made_of};

use crate::emits::emit_some;
use crate::extremes::{greater, lesser};
use crate::numbers::{MOST_ITEMS, Numbers, is_number, number};
use nf_bag::laws::sorting;
use nf_bag::{OpFault, Total};
use nf_opstream::PassState;
use nf_value::{Value, truth};
use std::alloc::Global;

/// The result so far, by the kind of the closure.
#[derive(Drop)]
pub(crate) enum Running {
    /// The count and the total; a value that is no number counts as 0.
    Sum(Numbers),
    /// The least.
    Least(Option<Value>),
    /// The greatest.
    Greatest(Option<Value>),
    /// Whether all are true.
    All(Option<bool>),
    /// Whether any is true.
    Any(Option<bool>),
}

impl Running {
    ghost use Rattle.nf_opclose.specs.Running.{kind_of, IsRunning, HasRoom};

    /// The result of no values.
    pub(crate) fn of(kind: Total) -> Running
        ensures kind { kind_of result ≡ kind }
        ensures running { IsRunning [] result }
        ensures room { HasRoom result }
    {
        match kind {
            Total::Sum => Running::Sum(Numbers::none()),
            Total::Least => Running::Least(None),
            Total::Greatest => Running::Greatest(None),
            Total::All => Running::All(None),
            Total::Any => Running::Any(None),
        }
    }

    /// Whether the closure refuses a value.
    pub(crate) fn refuses(&self, value: &Value) -> bool
        ensures { result ≡ is_refused (kind_of self.now) (plain_of value.now) }
    {
        match self {
            Running::Sum(_) | Running::Least(_) | Running::Greatest(_) => !is_number(value),
            Running::All(_) | Running::Any(_) => false,
        }
    }

    /// Whether one more value can be counted.
    pub(crate) fn has_room(&self) -> bool
        ensures { IsTrue result ↔ HasRoom self.now }
    {
        match self {
            Running::Sum(numbers) => numbers.count <= MOST_ITEMS,
            Running::Least(_) | Running::Greatest(_) => true,
            Running::All(_) | Running::Any(_) => true,
        }
    }

    /// The result with one more value.
    pub(crate) fn with(self, value: Value) -> Running
        requires { HasRoom self }
        ensures kind { kind_of result ≡ kind_of self }
        ensures running { (vs : List Plain) → IsRunning vs self → IsRunning (plain_of value ∷ vs) result }
    {
        sorting();
        match self {
            Running::Sum(numbers) => Running::Sum(added(numbers, &value)),
            Running::Least(least) => Running::Least(Some(lesser(least, value))),
            Running::Greatest(greatest) => Running::Greatest(Some(greater(greatest, value))),
            Running::All(so_far) => Running::All(Some(all(so_far, truth(&value)))),
            Running::Any(so_far) => Running::Any(Some(any(so_far, truth(&value)))),
        }
    }

    /// Emits the result to the first output; of no values, nothing.
    pub(crate) fn emit(
        self,
        alloc: Global,
        out: &mut PassState,
    ) -> Result<Vec<(u32, Value)>, OpFault>
        ensures { (vs : List Plain) → IsRunning vs self → (let due = made_of (kind_of self) vs in MatchResult result (λ es. due ≡ Ok (emits_of es.items)) (IsFault due)) }
    {
        match self {
            Running::Sum(numbers) => emit_sum(alloc, out, &numbers),
            Running::Least(least) => emit_some(alloc, out, least),
            Running::Greatest(greatest) => emit_some(alloc, out, greatest),
            Running::All(answer) => emit_truth(alloc, out, answer),
            Running::Any(answer) => emit_truth(alloc, out, answer),
        }
    }
}

fn added(mut numbers: Numbers, value: &Value) -> Numbers
    requires { numbers.count ≤ 2 ^ 32 }
    ensures count { result.count ≡ numbers.count + 1 }
    ensures total { result.total ≡ numbers.total +ℤ number_of (plain_of value.now) }
{
    numbers.add(number(value));
    numbers
}

fn all(so_far: Option<bool>, answer: bool) -> bool
    ensures { result ≡ (answer && unwrap_or so_far true) }
{
    answer && so_far.unwrap_or(true)
}

fn any(so_far: Option<bool>, answer: bool) -> bool
    ensures { result ≡ (answer || unwrap_or so_far false) }
{
    answer || so_far.unwrap_or(false)
}

fn emit_sum(
    alloc: Global,
    out: &mut PassState,
    numbers: &Numbers,
) -> Result<Vec<(u32, Value)>, OpFault>
    ensures { (vs : List Plain) → numbers.now.count ≡ length vs → (let due = if_any vs (total_due numbers.now.total) in MatchResult result (λ es. due ≡ Ok (emits_of es.items)) (IsFault due)) }
{
    if numbers.count == 0 {
        return Ok(Vec::new(alloc));
    }
    numbers.emit_total(out)
}

fn emit_truth(
    alloc: Global,
    out: &mut PassState,
    answer: Option<bool>,
) -> Result<Vec<(u32, Value)>, OpFault>
    ensures { let due = if_some (option_map plain_truth answer) in MatchResult result (λ es. due ≡ Ok (emits_of es.items)) (IsFault due) }
{
    match answer {
        Some(answer) => emit_some(alloc, out, Some(Value::Truth(answer))),
        None => Ok(Vec::new(alloc)),
    }
}
