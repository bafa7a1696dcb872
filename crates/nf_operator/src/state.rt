//! One state for all operators.

ghost use Rattle.std.specs.Prelude.{◌↔◌, [], IfOk, OnOk, IsTrue};
ghost use Rattle.nf_value.specs.View.{plain_of};
ghost use Rattle.nf_bag.specs.Options.{Allows};
ghost use Rattle.nf_opstream.specs.Push.{push_of};
ghost use Rattle.nf_opstream.specs.Operator.{Operator};
ghost use Rattle.nf_operator.specs.Kept.{IsByAnswer, IsByItem, IsGathers, IsJoins, IsTotals};
ghost use Rattle.nf_operator.specs.State.{IsKept};

use crate::by_answer::ByAnswer;
use crate::by_item::ByItem;
use crate::gathers::Gathers;
use crate::joins::Joins;
use crate::totals::Totals;
use nf_bag::{OpFault, OpOpts, Row};
use nf_value::{Mem, Value};
use std::alloc::Global;

/// The state of an operator of a channel: what it keeps of the items so far.
pub struct OpState {
    kept: Kept,
}

impl Drop for OpState {
    fn drop(self) {
        let OpState { kept: _ } = self;
    }
}

impl OpState {
    ghost use Rattle.nf_operator.specs.State.{Ends, Gives, HasRoom, IsAfter, IsNext};

    /// The state of a row's operator before its first item. The options must be allowed: `combine` has no `by` but 0, and `ifEmpty` has
    /// its value.
    ///
    /// # Errors
    ///
    /// `Mem` if there is no memory for a copy of the value of `ifEmpty` or the initial value of `reduce`.
    pub fn begin(alloc: Global, row: Row, opts: &OpOpts) -> Result<OpState, Mem>
        requires { Allows row opts.now }
        ensures { IfOk result (IsAfter row opts.now []) }
    {
        Ok(OpState {
            kept: Kept::begin(alloc, row, opts)?,
        })
    }

    /// Whether there is room for one more item. After fewer than 2^32 items there is.
    pub fn has_room(&self) -> bool
        ensures { IsTrue result ↔ HasRoom self.now }
    {
        self.kept.has_room()
    }

    /// Takes an item of an input with the closure's answer on it, which is the item itself if there is no closure. Gives what is emitted
    /// for it: values, each with the number of its output. There must be room.
    ///
    /// # Errors
    ///
    /// The fault that the operator has on this item after those before, or `Mem` if there is no memory. After an error the state takes
    /// no further call.
    pub fn push(
        &mut self,
        port: u32,
        item: Value,
        answer: Value,
    ) -> Result<Vec<(u32, Value)>, OpFault>
        requires { HasRoom self.old }
        ensures emits { Gives self.old (push_of port (plain_of item) (plain_of answer)) result }
        ensures after { OnOk result (IsNext self.old (push_of port (plain_of item) (plain_of answer)) self.new) }
    {
        self.kept.push(port, item, answer)
    }

    /// Ends the input, and gives what is emitted at its end. The state takes no further call.
    ///
    /// # Errors
    ///
    /// The fault that the operator has on the whole input, or `Mem` if there is no memory.
    pub fn close(&mut self) -> Result<Vec<(u32, Value)>, OpFault>
        ensures { Ends self.old result }
    {
        self.kept.close()
    }
}

/// What a state keeps, by kinds of operators.
#[derive(Drop)]
pub(crate) enum Kept {
    ByAnswer(ByAnswer),
    ByItem(ByItem),
    Gathers(Gathers),
    Totals(Totals),
    Joins(Joins),
}

impl Kept {
    ghost use Rattle.nf_operator.specs.Kept.{EndsBy, GoesOnBy};
    ghost use Rattle.nf_operator.specs.Row.{operator_of};
    ghost use Rattle.nf_operator.specs.State.{HasKeptRoom};

    /// What is kept before the first item.
    fn begin(alloc: Global, row: Row, opts: &OpOpts) -> Result<Kept, Mem>
        requires { Allows row opts.now }
        ensures { IfOk result (IsKept (operator_of row opts.now) []) }
    {
        match row {
            Row::Branch => by_answer(ByAnswer::branch(alloc, opts)),
            Row::Collect => gathers(Gathers::collect(alloc, opts)),
            Row::Combine => joins(Joins::combine(alloc, opts)),
            Row::Concat => by_item(ByItem::pass(alloc, opts)),
            Row::Count => gathers(Gathers::count(alloc, opts)),
            Row::Filter => by_answer(ByAnswer::filter(alloc, opts)),
            Row::First => gathers(Gathers::value(alloc, opts)),
            Row::FlatMap => by_answer(ByAnswer::flat_map(alloc, opts)),
            Row::Flatten => by_item(ByItem::flatten(alloc, opts)),
            Row::GroupTuple => joins(Joins::group(alloc, opts)),
            Row::IfEmpty => gathers(Gathers::if_empty(alloc, opts)),
            Row::Join => joins(Joins::join(alloc, opts)),
            Row::Last => gathers(Gathers::value(alloc, opts)),
            Row::Map => by_answer(ByAnswer::map(alloc, opts)),
            Row::Max => totals(Totals::max(alloc, opts)),
            Row::Min => totals(Totals::min(alloc, opts)),
            Row::Mix => by_item(ByItem::pass(alloc, opts)),
            Row::MultiMap => by_answer(ByAnswer::multi_map(alloc, opts)),
            Row::Reduce => totals(Totals::reduce(alloc, opts)),
            Row::Set => by_item(ByItem::pass(alloc, opts)),
            Row::Sum => totals(Totals::sum(alloc, opts)),
            Row::ToList => gathers(Gathers::to_list(alloc, opts)),
            Row::ToSortedList => gathers(Gathers::to_list(alloc, opts)),
            Row::Transpose => by_item(ByItem::transpose(alloc, opts)),
            Row::Unique => by_item(ByItem::unique(alloc, opts)),
            Row::View => by_item(ByItem::pass(alloc, opts)),
        }
    }

    /// Whether there is room for one more item.
    fn has_room(&self) -> bool
        ensures { IsTrue result ↔ HasKeptRoom self.now }
    {
        match self {
            Kept::ByAnswer(_) => true,
            Kept::ByItem(_) => true,
            Kept::Gathers(state) => state.has_room(),
            Kept::Totals(state) => state.has_room(),
            Kept::Joins(_) => true,
        }
    }

    /// What an item with its answer gives.
    fn push(&mut self, port: u32, item: Value, answer: Value) -> Result<Vec<(u32, Value)>, OpFault>
        requires { HasKeptRoom self.old }
        ensures { GoesOnBy IsKept self.old (push_of port (plain_of item) (plain_of answer)) result self.new }
    {
        match self {
            Kept::ByAnswer(state) => state.push(port, item, answer),
            Kept::ByItem(state) => state.push(port, item, answer),
            Kept::Gathers(state) => state.push(port, item, answer),
            Kept::Totals(state) => state.push(port, item, answer),
            Kept::Joins(state) => state.push(port, item, answer),
        }
    }

    /// What the end of the input gives.
    fn close(&mut self) -> Result<Vec<(u32, Value)>, OpFault>
        ensures { EndsBy IsKept self.old result }
    {
        match self {
            Kept::ByAnswer(state) => state.close(),
            Kept::ByItem(state) => state.close(),
            Kept::Gathers(state) => state.close(),
            Kept::Totals(state) => state.close(),
            Kept::Joins(state) => state.close(),
        }
    }
}

fn by_answer(state: Result<ByAnswer, Mem>) -> Result<Kept, Mem>
    ensures { (op : Operator) → IfOk state (IsByAnswer op []) → IfOk result (IsKept op []) }
{
    Ok(Kept::ByAnswer(state?))
}

fn by_item(state: Result<ByItem, Mem>) -> Result<Kept, Mem>
    ensures { (op : Operator) → IfOk state (IsByItem op []) → IfOk result (IsKept op []) }
{
    Ok(Kept::ByItem(state?))
}

fn gathers(state: Result<Gathers, Mem>) -> Result<Kept, Mem>
    ensures { (op : Operator) → IfOk state (IsGathers op []) → IfOk result (IsKept op []) }
{
    Ok(Kept::Gathers(state?))
}

fn totals(state: Result<Totals, Mem>) -> Result<Kept, Mem>
    ensures { (op : Operator) → IfOk state (IsTotals op []) → IfOk result (IsKept op []) }
{
    Ok(Kept::Totals(state?))
}

fn joins(state: Result<Joins, Mem>) -> Result<Kept, Mem>
    ensures { (op : Operator) → IfOk state (IsJoins op []) → IfOk result (IsKept op []) }
{
    Ok(Kept::Joins(state?))
}
