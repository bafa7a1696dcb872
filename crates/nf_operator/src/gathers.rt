//! Operators that gather the items of their input.

ghost use Rattle.std.specs.Prelude.{◌↔◌, [], IfOk, IsTrue, unwrap_or};
ghost use Rattle.std.specs.Option.{option_map};
ghost use Rattle.nf_value.specs.Plain.{null};
ghost use Rattle.nf_value.specs.View.{plain_of};
ghost use Rattle.nf_bag.specs.Options.{Allows};
ghost use Rattle.nf_bag.specs.declared.rows.Row.TheVariants as row;
ghost use Rattle.nf_opstream.specs.Push.{push_of};
ghost use Rattle.nf_opclose.specs.Rows.{collect_row, count_row, if_empty_row, to_list_row, value_row};

use nf_bag::{OpFault, OpOpts};
use nf_opclose::{CollectState, CountState, IfEmptyState, ToListState, ValueState};
use nf_value::{Mem, Value};
use std::alloc::Global;

/// The state of an operator that gathers the items of its input.
#[derive(Drop)]
pub(crate) enum Gathers {
    Collect(CollectState),
    Count(CountState),
    IfEmpty(IfEmptyState),
    ToList(ToListState),
    Value(ValueState),
}

impl Gathers {
    ghost use Rattle.nf_operator.specs.Kept.{EndsBy, GoesOnBy, HasGathersRoom, IsGathers};

    pub(crate) fn collect(alloc: Global, opts: &OpOpts) -> Result<Gathers, Mem>
        ensures { IfOk result (IsGathers (collect_row opts.now.flat) []) }
    {
        Ok(Gathers::Collect(CollectState::begin(alloc, opts)?))
    }

    pub(crate) fn count(alloc: Global, opts: &OpOpts) -> Result<Gathers, Mem>
        ensures { IfOk result (IsGathers count_row []) }
    {
        Ok(Gathers::Count(CountState::begin(alloc, opts)?))
    }

    pub(crate) fn if_empty(alloc: Global, opts: &OpOpts) -> Result<Gathers, Mem>
        requires { Allows row.IfEmpty opts.now }
        ensures { IfOk result (IsGathers (if_empty_row (unwrap_or (option_map plain_of opts.now.start) null)) []) }
    {
        Ok(Gathers::IfEmpty(IfEmptyState::begin(alloc, opts)?))
    }

    pub(crate) fn to_list(alloc: Global, opts: &OpOpts) -> Result<Gathers, Mem>
        ensures { IfOk result (IsGathers to_list_row []) }
    {
        Ok(Gathers::ToList(ToListState::begin(alloc, opts)?))
    }

    pub(crate) fn value(alloc: Global, opts: &OpOpts) -> Result<Gathers, Mem>
        ensures { IfOk result (IsGathers value_row []) }
    {
        Ok(Gathers::Value(ValueState::begin(alloc, opts)?))
    }

    /// Whether there is room for one more item.
    pub(crate) fn has_room(&self) -> bool
        ensures { IsTrue result ↔ HasGathersRoom self.now }
    {
        match self {
            Gathers::Collect(_) => true,
            Gathers::Count(state) => state.has_room(),
            Gathers::IfEmpty(_) => true,
            Gathers::ToList(_) => true,
            Gathers::Value(_) => true,
        }
    }

    /// What an item with its answer gives.
    pub(crate) fn push(
        &mut self,
        port: u32,
        item: Value,
        answer: Value,
    ) -> Result<Vec<(u32, Value)>, OpFault>
        requires { HasGathersRoom self.old }
        ensures { GoesOnBy IsGathers self.old (push_of port (plain_of item) (plain_of answer)) result self.new }
    {
        match self {
            Gathers::Collect(state) => state.push(port, item, answer),
            Gathers::Count(state) => state.push(port, item, answer),
            Gathers::IfEmpty(state) => state.push(port, item, answer),
            Gathers::ToList(state) => state.push(port, item, answer),
            Gathers::Value(state) => state.push(port, item, answer),
        }
    }

    /// What the end of the input gives.
    pub(crate) fn close(&mut self) -> Result<Vec<(u32, Value)>, OpFault>
        ensures { EndsBy IsGathers self.old result }
    {
        match self {
            Gathers::Collect(state) => state.close(),
            Gathers::Count(state) => state.close(),
            Gathers::IfEmpty(state) => state.close(),
            Gathers::ToList(state) => state.close(),
            Gathers::Value(state) => state.close(),
        }
    }
}
