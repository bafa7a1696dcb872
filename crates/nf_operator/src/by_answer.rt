//! Operators that look at the answer on each item.

ghost use Rattle.std.specs.Prelude.{[], IfOk};
ghost use Rattle.nf_value.specs.View.{plain_of};
ghost use Rattle.nf_opstream.specs.Push.{push_of};
ghost use Rattle.nf_opstream.specs.Rows.{branch_row, filter_row, flat_map_row, map_row, multi_map_row};

use nf_bag::{OpFault, OpOpts};
use nf_opstream::{BranchState, FilterState, FlatMapState, MapState, MultiMapState};
use nf_value::{Mem, Value};
use std::alloc::Global;

/// The state of an operator that looks at the answer on each item.
#[derive(Drop)]
pub(crate) enum ByAnswer {
    Branch(BranchState),
    Filter(FilterState),
    FlatMap(FlatMapState),
    Map(MapState),
    MultiMap(MultiMapState),
}

impl ByAnswer {
    ghost use Rattle.nf_operator.specs.Kept.{EndsBy, GoesOnBy, IsByAnswer};

    pub(crate) fn branch(alloc: Global, opts: &OpOpts) -> Result<ByAnswer, Mem>
        ensures { IfOk result (IsByAnswer (branch_row opts.now.outs) []) }
    {
        Ok(ByAnswer::Branch(BranchState::begin(alloc, opts)?))
    }

    pub(crate) fn filter(alloc: Global, opts: &OpOpts) -> Result<ByAnswer, Mem>
        ensures { IfOk result (IsByAnswer filter_row []) }
    {
        Ok(ByAnswer::Filter(FilterState::begin(alloc, opts)?))
    }

    pub(crate) fn flat_map(alloc: Global, opts: &OpOpts) -> Result<ByAnswer, Mem>
        ensures { IfOk result (IsByAnswer flat_map_row []) }
    {
        Ok(ByAnswer::FlatMap(FlatMapState::begin(alloc, opts)?))
    }

    pub(crate) fn map(alloc: Global, opts: &OpOpts) -> Result<ByAnswer, Mem>
        ensures { IfOk result (IsByAnswer map_row []) }
    {
        Ok(ByAnswer::Map(MapState::begin(alloc, opts)?))
    }

    pub(crate) fn multi_map(alloc: Global, opts: &OpOpts) -> Result<ByAnswer, Mem>
        ensures { IfOk result (IsByAnswer (multi_map_row opts.now.outs) []) }
    {
        Ok(ByAnswer::MultiMap(MultiMapState::begin(alloc, opts)?))
    }

    /// What an item with its answer gives.
    pub(crate) fn push(
        &mut self,
        port: u32,
        item: Value,
        answer: Value,
    ) -> Result<Vec<(u32, Value)>, OpFault>
        ensures { GoesOnBy IsByAnswer self.old (push_of port (plain_of item) (plain_of answer)) result self.new }
    {
        match self {
            ByAnswer::Branch(state) => state.push(port, item, answer),
            ByAnswer::Filter(state) => state.push(port, item, answer),
            ByAnswer::FlatMap(state) => state.push(port, item, answer),
            ByAnswer::Map(state) => state.push(port, item, answer),
            ByAnswer::MultiMap(state) => state.push(port, item, answer),
        }
    }

    /// What the end of the input gives.
    pub(crate) fn close(&mut self) -> Result<Vec<(u32, Value)>, OpFault>
        ensures { EndsBy IsByAnswer self.old result }
    {
        match self {
            ByAnswer::Branch(state) => state.close(),
            ByAnswer::Filter(state) => state.close(),
            ByAnswer::FlatMap(state) => state.close(),
            ByAnswer::Map(state) => state.close(),
            ByAnswer::MultiMap(state) => state.close(),
        }
    }
}
