//! Operators that emit one total of their input.

ghost use Rattle.std.specs.Prelude.{◌↔◌, [], IfOk, IsTrue};
ghost use Rattle.std.specs.Option.{option_map};
ghost use Rattle.nf_value.specs.View.{plain_of};
ghost use Rattle.nf_opstream.specs.Push.{push_of};
ghost use Rattle.nf_opclose.specs.Rows.{max_row, min_row, reduce_row, sum_row};

use nf_bag::{OpFault, OpOpts};
use nf_opclose::{MaxState, MinState, ReduceState, SumState};
use nf_value::{Mem, Value};
use std::alloc::Global;

/// The state of an operator that emits one total of its input.
#[derive(Drop)]
pub(crate) enum Totals {
    Max(MaxState),
    Min(MinState),
    Reduce(ReduceState),
    Sum(SumState),
}

impl Totals {
    ghost use Rattle.nf_operator.specs.Kept.{EndsBy, GoesOnBy, HasTotalsRoom, IsTotals};

    pub(crate) fn max(alloc: Global, opts: &OpOpts) -> Result<Totals, Mem>
        ensures { IfOk result (IsTotals max_row []) }
    {
        Ok(Totals::Max(MaxState::begin(alloc, opts)?))
    }

    pub(crate) fn min(alloc: Global, opts: &OpOpts) -> Result<Totals, Mem>
        ensures { IfOk result (IsTotals min_row []) }
    {
        Ok(Totals::Min(MinState::begin(alloc, opts)?))
    }

    pub(crate) fn reduce(alloc: Global, opts: &OpOpts) -> Result<Totals, Mem>
        ensures { IfOk result (IsTotals (reduce_row opts.now.total (option_map plain_of opts.now.start)) []) }
    {
        Ok(Totals::Reduce(ReduceState::begin(alloc, opts)?))
    }

    pub(crate) fn sum(alloc: Global, opts: &OpOpts) -> Result<Totals, Mem>
        ensures { IfOk result (IsTotals sum_row []) }
    {
        Ok(Totals::Sum(SumState::begin(alloc, opts)?))
    }

    /// Whether there is room for one more item.
    pub(crate) fn has_room(&self) -> bool
        ensures { IsTrue result ↔ HasTotalsRoom self.now }
    {
        match self {
            Totals::Max(_) => true,
            Totals::Min(_) => true,
            Totals::Reduce(state) => state.has_room(),
            Totals::Sum(state) => state.has_room(),
        }
    }

    /// What an item with its answer gives.
    pub(crate) fn push(
        &mut self,
        port: u32,
        item: Value,
        answer: Value,
    ) -> Result<Vec<(u32, Value)>, OpFault>
        requires { HasTotalsRoom self.old }
        ensures { GoesOnBy IsTotals self.old (push_of port (plain_of item) (plain_of answer)) result self.new }
    {
        match self {
            Totals::Max(state) => state.push(port, item, answer),
            Totals::Min(state) => state.push(port, item, answer),
            Totals::Reduce(state) => state.push(port, item, answer),
            Totals::Sum(state) => state.push(port, item, answer),
        }
    }

    /// What the end of the input gives.
    pub(crate) fn close(&mut self) -> Result<Vec<(u32, Value)>, OpFault>
        ensures { EndsBy IsTotals self.old result }
    {
        match self {
            Totals::Max(state) => state.close(),
            Totals::Min(state) => state.close(),
            Totals::Reduce(state) => state.close(),
            Totals::Sum(state) => state.close(),
        }
    }
}
