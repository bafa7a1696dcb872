//! Operators that emit what stands in each item.

ghost use Rattle.std.specs.Prelude.{[], IfOk};
ghost use Rattle.nf_value.specs.View.{plain_of};
ghost use Rattle.nf_opstream.specs.Push.{push_of};
ghost use Rattle.nf_opstream.specs.Rows.{flatten_row, pass_row, transpose_row, unique_row};

use nf_bag::{OpFault, OpOpts};
use nf_opstream::{FlattenState, PassState, TransposeState, UniqueState};
use nf_value::{Mem, Value};
use std::alloc::Global;

/// The state of an operator that emits what stands in each item.
#[derive(Drop)]
pub(crate) enum ByItem {
    Flatten(FlattenState),
    Pass(PassState),
    Transpose(TransposeState),
    Unique(UniqueState),
}

impl ByItem {
    ghost use Rattle.nf_operator.specs.Kept.{EndsBy, GoesOnBy, IsByItem};

    pub(crate) fn flatten(alloc: Global, opts: &OpOpts) -> Result<ByItem, Mem>
        ensures { IfOk result (IsByItem flatten_row []) }
    {
        Ok(ByItem::Flatten(FlattenState::begin(alloc, opts)?))
    }

    pub(crate) fn pass(alloc: Global, opts: &OpOpts) -> Result<ByItem, Mem>
        ensures { IfOk result (IsByItem pass_row []) }
    {
        Ok(ByItem::Pass(PassState::begin(alloc, opts)?))
    }

    pub(crate) fn transpose(alloc: Global, opts: &OpOpts) -> Result<ByItem, Mem>
        ensures { IfOk result (IsByItem transpose_row []) }
    {
        Ok(ByItem::Transpose(TransposeState::begin(alloc, opts)?))
    }

    pub(crate) fn unique(alloc: Global, opts: &OpOpts) -> Result<ByItem, Mem>
        ensures { IfOk result (IsByItem unique_row []) }
    {
        Ok(ByItem::Unique(UniqueState::begin(alloc, opts)?))
    }

    /// What an item with its answer gives.
    pub(crate) fn push(
        &mut self,
        port: u32,
        item: Value,
        answer: Value,
    ) -> Result<Vec<(u32, Value)>, OpFault>
        ensures { GoesOnBy IsByItem self.old (push_of port (plain_of item) (plain_of answer)) result self.new }
    {
        match self {
            ByItem::Flatten(state) => state.push(port, item, answer),
            ByItem::Pass(state) => state.push(port, item, answer),
            ByItem::Transpose(state) => state.push(port, item, answer),
            ByItem::Unique(state) => state.push(port, item, answer),
        }
    }

    /// What the end of the input gives.
    pub(crate) fn close(&mut self) -> Result<Vec<(u32, Value)>, OpFault>
        ensures { EndsBy IsByItem self.old result }
    {
        match self {
            ByItem::Flatten(state) => state.close(),
            ByItem::Pass(state) => state.close(),
            ByItem::Transpose(state) => state.close(),
            ByItem::Unique(state) => state.close(),
        }
    }
}
