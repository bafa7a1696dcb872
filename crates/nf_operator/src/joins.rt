//! Operators that bring items of one key together.

ghost use Rattle.std.specs.Prelude.{[], IfOk, is_some, unwrap_or};
ghost use Rattle.nf_value.specs.View.{plain_of};
ghost use Rattle.nf_bag.specs.Options.{Allows};
ghost use Rattle.nf_bag.specs.declared.rows.Row.TheVariants as row;
ghost use Rattle.nf_opstream.specs.Push.{push_of};
ghost use Rattle.nf_opjoin.specs.Combined.{combine_row};
ghost use Rattle.nf_opjoin.specs.Grouped.{group_row};
ghost use Rattle.nf_opjoin.specs.Joined.{join_row};

use nf_bag::{OpFault, OpOpts};
use nf_opjoin::{CombineState, GroupState, JoinState};
use nf_value::{Mem, Value};
use std::alloc::Global;

/// The state of an operator that brings items of one key together.
#[derive(Drop)]
pub(crate) enum Joins {
    Combine(CombineState),
    Group(GroupState),
    Join(JoinState),
}

impl Joins {
    ghost use Rattle.nf_operator.specs.Kept.{EndsBy, GoesOnBy, IsJoins};

    pub(crate) fn combine(alloc: Global, opts: &OpOpts) -> Result<Joins, Mem>
        requires { Allows row.Combine opts.now }
        ensures { IfOk result (IsJoins (combine_row (is_some opts.now.by)) []) }
    {
        Ok(Joins::Combine(CombineState::begin(alloc, opts)?))
    }

    pub(crate) fn group(alloc: Global, opts: &OpOpts) -> Result<Joins, Mem>
        ensures { IfOk result (IsJoins (group_row (unwrap_or opts.now.by 0) opts.now.sort) []) }
    {
        Ok(Joins::Group(GroupState::begin(alloc, opts)?))
    }

    pub(crate) fn join(alloc: Global, opts: &OpOpts) -> Result<Joins, Mem>
        ensures { IfOk result (IsJoins (join_row (unwrap_or opts.now.by 0) opts.now.remainder) []) }
    {
        Ok(Joins::Join(JoinState::begin(alloc, opts)?))
    }

    /// What an item with its answer gives.
    pub(crate) fn push(
        &mut self,
        port: u32,
        item: Value,
        answer: Value,
    ) -> Result<Vec<(u32, Value)>, OpFault>
        ensures { GoesOnBy IsJoins self.old (push_of port (plain_of item) (plain_of answer)) result self.new }
    {
        match self {
            Joins::Combine(state) => state.push(port, item, answer),
            Joins::Group(state) => state.push(port, item, answer),
            Joins::Join(state) => state.push(port, item, answer),
        }
    }

    /// What the end of the input gives.
    pub(crate) fn close(&mut self) -> Result<Vec<(u32, Value)>, OpFault>
        ensures { EndsBy IsJoins self.old result }
    {
        match self {
            Joins::Combine(state) => state.close(),
            Joins::Group(state) => state.close(),
            Joins::Join(state) => state.close(),
        }
    }
}
