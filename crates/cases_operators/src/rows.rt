//! The operators by their names.

ghost use Rattle.std.specs.Prelude.{IfOk};
ghost use Rattle.nf_bag.specs.Options.{Allows};

use anyhow::{Result, bail};
use nf_bag::{OpOpts, Row};
use nf_operator::allows;

/// All operators that have a bag.
const ROWS: &[Row] = &[
    Row::Branch,
    Row::Collect,
    Row::Combine,
    Row::Concat,
    Row::Count,
    Row::Filter,
    Row::First,
    Row::FlatMap,
    Row::Flatten,
    Row::GroupTuple,
    Row::IfEmpty,
    Row::Join,
    Row::Last,
    Row::Map,
    Row::Max,
    Row::Min,
    Row::Mix,
    Row::MultiMap,
    Row::Reduce,
    Row::Set,
    Row::Sum,
    Row::ToList,
    Row::ToSortedList,
    Row::Transpose,
    Row::Unique,
    Row::View,
];

/// The operator of that name, where it allows these options.
pub(crate) fn row_of(name: &str, opts: &OpOpts) -> Result<Row>
    ensures { IfOk result (λ row. Allows row opts.now) }
{
    for row in ROWS.iter().copied() {
        if row.name() == name {
            return allowed(row, opts);
        }
    }
    bail!("{name}: no operator")
}

fn allowed(row: Row, opts: &OpOpts) -> Result<Row>
    ensures { IfOk result (λ allowed. Allows allowed opts.now) }
{
    if !allows(row, opts) {
        bail!("{row}: options that it doesn't allow");
    }
    Ok(row)
}
