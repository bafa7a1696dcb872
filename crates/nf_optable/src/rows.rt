//! The table of operators: for each, what it is given and what it gives.

ghost use Rattle.std.specs.Prelude.{◌≡◌, map, IfOk};
ghost use Rattle.nf_optable.specs.Operator.{operator_name};
ghost use Rattle.nf_optable.specs.Rows.{operator_rows, row_of, option_names};

use crate::operator::{ArrivalOperator, Operator};
use nf_bag::Row;
use nf_table::{Named, Table};
use nf_value::Mem;
use std::alloc::Global;

/// The arguments of an operator that have no name, beside the channel that it is called on and the closure.
#[derive(Debug, Clone, Copy, PartialEq, Eq)]
pub enum Args {
    /// None.
    Nothing,
    /// One channel.
    Channel,
    /// One channel or more.
    Channels,
    /// One value.
    Value,
    /// One value, or none.
    MaybeValue,
    /// One value or more.
    Values,
}

/// The named arguments of an operator. Each may be left out.
#[derive(Debug, Clone, Copy, PartialEq, Eq)]
pub enum Options {
    /// None.
    Nothing,
    /// `remainder:`, `size:` and `skip:`.
    OfBuffer,
    /// `flat:` and `sort:`.
    OfCollect,
    /// `by:`.
    OfCombine,
    /// `by:` and `sort:`.
    OfGroupTuple,
    /// `by:`, `failOnDuplicate:` and `remainder:`.
    OfJoin,
}

/// The closure of an operator.
#[derive(Debug, Clone, Copy, PartialEq, Eq)]
pub enum ClosureUse {
    /// It takes none.
    Never,
    /// It takes one or none.
    May,
    /// It takes one.
    Must,
    /// It takes one in place of its value.
    InPlace,
    /// It takes one with labels, each of which is an output.
    Labels,
    /// It takes one that is just a name.
    Name,
    /// It takes one that adds up two values in one of five ways.
    Total,
    /// It takes none: the documentation's is read, and then refused.
    Refused,
}

/// The channels that an operator gives.
#[derive(Debug, Clone, Copy, PartialEq, Eq)]
pub enum Gives {
    /// A value channel.
    ValueChannel,
    /// A queue.
    Queue,
    /// A value channel where all its inputs are value channels, and else a queue.
    AsInputs,
}

/// A row of the table of operators.
#[derive(Debug, Clone, Copy, PartialEq, Eq)]
pub struct OpRow {
    /// The operator. The row has its name.
    pub operator: Operator,
    /// Its arguments that have no name.
    pub args: Args,
    /// Its named arguments.
    pub options: Options,
    /// Its closure.
    pub closure: ClosureUse,
    /// What it gives.
    pub gives: Gives,
}

impl Named for OpRow {
    ghost label = { λ r. operator_name r.operator };

    fn name(&self) -> &str {
        self.operator.name()
    }
}

impl Options {
    /// The names of the options, in rising order.
    pub fn names(self) -> &'static [&'static str]
        ensures { map (λ n. n.now) result.now ≡ option_names self }
    {
        match self {
            Options::Nothing => &[],
            Options::OfBuffer => &["remainder", "size", "skip"],
            Options::OfCollect => &["flat", "sort"],
            Options::OfCombine => &["by"],
            Options::OfGroupTuple => &["by", "sort"],
            Options::OfJoin => &["by", "failOnDuplicate", "remainder"],
        }
    }
}

/// The rows, in the order of their names. This is the only table of operators.
pub(crate) const ROWS: &[OpRow] = &[
    OpRow {
        operator: Operator::Bag(Row::Branch),
        args: Args::Nothing,
        options: Options::Nothing,
        closure: ClosureUse::Labels,
        gives: Gives::AsInputs,
    },
    OpRow {
        operator: Operator::Arrival(ArrivalOperator::Buffer),
        args: Args::Nothing,
        options: Options::OfBuffer,
        closure: ClosureUse::May,
        gives: Gives::AsInputs,
    },
    OpRow {
        operator: Operator::Arrival(ArrivalOperator::Collate),
        args: Args::Values,
        options: Options::Nothing,
        closure: ClosureUse::Never,
        gives: Gives::AsInputs,
    },
    OpRow {
        operator: Operator::Bag(Row::Collect),
        args: Args::Nothing,
        options: Options::OfCollect,
        closure: ClosureUse::May,
        gives: Gives::ValueChannel,
    },
    OpRow {
        operator: Operator::Bag(Row::Combine),
        args: Args::Channel,
        options: Options::OfCombine,
        closure: ClosureUse::Never,
        gives: Gives::AsInputs,
    },
    OpRow {
        operator: Operator::Bag(Row::Concat),
        args: Args::Channels,
        options: Options::Nothing,
        closure: ClosureUse::Never,
        gives: Gives::Queue,
    },
    OpRow {
        operator: Operator::Bag(Row::Count),
        args: Args::Nothing,
        options: Options::Nothing,
        closure: ClosureUse::Never,
        gives: Gives::ValueChannel,
    },
    OpRow {
        operator: Operator::Arrival(ArrivalOperator::Distinct),
        args: Args::Nothing,
        options: Options::Nothing,
        closure: ClosureUse::May,
        gives: Gives::AsInputs,
    },
    OpRow {
        operator: Operator::Bag(Row::Filter),
        args: Args::Value,
        options: Options::Nothing,
        closure: ClosureUse::InPlace,
        gives: Gives::AsInputs,
    },
    OpRow {
        operator: Operator::Bag(Row::First),
        args: Args::Nothing,
        options: Options::Nothing,
        closure: ClosureUse::Never,
        gives: Gives::AsInputs,
    },
    OpRow {
        operator: Operator::Bag(Row::FlatMap),
        args: Args::Nothing,
        options: Options::Nothing,
        closure: ClosureUse::Must,
        gives: Gives::Queue,
    },
    OpRow {
        operator: Operator::Bag(Row::Flatten),
        args: Args::Nothing,
        options: Options::Nothing,
        closure: ClosureUse::Never,
        gives: Gives::Queue,
    },
    OpRow {
        operator: Operator::Bag(Row::GroupTuple),
        args: Args::Nothing,
        options: Options::OfGroupTuple,
        closure: ClosureUse::Never,
        gives: Gives::AsInputs,
    },
    OpRow {
        operator: Operator::Bag(Row::IfEmpty),
        args: Args::Value,
        options: Options::Nothing,
        closure: ClosureUse::InPlace,
        gives: Gives::AsInputs,
    },
    OpRow {
        operator: Operator::Bag(Row::Join),
        args: Args::Channel,
        options: Options::OfJoin,
        closure: ClosureUse::Never,
        gives: Gives::Queue,
    },
    OpRow {
        operator: Operator::Bag(Row::Last),
        args: Args::Nothing,
        options: Options::Nothing,
        closure: ClosureUse::Never,
        gives: Gives::AsInputs,
    },
    OpRow {
        operator: Operator::Bag(Row::Map),
        args: Args::Nothing,
        options: Options::Nothing,
        closure: ClosureUse::Must,
        gives: Gives::AsInputs,
    },
    OpRow {
        operator: Operator::Bag(Row::Max),
        args: Args::Nothing,
        options: Options::Nothing,
        closure: ClosureUse::Refused,
        gives: Gives::ValueChannel,
    },
    OpRow {
        operator: Operator::Arrival(ArrivalOperator::Merge),
        args: Args::Channels,
        options: Options::Nothing,
        closure: ClosureUse::May,
        gives: Gives::AsInputs,
    },
    OpRow {
        operator: Operator::Bag(Row::Min),
        args: Args::Nothing,
        options: Options::Nothing,
        closure: ClosureUse::Refused,
        gives: Gives::ValueChannel,
    },
    OpRow {
        operator: Operator::Bag(Row::Mix),
        args: Args::Channels,
        options: Options::Nothing,
        closure: ClosureUse::Never,
        gives: Gives::Queue,
    },
    OpRow {
        operator: Operator::Bag(Row::MultiMap),
        args: Args::Nothing,
        options: Options::Nothing,
        closure: ClosureUse::Labels,
        gives: Gives::AsInputs,
    },
    OpRow {
        operator: Operator::Arrival(ArrivalOperator::RandomSample),
        args: Args::Values,
        options: Options::Nothing,
        closure: ClosureUse::Never,
        gives: Gives::AsInputs,
    },
    OpRow {
        operator: Operator::Bag(Row::Reduce),
        args: Args::MaybeValue,
        options: Options::Nothing,
        closure: ClosureUse::Total,
        gives: Gives::ValueChannel,
    },
    OpRow {
        operator: Operator::Bag(Row::Set),
        args: Args::Nothing,
        options: Options::Nothing,
        closure: ClosureUse::Name,
        gives: Gives::AsInputs,
    },
    OpRow {
        operator: Operator::Bag(Row::Sum),
        args: Args::Nothing,
        options: Options::Nothing,
        closure: ClosureUse::Never,
        gives: Gives::ValueChannel,
    },
    OpRow {
        operator: Operator::Arrival(ArrivalOperator::Take),
        args: Args::Value,
        options: Options::Nothing,
        closure: ClosureUse::Never,
        gives: Gives::AsInputs,
    },
    OpRow {
        operator: Operator::Bag(Row::ToList),
        args: Args::Nothing,
        options: Options::Nothing,
        closure: ClosureUse::Never,
        gives: Gives::ValueChannel,
    },
    OpRow {
        operator: Operator::Bag(Row::ToSortedList),
        args: Args::Nothing,
        options: Options::Nothing,
        closure: ClosureUse::Refused,
        gives: Gives::ValueChannel,
    },
    OpRow {
        operator: Operator::Bag(Row::Transpose),
        args: Args::Nothing,
        options: Options::Nothing,
        closure: ClosureUse::Never,
        gives: Gives::Queue,
    },
    OpRow {
        operator: Operator::Bag(Row::Unique),
        args: Args::Nothing,
        options: Options::Nothing,
        closure: ClosureUse::Refused,
        gives: Gives::AsInputs,
    },
    OpRow {
        operator: Operator::Arrival(ArrivalOperator::Until),
        args: Args::Value,
        options: Options::Nothing,
        closure: ClosureUse::InPlace,
        gives: Gives::AsInputs,
    },
    OpRow {
        operator: Operator::Bag(Row::View),
        args: Args::Nothing,
        options: Options::Nothing,
        closure: ClosureUse::May,
        gives: Gives::AsInputs,
    },
];

/// The table of all rows, in the order of their names.
///
/// # Errors
///
/// `Mem` where there is no memory for it.
pub fn operators(alloc: Global) -> Result<Table<OpRow, 33>, Mem>
    ensures { IfOk result (λ t. t ≡ operator_rows) }
{
    let rows = Vec::from_slice(alloc, ROWS)?;
    Ok(Table::new(rows))
}

/// The row of a name; `None` where no operator has it. Takes no memory, and time by the number of rows.
pub fn operator_named(name: &str) -> Option<OpRow>
    ensures { result ≡ row_of name.now operator_rows }
{
    row_named(name, ROWS)
}

/// The first of these rows that has the name.
fn row_named(name: &str, rows: &[OpRow]) -> Option<OpRow>
    ensures { result ≡ row_of name.now rows.now }
{
    for row in rows {
        if row.name() == name {
            return Some(*row);
        }
    }
    None
}
