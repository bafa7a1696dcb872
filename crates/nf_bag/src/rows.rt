//! The operators of channels that have a bag.

ghost use Rattle.std.specs.Prelude.{◌≡◌, Some};
ghost use Rattle.nf_bag.specs.Row.{row_name};

use std::fmt;

/// An operator that has a bag (Nextflow reference documentation, "Operators"; that these twenty-six are the table is own). Printed by its
/// name, as `flatMap`.
#[derive(Debug, Clone, Copy, PartialEq, Eq)]
pub enum Row {
    /// `branch`
    Branch,
    /// `collect`
    Collect,
    /// `combine`
    Combine,
    /// `concat`
    Concat,
    /// `count`
    Count,
    /// `filter`
    Filter,
    /// `first`
    First,
    /// `flatMap`
    FlatMap,
    /// `flatten`
    Flatten,
    /// `groupTuple`
    GroupTuple,
    /// `ifEmpty`
    IfEmpty,
    /// `join`
    Join,
    /// `last`
    Last,
    /// `map`
    Map,
    /// `max`
    Max,
    /// `min`
    Min,
    /// `mix`
    Mix,
    /// `multiMap`
    MultiMap,
    /// `reduce`
    Reduce,
    /// `set`
    Set,
    /// `sum`
    Sum,
    /// `toList`
    ToList,
    /// `toSortedList`
    ToSortedList,
    /// `transpose`
    Transpose,
    /// `unique`
    Unique,
    /// `view`
    View,
}

impl Row {
    /// The operator's name in scripts.
    pub fn name(self) -> &'static str
        ensures { result.now ≡ row_name self }
    {
        match self {
            Row::Branch => "branch",
            Row::Collect => "collect",
            Row::Combine => "combine",
            Row::Concat => "concat",
            Row::Count => "count",
            Row::Filter => "filter",
            Row::First => "first",
            Row::FlatMap => "flatMap",
            Row::Flatten => "flatten",
            Row::GroupTuple => "groupTuple",
            Row::IfEmpty => "ifEmpty",
            Row::Join => "join",
            Row::Last => "last",
            Row::Map => "map",
            Row::Max => "max",
            Row::Min => "min",
            Row::Mix => "mix",
            Row::MultiMap => "multiMap",
            Row::Reduce => "reduce",
            Row::Set => "set",
            Row::Sum => "sum",
            Row::ToList => "toList",
            Row::ToSortedList => "toSortedList",
            Row::Transpose => "transpose",
            Row::Unique => "unique",
            Row::View => "view",
        }
    }
}

impl fmt::Display for Row {
    ghost output = { λ r. Some (row_name r) };

    fn fmt<W: fmt::Write>(&self, f: &mut fmt::Formatter<W>) -> fmt::Result {
        write!(f, "{}", self.name())
    }
}
