//! The operators, and their names.

ghost use Rattle.std.specs.Prelude.{◌≡◌};
ghost use Rattle.nf_optable.specs.Operator.{operator_name, arrival_name, arrival_of};

use nf_bag::Row;

/// An operator of a channel (Nextflow reference documentation, "Operators"; that there are these thirty-three is this project's own choice).
#[derive(Debug, Clone, Copy, PartialEq, Eq)]
pub enum Operator {
    /// One that has a bag: what it emits doesn't depend on the order in which items arrive.
    Bag(Row),
    /// One whose result is the order of arrival. It is read, and then refused.
    Arrival(ArrivalOperator),
}

/// An operator whose result is the order of arrival.
#[derive(Debug, Clone, Copy, PartialEq, Eq)]
pub enum ArrivalOperator {
    /// `buffer`
    Buffer,
    /// `collate`
    Collate,
    /// `distinct`
    Distinct,
    /// `merge`
    Merge,
    /// `randomSample`
    RandomSample,
    /// `take`
    Take,
    /// `until`
    Until,
}

/// Whether an operator's result is the order of arrival.
#[derive(Debug, Clone, Copy, PartialEq, Eq)]
pub enum Arrival {
    /// Of no channel.
    Never,
    /// Of a queue; a value channel has one item at most.
    OfQueue,
    /// Of any channel.
    Always,
}

impl ArrivalOperator {
    /// The name in a script.
    pub fn name(self) -> &'static str
        ensures { result.now ≡ arrival_name self }
    {
        match self {
            ArrivalOperator::Buffer => "buffer",
            ArrivalOperator::Collate => "collate",
            ArrivalOperator::Distinct => "distinct",
            ArrivalOperator::Merge => "merge",
            ArrivalOperator::RandomSample => "randomSample",
            ArrivalOperator::Take => "take",
            ArrivalOperator::Until => "until",
        }
    }
}

impl Operator {
    /// The name in a script.
    pub fn name(self) -> &'static str
        ensures { result.now ≡ operator_name self }
    {
        match self {
            Operator::Bag(row) => row.name(),
            Operator::Arrival(operator) => operator.name(),
        }
    }

    /// Whether its result is the order of arrival.
    pub fn arrival(self) -> Arrival
        ensures { result ≡ arrival_of self }
    {
        match self {
            Operator::Bag(Row::First | Row::Last) => Arrival::OfQueue,
            Operator::Bag(_) => Arrival::Never,
            Operator::Arrival(_) => Arrival::Always,
        }
    }
}
