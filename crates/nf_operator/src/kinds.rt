//! What kind of channel an operator gives.

ghost use Rattle.std.specs.Prelude.{◌≡◌};
ghost use Rattle.nf_operator.specs.Row.{output_kind as kind_of};

use nf_bag::Row;

/// What kind of channel the outputs of an operator are (Nextflow reference, "Operators": "Returns").
#[derive(Debug, Clone, Copy, PartialEq, Eq)]
pub enum OutputKind {
    /// A value channel.
    Value,
    /// A queue.
    Queue,
    /// A value channel if all inputs are value channels, else a queue (own).
    AsInputs,
}

/// The kind of an operator's outputs.
pub fn output_kind(row: Row) -> OutputKind
    ensures { result ≡ kind_of row }
{
    match row {
        Row::Collect | Row::Count | Row::Max | Row::Min => OutputKind::Value,
        Row::Reduce | Row::Sum | Row::ToList | Row::ToSortedList => OutputKind::Value,
        Row::Concat | Row::FlatMap | Row::Flatten => OutputKind::Queue,
        Row::Join | Row::Mix | Row::Transpose => OutputKind::Queue,
        _ => OutputKind::AsInputs,
    }
}
