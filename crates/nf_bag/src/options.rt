//! The options of operators.

ghost use Rattle.std.specs.Prelude.{◌≡◌, IfOk};

use nf_value::{Mem, Value};

/// The kinds of closure that `reduce` takes, by their result (Nextflow reference, "Operators: reduce"; these five are own).
#[derive(Debug, Clone, Copy, PartialEq, Eq)]
pub enum Total {
    /// The sum of all items.
    Sum,
    /// The least item.
    Least,
    /// The greatest item.
    Greatest,
    /// Whether all are true.
    All,
    /// Whether any is true.
    Any,
}

/// The options of an operator. An operator ignores the fields that aren't its own.
#[derive(Drop)]
pub struct OpOpts {
    /// `by:` of `join`, `combine` and `groupTuple`: the place of the key in a tuple, from 0.
    pub by: Option<u32>,
    /// `remainder:` of `join`: whether items without a partner are emitted too.
    pub remainder: bool,
    /// `sort:` of `groupTuple`: whether its lists are sorted. (`collect` always sorts.)
    pub sort: bool,
    /// `flat:` of `collect`: whether an item that is a list is replaced by its items.
    pub flat: bool,
    /// The initial value of `reduce`, or the value of `ifEmpty`.
    pub start: Option<Value>,
    /// The kind of the closure of `reduce`.
    pub total: Total,
    /// The number of labels of `branch` and `multiMap`.
    pub outs: u32,
}

impl OpOpts {
    /// A copy.
    ///
    /// # Errors
    ///
    /// `Mem` if there is no memory for the copy of `start`.
    pub fn copy(&self) -> Result<OpOpts, Mem>
        ensures { IfOk result (λ o. o ≡ self.now) }
    {
        Ok(OpOpts {
            by: self.by,
            remainder: self.remainder,
            sort: self.sort,
            flat: self.flat,
            start: copy_start(&self.start)?,
            total: self.total,
            outs: self.outs,
        })
    }
}

/// A copy of an initial value, if there is one.
fn copy_start(start: &Option<Value>) -> Result<Option<Value>, Mem>
    ensures { IfOk result (λ o. o ≡ start.now) }
{
    match start {
        Some(value) => Ok(Some(value.copy()?)),
        None => Ok(None),
    }
}
