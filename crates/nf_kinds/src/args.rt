//! Arguments, and what a closure is to an operator.

ghost use Rattle.std.specs.Prelude.{◌≡◌};
ghost use Rattle.nf_kinds.specs.Args as spec;

use crate::kinds::Shape;
use nf_value::Txt;
use std::marker::Model;

/// What a closure is to an operator. Contracts see `Facts`.
pub struct ClosureFacts {
    labels: Vec<Txt>,
    name: Option<Txt>,
    is_total: bool,
}

impl Drop for ClosureFacts {
    fn drop(self) {
        let ClosureFacts {
            labels: _,
            name: _,
            is_total: _,
        } = self;
    }
}

impl Model for ClosureFacts {
    ghost use Rattle.nf_kinds.specs.Facts.{Facts};

    ghost Value = { Facts };

    ghost view = { λ f. record { labels = f.labels.items; name = f.name; is_total = f.is_total } };
}

impl ClosureFacts {
    /// A closure with these labels, which is just this name if there is one, and may be one that `reduce` takes.
    pub fn new(labels: Vec<Txt>, name: Option<Txt>, is_total: bool) -> ClosureFacts
        ensures { result ≡ record { labels = labels.items; name = name; is_total = is_total } }
    {
        ClosureFacts {
            labels,
            name,
            is_total,
        }
    }

    /// Its labels.
    pub fn labels(&self) -> &[Txt]
        ensures { result.now ≡ self.now.labels }
    {
        &self.labels
    }

    /// The name that it is.
    pub fn name(&self) -> &Option<Txt>
        ensures { result.now ≡ self.now.name }
    {
        &self.name
    }

    /// Whether `reduce` takes it.
    pub fn is_total(&self) -> bool
        ensures { result ≡ self.now.is_total }
    {
        self.is_total
    }
}

/// An argument.
#[derive(Drop)]
pub struct Given {
    /// The name before its colon.
    pub option: Option<Txt>,
    /// What it may be, with its outputs.
    pub shape: Shape,
    /// The closure that it is.
    pub closure: Option<ClosureFacts>,
}

/// Whether any argument is unknown.
pub fn any_unknown(args: &[Given]) -> bool
    ensures { result ≡ spec.any_unknown args.now }
{
    args.iter().any(|given| given.shape.kinds().unknown)
}

/// Whether any argument may be a queue.
pub fn any_queue(args: &[Given]) -> bool
    ensures { result ≡ spec.any_queue args.now }
{
    args.iter().any(|given| given.shape.kinds().queue)
}
