//! Subjects: how far a chain of properties, indexes and calls was evaluated.

use nf_value::{EvalFault, Place, Txt, Value};

/// What a call calls.
#[derive(Drop)]
pub(crate) enum Called {
    /// Nothing: a method of null after `?.`.
    Nothing,
    /// A method of a value, with the place of its name.
    Method(Value, Place, Txt),
    /// A function, with the place of its name.
    Function(Place, Txt),
    /// A function of `Math`, with the place of its name.
    Math(Place, Txt),
    /// A value, which can't be called, with the place where its arguments begin.
    Value(Place),
}

/// The front of a chain, evaluated as far as is known before the next part is read.
#[derive(Drop)]
pub(crate) enum Subject {
    /// A value that can't be called.
    Value(Value),
    /// A name.
    Name(Place, Txt),
    /// A value with `.name` after it, which isn't read yet.
    Property(Value, Place, Txt),
    /// A value with `?.name` after it, which isn't read yet.
    Safe(Value, Place, Txt),
    /// `Math.name`, which isn't read yet.
    Math(Place, Txt),
    /// A call, the number of its arguments (counting one more, the closure that may come next), and its result. It has no result yet where that closure
    /// comes next.
    Call(Called, usize, Option<Result<Value, EvalFault>>),
}

/// A call whose last argument is the closure that comes next.
#[derive(Drop)]
pub(crate) struct Waiting {
    /// What is called.
    pub(crate) callee: Called,
    /// The number of arguments, the closure among them.
    pub(crate) count: usize,
}
