//! Whether a body goes on after a statement.

use nf_value::Value;

/// How a body goes on after a statement.
#[derive(Drop)]
pub(crate) enum Step {
    /// With the next statement. If there is none, this is the value of the body.
    Going(Value),
    /// It doesn't: this is the value of the body.
    Returned(Value),
}
