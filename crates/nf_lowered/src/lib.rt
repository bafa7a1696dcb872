//! What the parts of lowering share: what their answers owe the meaning of a script, and where expressions begin.
#![tactic(auto)]

mod expressions;

pub use expressions::begins_at;
