//! What a script is printed with: a `Writer` spells tokens, strings, blanks and line ends, and a `Margin` says where the parts of a
//! body stand.
#![tactic(auto)]

mod escapes;
mod layout;
mod spellings;
mod writer;

pub use layout::Margin;
pub use writer::Writer;
