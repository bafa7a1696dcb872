//! The lexer: the tokens of a script, or the rule of the tokens that it breaks first.
#![tactic(auto)]

mod code;
mod comment;
mod escape;
mod fault;
mod front;
mod joiner;
pub mod laws;
mod lexer;
mod marks;
mod open;
mod place;
mod quoted;
mod settler;
mod word;

pub use fault::LexFault;
pub use lexer::tokens;
