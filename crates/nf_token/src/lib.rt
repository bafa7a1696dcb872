//! The tokens of a script, and how they are spelled. The lexer reads them, the printer writes them, and trees keep the kinds of their
//! strings.
#![tactic(auto)]

mod list;
mod token;

pub use list::Tokens;
pub use token::{Keyword, Lexeme, Mark, PlainKind, TemplateKind, TextKind, Token};
