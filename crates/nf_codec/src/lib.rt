//! The code of values: `encode` writes a value as bytes, and `decode` reads it back.
#![tactic(auto)]

mod fault;
mod head;
pub mod laws;
mod number;
mod read;
mod write;

pub use fault::CodeFault;
pub use read::decode;
pub use write::{encode, encode_text};
