//! The values of scripts: their order, text, truth, depth and weight; and the places and faults that all layers share.
#![tactic(auto)]

mod bytes;
mod fault;
mod file;
pub mod laws;
mod list;
mod map;
mod measure;
mod mem;
mod order;
mod place;
mod print;
mod text;
mod value;

pub use bytes::Bytes;
pub use fault::{EvalFault, EvalKind, EvalRefusal};
pub use file::{Digest, FileBox, FileRef};
pub use list::Vals;
pub use map::{Pairs, is_rising};
pub use measure::{depth, truth, weight};
pub use mem::Mem;
pub use place::Place;
pub use print::text_of;
pub use text::Txt;
pub use value::Value;
