//! The methods of values: texts, numbers, lists, maps and files. And the functions that a program adds.
#![tactic(auto)]

mod calls;
mod files;
mod items;
pub mod laws;
mod lists;
mod maps;
mod method;
mod natives;
mod numbers;
mod program;
mod rows;
mod totals;

pub use calls::call;
pub use method::Method;
pub use natives::{NativeBook, Natives, StoredNatives};
pub use nf_table::{Named, Table};
pub use nf_texts::CallFault;
pub use program::{ProgramBook, program_names, program_native};
pub use rows::{Builtin, Form, On, builtins};
