//! What a script defines, the forms of its expressions, and what its functions, processes and closures share with
//! others.
#![tactic(auto)]

mod closures;
mod definitions;
mod forms;
mod slips;

pub use closures::closure_kinds;
pub use definitions::{Definition, entry, find_definition, output_names};
pub use forms::{Form, facts, name_of, read_form};
pub use slips::{add_process, add_shared, add_shared_in};
