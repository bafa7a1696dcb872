//! What operators and sources take of their arguments, once it is known what these stand for.
#![tactic(auto)]

mod body;
mod calls;
pub mod laws;
mod paths;
mod shapes;
mod sources;
mod taken;
mod wanted;

pub use body::Body;
pub use calls::{operator_of, set_call};
pub use paths::{PathArgs, file_items, first_file};
pub use shapes::range_in;
pub use sources::source_wanted;
pub use taken::{Closing, Taken};
pub use wanted::{Alone, Wanted, wants};
