//! Parameters: `params_of` reads a file of them, and `params_over` says which of several wins.
#![tactic(auto)]

mod fault;
mod json;
mod pointer;
mod read;
mod winning;

pub use fault::ParamsFault;
pub use read::params_of;
pub use winning::params_over;
