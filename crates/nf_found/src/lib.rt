//! The files that a script's sources read: for each path those that match it, digested and stored.
#![tactic(auto)]

mod all;
mod files;
mod found;
mod refusal;

pub use all::all_found;
pub use found::Found;
pub use refusal::FoundRefusal;
