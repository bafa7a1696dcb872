//! Whether all names of an expression stand for what it may use, and all functions that it leads to are sound.
#![tactic(auto)]

mod around;
mod files;
mod judged;
mod names;
mod order;
mod patterns;
mod reading;
mod stuck;
mod uses;

pub use around::Around;
pub use files::holds_file;
pub use names::KnownScript;
pub use patterns::PatternTexts;
pub use reading::Reading;
