//! What a person sees while a run goes on: how many tasks of each process are done, cached and running. No promise of a run rests on it.
#![tactic(auto)]

mod board;
mod counts;
mod pace;
mod screen;

pub use board::Board;
pub use counts::{Counts, Step};
pub use pace::is_due;
pub use screen::Screen;
