//! Steps of the walk through a script, once it is known what their arguments stand for: operators and `set`, sources and `file`.
#![tactic(auto)]

mod calls;
mod counts;
mod files;
mod items;
mod sets;
mod sources;
mod taking;

pub use calls::apply_taken;
pub use counts::{begin_operator, begin_set, count_each, unnamed_of};
pub use files::{found_file, found_files, found_pairs, path_named};
pub use items::{items_in, range_items, values_in};
pub use nf_taken as taken;
pub use sets::{name_channel, name_outputs};
pub use sources::give_source;
pub use taking::{body_at, take_alone, take_named};
