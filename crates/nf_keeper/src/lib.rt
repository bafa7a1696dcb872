//! `Keeper`, the trait of what keeps records from one run to the next: in files, in memory, and one that fails after some calls.
#![tactic(auto)]

mod file_keeper;
mod fuse_keeper;
mod keeper;
mod mem_keeper;
mod refusal;

pub use file_keeper::{FileKeeper, RECORD_LIMIT};
pub use fuse_keeper::FuseKeeper;
pub use keeper::Keeper;
pub use mem_keeper::MemKeeper;
pub use refusal::KeeperRefusal;
