//! `ShellLane`: runs jobs as scripts of a shell, each in a folder of its own, over a host.
//!
//! A job's folder is `WORK/` and its key, the first two hexadecimal digits, a slash and the other 62. The bytes of each file
//! stand in the file store, at `WORK/.files/` and their digest in the same form.
#![tactic(auto)]

mod damage;
mod done;
mod folder;
mod look;
mod outputs;
mod run;
mod seen;
mod shell_lane;
mod staged;
mod store;

pub use damage::Damage;
pub use done::ShellDone;
pub use outputs::is_output;
pub use seen::ShellSeen;
pub use shell_lane::ShellLane;
pub use store::{
    Stored, found_digest, has_digest, is_in_store, job_folder, store_file, stored_path,
};
