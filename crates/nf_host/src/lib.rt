//! Files and child processes (`Host`) and where output goes (`Sink`): the traits, and each in memory and over the system.
#![tactic(auto)]

mod children;
mod copies;
mod folder;
mod fs_host;
mod host;
mod mem_files;
mod mem_host;
mod mem_sink;
mod shared_host;
mod sink;
mod status;
mod std_sink;
mod whole;

pub use children::{Child, UNKNOWN_STATUS};
pub use copies::{Digested, FILE_LIMIT, copy_file, digest_file, write_file};
pub use folder::path_in;
pub use fs_host::FsHost;
pub use host::{Host, HostRefusal, PIECE_LEN, Piece};
pub use mem_host::{MemHost, MemStart};
pub use mem_sink::MemSink;
pub use shared_host::SharedHost;
pub use sink::{Sink, SinkFailed};
pub use status::{NO_CODE_STATUS, status_of};
pub use std_sink::StdSink;
pub use whole::{Whole, read_whole};
