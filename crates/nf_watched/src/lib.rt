//! Lanes, a keeper and a sink that tell a person how far a run is, while they pass each call on to others.
#![tactic(auto)]

mod left;
mod watched_keeper;
mod watched_lane;
mod watched_sink;
mod watcher;

pub use watched_keeper::WatchedKeeper;
pub use watched_lane::WatchedLane;
pub use watched_sink::WatchedSink;
pub use watcher::Watcher;
