//! `WatchedSink`: a sink before whose first bytes the line is erased.

ghost use Rattle.std.specs.Prelude.{◌≡◌};

use crate::watcher::Watcher;
use nf_host::{Sink, SinkFailed};
use std::rt::Clock;
use std::sync::Wait;

/// Passes each call on to a sink. Before it the line of who watches is erased, and none is drawn any more (own). It
/// reveals what that sink reveals.
#[derive(Drop)]
pub struct WatchedSink<S, R> {
    inner: S,
    watcher: Watcher<R>,
}

impl<S, R> WatchedSink<S, R> {
    ghost use Rattle.nf_watched.specs.WatchedSink.{inner_of};

    /// Passes the calls on to this sink. Takes no memory.
    pub fn new(inner: S, watcher: Watcher<R>) -> WatchedSink<S, R>
        ensures { inner_of result ≡ inner }
    {
        WatchedSink { inner, watcher }
    }
}

impl<S: Sink, R: Wait + Clock + Eprint + AllocGlobal> Sink for WatchedSink<S, R> {
    ghost use Rattle.nf_watched.specs.WatchedSink.{inner_of};

    ghost written = { λ s. S.written (inner_of s) };

    ghost faults = { λ s. S.faults (inner_of s) };

    fn write(&mut self, piece: &[u8]) -> Result<(), SinkFailed> {
        self.watcher.close();
        self.inner.write(piece)
    }

    fn faults(&self) -> u64 {
        self.inner.faults()
    }
}
