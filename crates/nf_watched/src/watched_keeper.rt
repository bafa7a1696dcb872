//! `WatchedKeeper`: a keeper whose records are told to who watches.

ghost use Rattle.std.specs.Prelude.{◌≡◌};

use crate::watcher::Watcher;
use nf_keeper::{Keeper, KeeperRefusal};
use nf_value::{Bytes, Digest};
use std::alloc::Global;
use std::rt::Clock;
use std::sync::Wait;

/// Passes each call on to a keeper, and tells who watches of the records that it finds (own). It reveals what that
/// keeper reveals.
#[derive(Drop)]
pub struct WatchedKeeper<K, R> {
    inner: K,
    watcher: Watcher<R>,
}

impl<K, R> WatchedKeeper<K, R> {
    ghost use Rattle.nf_watched.specs.WatchedKeeper.{inner_of};

    /// Passes the calls on to this keeper. Takes no memory.
    pub fn new(inner: K, watcher: Watcher<R>) -> WatchedKeeper<K, R>
        ensures { inner_of result ≡ inner }
    {
        WatchedKeeper { inner, watcher }
    }
}

impl<K: Keeper, R: Wait + Clock + Eprint + AllocGlobal> Keeper for WatchedKeeper<K, R> {
    ghost use Rattle.nf_watched.specs.WatchedKeeper.{inner_of};

    ghost held = { λ k. K.held (inner_of k) };

    ghost faults = { λ k. K.faults (inner_of k) };

    fn get(&mut self, alloc: Global, key: &Digest) -> Result<Option<Bytes>, KeeperRefusal> {
        let answer = self.inner.get(alloc, key);
        if let Ok(Some(bytes)) = &answer {
            self.watcher.found(bytes.items());
        }
        answer
    }

    fn put(&mut self, key: &Digest, bytes: &[u8]) -> Result<(), KeeperRefusal> {
        self.inner.put(key, bytes)
    }

    fn faults(&self) -> u64 {
        self.inner.faults()
    }
}
