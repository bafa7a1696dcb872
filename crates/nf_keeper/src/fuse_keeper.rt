//! `FuseKeeper`: a keeper that fails after some calls, for tests.

ghost use Rattle.std.specs.Prelude.{◌≡◌, ◌≤◌, ◌+◌, ◌-◌, ◌^◌, ℕ, min, IfSome, IfOk, Err};
ghost use Rattle.std.specs.Bool.{OnTrue};
ghost use Rattle.nf_host.specs.Faults.{Rose};
ghost use Rattle.nf_keeper.specs.Faults.{OnFailed};
ghost use Rattle.nf_keeper.specs.Held.{Both, Leaves};

use crate::keeper::Keeper;
use crate::refusal::KeeperRefusal;
use nf_value::{Bytes, Digest};
use std::alloc::Global;

/// Passes some calls of `get` and `put` on to a keeper, and fails at each call after them (own). It reveals what that keeper reveals.
#[derive(Drop)]
pub struct FuseKeeper<K> {
    inner: K,
    calls: u64,
    front: Option<usize>,
    failed: u64,
}

impl<K: Keeper> FuseKeeper<K> {
    ghost use Rattle.nf_keeper.specs.FuseKeeper.{inner_of, calls_of, front_of, failed_of, FailsToPut};

    /// Passes so many calls on to the keeper. A `put` that fails after them puts the first `front` bytes of its own, or all if there
    /// are fewer; with no `front` it puts nothing. Takes no memory.
    pub fn new(inner: K, calls: u64, front: Option<usize>) -> FuseKeeper<K>
        ensures inner { inner_of result ≡ inner }
        ensures calls { calls_of result ≡ calls }
        ensures front { front_of result ≡ front }
        ensures failed { failed_of result ≡ 0 }
    {
        FuseKeeper {
            inner,
            calls,
            front,
            failed: 0,
        }
    }

    /// The keeper that the calls went to. Takes no memory.
    pub fn into_inner(self) -> K
        ensures { result ≡ inner_of self }
    {
        self.inner
    }

    fn fail(&mut self) -> KeeperRefusal
        ensures failed { result ≡ KeeperRefusal.Failed }
        ensures counted { self.new ≡ record self.old { failed = min (failed_of self.old + 1) (2 ^ 64 - 1) } }
    {
        self.failed = self.failed.saturating_add(1);
        KeeperRefusal::Failed
    }

    // Puts the front that a failing put leaves.
    fn put_front(&mut self, key: &Digest, bytes: &[u8])
        ensures calls { calls_of self.new ≡ calls_of self.old }
        ensures front { front_of self.new ≡ front_of self.old }
        ensures failed { failed_of self.new ≡ failed_of self.old }
        ensures later { K.faults (inner_of self.old) ≤ K.faults (inner_of self.new) }
        ensures content { FailsToPut K.held key.now.0 bytes.now self.old self.new }
    {
        let Some(len) = self.front else {
            return;
        };
        let front = &bytes[..len.min(bytes.len())];
        let _ = self.inner.put(key, front);
    }
}

impl<K: Keeper> Keeper for FuseKeeper<K> {
    ghost use Rattle.nf_keeper.specs.FuseKeeper.{calls_of, is_blown, front_of, failed_of, failed_after, held_of, count_of, FailsToPut};

    ghost held = { held_of K.held };

    ghost faults = { count_of K.faults };

    fn get(&mut self, alloc: Global, key: &Digest) -> Result<Option<Bytes>, KeeperRefusal>
        ensures later { count_of K.faults self.old ≤ count_of K.faults self.new }
        ensures cause { OnFailed result (Rose (count_of K.faults self.old) (count_of K.faults self.new)) }
        ensures same { held_of K.held self.new ≡ held_of K.held self.old }
        ensures content { IfSome (held_of K.held self.old) (λ m. IfOk result (λ o. o ≡ m key.now.0)) }

        // It fails exactly at the calls after those that it passes, or where the other keeper fails.
        ensures fails { OnTrue (is_blown self.old) (result ≡ Err KeeperRefusal.Failed) }
        ensures calls { calls_of self.new ≡ calls_of self.old - 1 }
        ensures counted { failed_of self.new ≡ failed_after self.old }
        ensures front { front_of self.new ≡ front_of self.old }
    {
        if self.calls == 0 {
            return Err(self.fail());
        }
        self.calls -= 1;
        self.inner.get(alloc, key)
    }

    fn put(&mut self, key: &Digest, bytes: &[u8]) -> Result<(), KeeperRefusal>
        ensures later { count_of K.faults self.old ≤ count_of K.faults self.new }
        ensures cause { OnFailed result (Rose (count_of K.faults self.old) (count_of K.faults self.new)) }
        ensures content { Both (held_of K.held self.old) (held_of K.held self.new) (Leaves key.now.0 bytes.now result) }

        // It fails exactly at the calls after those that it passes, or where the other keeper fails.
        ensures fails { OnTrue (is_blown self.old) (result ≡ Err KeeperRefusal.Failed) }
        ensures left { OnTrue (is_blown self.old) (FailsToPut K.held key.now.0 bytes.now self.old self.new) }
        ensures calls { calls_of self.new ≡ calls_of self.old - 1 }
        ensures counted { failed_of self.new ≡ failed_after self.old }
        ensures front { front_of self.new ≡ front_of self.old }
    {
        if self.calls == 0 {
            self.put_front(key, bytes);
            return Err(self.fail());
        }
        self.calls -= 1;
        self.inner.put(key, bytes)
    }

    fn faults(&self) -> u64 {
        self.inner.faults().saturating_add(self.failed)
    }
}
