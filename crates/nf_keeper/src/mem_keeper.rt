//! `MemKeeper`: what is kept, in memory, for tests.

ghost use Rattle.std.specs.Prelude.{◌≡◌, ◌≤◌, ℕ, List, Some, IfOk, OnOk, OnErr};
ghost use Rattle.nf_host.specs.Faults.{Rose};
ghost use Rattle.nf_keeper.specs.Faults.{OnFailed};
ghost use Rattle.nf_keeper.specs.Held.{nothing_held, HoldTheSame, IsPut, Leaves};

use crate::keeper::Keeper;
use crate::refusal::KeeperRefusal;
use nf_value::{Bytes, Digest};
use std::alloc::Global;
use std::collections::BTreeMap;

/// Keeps bytes in memory. It reveals them, and never fails (own).
pub struct MemKeeper {
    held: BTreeMap<[u8; 32], Bytes>,
    alloc: Global,
}

impl Drop for MemKeeper {
    fn drop(self) {
        let MemKeeper { held: _, alloc: _ } = self;
    }
}

impl MemKeeper {
    ghost use Rattle.nf_keeper.specs.MemKeeper.{held_of};

    /// A keeper that holds nothing. Takes no memory.
    pub fn new(alloc: Global) -> MemKeeper
        ensures { HoldTheSame nothing_held (held_of result) }
    {
        MemKeeper {
            held: BTreeMap::new(alloc),
            alloc,
        }
    }
}

impl Keeper for MemKeeper {
    ghost use Rattle.nf_keeper.specs.MemKeeper.{held_of};

    ghost held = { λ k. Some (held_of k) };

    ghost faults = { λ _. 0 };

    fn get(&mut self, alloc: Global, key: &Digest) -> Result<Option<Bytes>, KeeperRefusal>
        ensures never { OnFailed result ⊥ }
        ensures same { held_of self.new ≡ held_of self.old }
        ensures content { IfOk result (λ o. o ≡ held_of self.old key.now.0) }
    {
        match self.held.get(&key.0) {
            None => Ok(None),
            Some(bytes) => Ok(Some(Bytes::of(Vec::from_slice(alloc, bytes.items())?))),
        }
    }

    fn put(&mut self, key: &Digest, bytes: &[u8]) -> Result<(), KeeperRefusal>
        ensures never { OnFailed result ⊥ }
        ensures ok { OnOk result (IsPut (held_of self.old) key.now.0 bytes.now (held_of self.new)) }
        ensures err { OnErr result (HoldTheSame (held_of self.old) (held_of self.new)) }
    {
        let copy = Bytes::of(Vec::from_slice(self.alloc, bytes)?);
        self.held.insert(key.0, copy)?;
        Ok(())
    }

    fn faults(&self) -> u64 {
        0
    }
}
