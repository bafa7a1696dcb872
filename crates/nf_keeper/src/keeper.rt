//! The trait `Keeper`, which keeps bytes by keys.

ghost use Rattle.std.specs.Prelude.{◌≡◌, ◌≤◌, ℕ, IfSome, IfOk};
ghost use Rattle.std.specs.declared.option.Option.{Option};
ghost use Rattle.nf_host.specs.Faults.{Rose};
ghost use Rattle.nf_keeper.specs.Faults.{OnFailed};
ghost use Rattle.nf_keeper.specs.Held.{Held, Both, Leaves};

use crate::refusal::KeeperRefusal;
use nf_value::{Bytes, Digest};
use std::alloc::Global;

/// Keeps bytes by keys, from one run to the next (own). A run keeps the record of each task that ended well at its job's key.
///
/// A keeper may reveal what it holds. If it does, a `get` gives exactly that; otherwise nothing is known of the bytes.
pub trait Keeper {
    /// The bytes at each key, if the keeper reveals them.
    ghost held: { Self → Option Held };

    /// How often the keeper has failed. The count stops at 2^64 - 1.
    ghost faults: { Self → ℕ };

    /// The bytes at the key. `None` exactly if nothing is held there. What is held doesn't change.
    ///
    /// # Errors
    ///
    /// `Failed` if the keeper failed in this call; it counted that. `Mem` if there is no memory for the bytes.
    fn get(&mut self, alloc: Global, key: &Digest) -> Result<Option<Bytes>, KeeperRefusal>
        ensures later { faults self.old ≤ faults self.new }
        ensures cause { OnFailed result (Rose (faults self.old) (faults self.new)) }
        ensures same { held self.new ≡ held self.old }
        ensures content { IfSome (held self.old) (λ m. IfOk result (λ o. o ≡ m key.now.0)) };

    /// Holds the bytes at the key, in the place of those that are held there.
    ///
    /// # Errors
    ///
    /// `Failed` if the keeper failed in this call; it counted that. `Mem` if there is no memory for the bytes. After an error, as
    /// after a stop of the program within the call, either all is as it was, or the key holds some front of the bytes.
    fn put(&mut self, key: &Digest, bytes: &[u8]) -> Result<(), KeeperRefusal>
        ensures later { faults self.old ≤ faults self.new }
        ensures cause { OnFailed result (Rose (faults self.old) (faults self.new)) }
        ensures content { Both (held self.old) (held self.new) (Leaves key.now.0 bytes.now result) };

    /// How often the keeper has failed, at most 2^64 - 1.
    fn faults(&self) -> u64
        ensures { result ≡ faults self.now };
}
