//! The trait `Sink`: where output goes.

ghost use Rattle.std.specs.Prelude.{◌≡◌, ◌≤◌, ◌++◌, ◌↔◌, ℕ, List, IsSome, IfSome, OnOk, OnErr};
ghost use Rattle.std.specs.declared.option.Option.{Option};
ghost use Rattle.nf_host.specs.Faults.{Rose};
ghost use Rattle.nf_host.specs.Sink.{GrowsByFront};

use thiserror::Error;

/// A sink didn't take all the bytes. It counted the failure (own).
#[derive(Debug, Drop, Clone, Copy, PartialEq, Eq, Error)]
#[error("SinkFailed")]
pub struct SinkFailed;

/// Takes bytes in order, outside the program (own).
///
/// A sink may reveal the bytes that it took. If it does, a write adds exactly its piece; otherwise nothing is known of them.
pub trait Sink {
    /// All bytes so far, if the sink reveals them.
    ghost written: { Self → Option (List ℕ) };

    /// How often the sink has failed. The count stops at 2^64 - 1.
    ghost faults: { Self → ℕ };

    /// Adds the bytes of `piece` at the end.
    ///
    /// # Errors
    ///
    /// `SinkFailed` if the sink failed in this call; it counted that. It may have taken the front of the piece.
    fn write(&mut self, piece: &[u8]) -> Result<(), SinkFailed>
        ensures later { faults self.old ≤ faults self.new }
        ensures cause { OnErr result (Rose (faults self.old) (faults self.new)) }
        ensures told { IsSome (written self.new) ↔ IsSome (written self.old) }
        ensures front { IfSome (written self.old) (λ before. IfSome (written self.new) (λ after. GrowsByFront before piece.now after)) }
        ensures all { IfSome (written self.old) (λ before. IfSome (written self.new) (λ after. OnOk result (after ≡ before ++ piece.now))) };

    /// How often the sink has failed, at most 2^64 - 1.
    fn faults(&self) -> u64
        ensures { result ≡ faults self.now };
}
