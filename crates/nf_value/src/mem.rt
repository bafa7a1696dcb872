//! Want of memory.

ghost use Rattle.std.specs.Prelude.{◌≡◌};
ghost use Rattle.nf_value.specs.Mem.{mem};

use std::alloc::{AllocError, AllocFailed};
use thiserror::Error;

/// An allocation failed (own). Displayed as `Mem`.
#[derive(Debug, Drop, Clone, Copy, PartialEq, Eq, Error)]
#[error("Mem")]
pub struct Mem;

impl From<AllocError> for Mem {
    ghost from_gives = { λ _ m. m ≡ mem };

    fn from(_error: AllocError) -> Mem {
        Mem
    }
}

impl<T: Drop> From<AllocFailed<T>> for Mem {
    ghost from_gives = { λ _ m. m ≡ mem };

    fn from(_error: AllocFailed<T>) -> Mem {
        Mem
    }
}
