//! Why a keeper gave no answer.

ghost use Rattle.std.specs.Prelude.{◌≡◌};
ghost use Rattle.nf_keeper.specs.Faults.{refusal_of};
ghost use Rattle.nf_keeper.specs.declared.refusal.KeeperRefusal.TheVariants as refusal;

use nf_host::HostRefusal;
use nf_value::Mem;
use std::alloc::{AllocError, AllocFailed};
use thiserror::Error;

/// Why a keeper gave no answer (own).
#[derive(Debug, Drop, Clone, Copy, PartialEq, Eq, Error)]
pub enum KeeperRefusal {
    /// The keeper failed, and counted it.
    #[error("Failed")]
    Failed,
    /// Out of memory.
    #[error("Mem")]
    Mem,
}

impl From<Mem> for KeeperRefusal {
    ghost from_gives = { λ _ e. e ≡ refusal.Mem };

    fn from(_error: Mem) -> KeeperRefusal {
        KeeperRefusal::Mem
    }
}

impl From<HostRefusal> for KeeperRefusal {
    ghost from_gives = { λ r e. e ≡ refusal_of r };

    fn from(error: HostRefusal) -> KeeperRefusal {
        match error {
            HostRefusal::Failed => KeeperRefusal::Failed,
            HostRefusal::Mem => KeeperRefusal::Mem,
        }
    }
}

impl From<AllocError> for KeeperRefusal {
    ghost from_gives = { λ _ e. e ≡ refusal.Mem };

    fn from(_error: AllocError) -> KeeperRefusal {
        KeeperRefusal::Mem
    }
}

impl<T: Drop> From<AllocFailed<T>> for KeeperRefusal {
    ghost from_gives = { λ _ e. e ≡ refusal.Mem };

    fn from(_error: AllocFailed<T>) -> KeeperRefusal {
        KeeperRefusal::Mem
    }
}
