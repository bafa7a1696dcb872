//! The error of a call.

ghost use Rattle.std.specs.Prelude.{◌≡◌};
ghost use Rattle.nf_texts.specs.declared.fault.CallFault.TheVariants.{Kind as OfKind, Mem as NoMemory};

use nf_value::{EvalKind, Mem};
use std::alloc::{AllocError, AllocFailed};
use thiserror::Error;

/// Why a call has no value (own).
#[derive(Debug, Clone, Copy, PartialEq, Eq, Error)]
pub enum CallFault {
    /// The fault of the call itself.
    #[error("{0}")]
    Kind(EvalKind),
    /// There was no memory for the value.
    #[error("Mem")]
    Mem,
}

impl From<EvalKind> for CallFault {
    ghost from_gives = { λ k e. e ≡ OfKind k };

    fn from(kind: EvalKind) -> CallFault {
        CallFault::Kind(kind)
    }
}

impl From<Mem> for CallFault {
    ghost from_gives = { λ _ e. e ≡ NoMemory };

    fn from(_error: Mem) -> CallFault {
        CallFault::Mem
    }
}

impl From<AllocError> for CallFault {
    ghost from_gives = { λ _ e. e ≡ NoMemory };

    fn from(_error: AllocError) -> CallFault {
        CallFault::Mem
    }
}

impl<T: Drop> From<AllocFailed<T>> for CallFault {
    ghost from_gives = { λ _ e. e ≡ NoMemory };

    fn from(_error: AllocFailed<T>) -> CallFault {
        CallFault::Mem
    }
}
