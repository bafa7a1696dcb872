//! Why `decode` gives no value.

ghost use Rattle.std.specs.Prelude.{◌≡◌};
ghost use Rattle.nf_codec.specs.declared.fault.CodeFault.TheVariants as fault;

use nf_value::Mem;
use std::alloc::{AllocError, AllocFailed};
use thiserror::Error;

/// Why bytes can't be read as a value (own).
#[derive(Debug, Clone, Copy, PartialEq, Eq, Error)]
pub enum CodeFault {
    /// A value must begin at this byte, and none does; or a map's key must, and there is no text above the key before.
    #[error("NotAValue at {at}")]
    NotAValue {
        /// The count of bytes before it.
        at: usize,
    },
    /// A list or map at depth 65 begins at this byte.
    #[error("TooDeep at {at}")]
    TooDeep {
        /// The count of bytes before it.
        at: usize,
    },
    /// Out of memory.
    #[error("Mem")]
    Mem,
}

impl From<Mem> for CodeFault {
    ghost from_gives = { λ _ e. e ≡ fault.Mem };

    fn from(_error: Mem) -> CodeFault {
        CodeFault::Mem
    }
}

impl From<AllocError> for CodeFault {
    ghost from_gives = { λ _ e. e ≡ fault.Mem };

    fn from(_error: AllocError) -> CodeFault {
        CodeFault::Mem
    }
}

impl<T: Drop> From<AllocFailed<T>> for CodeFault {
    ghost from_gives = { λ _ e. e ≡ fault.Mem };

    fn from(_error: AllocFailed<T>) -> CodeFault {
        CodeFault::Mem
    }
}
