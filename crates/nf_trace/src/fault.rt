//! Why a text is no trace.

ghost use Rattle.std.specs.Prelude.{◌≡◌};
ghost use Rattle.nf_trace.specs.declared.fault.TraceFault.TheVariants as fault;

use nf_value::Mem;
use std::alloc::AllocFailed;
use thiserror::Error;

/// Why bytes can't be read as a trace (own).
#[derive(Debug, Clone, Copy, PartialEq, Eq, Error)]
pub enum TraceFault {
    /// This line is none of a trace, or it isn't there; lines are counted from 1, the header's.
    #[error("NotATrace line {line}")]
    NotATrace {
        /// The line's number.
        line: usize,
    },
    /// Out of memory.
    #[error("Mem")]
    Mem,
}

impl From<Mem> for TraceFault {
    ghost from_gives = { λ _ e. e ≡ fault.Mem };

    fn from(_error: Mem) -> TraceFault {
        TraceFault::Mem
    }
}

impl<T: Drop> From<AllocFailed<T>> for TraceFault {
    ghost from_gives = { λ _ e. e ≡ fault.Mem };

    fn from(_error: AllocFailed<T>) -> TraceFault {
        TraceFault::Mem
    }
}
