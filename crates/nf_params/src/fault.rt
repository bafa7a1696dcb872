//! Why a file gives no parameters.

ghost use Rattle.std.specs.Prelude.{◌≡◌};
ghost use Rattle.nf_params.specs.declared.fault.ParamsFault.TheVariants as fault;

use nf_value::{Mem, Txt};
use std::alloc::{AllocError, AllocFailed};

/// Why the bytes of a file give no parameters (own).
#[derive(Drop)]
pub enum ParamsFault {
    /// They aren't JSON, or their value is no object: then the pointer is empty. Or the value at the pointer (RFC 6901) is a number that
    /// isn't one of 64 signed bits, or lies deeper than 64.
    BadParams {
        /// Which value it is.
        pointer: Txt,
    },
    /// Out of memory.
    Mem,
}

impl From<Mem> for ParamsFault {
    ghost from_gives = { λ _ e. e ≡ fault.Mem };

    fn from(_error: Mem) -> ParamsFault {
        ParamsFault::Mem
    }
}

impl From<AllocError> for ParamsFault {
    ghost from_gives = { λ _ e. e ≡ fault.Mem };

    fn from(_error: AllocError) -> ParamsFault {
        ParamsFault::Mem
    }
}

impl<T: Drop> From<AllocFailed<T>> for ParamsFault {
    ghost from_gives = { λ _ e. e ≡ fault.Mem };

    fn from(_error: AllocFailed<T>) -> ParamsFault {
        ParamsFault::Mem
    }
}
