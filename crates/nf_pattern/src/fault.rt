//! Why a regular expression can't be built.

ghost use Rattle.std.specs.Prelude.{◌≡◌};
ghost use Rattle.nf_pattern.specs.declared.fault.PatternFault.TheVariants.{Mem as NoMemory};

use nf_value::Mem;
use thiserror::Error;

/// Why a regular expression can't be used (own).
#[derive(Debug, Clone, Copy, PartialEq, Eq, Error)]
pub enum PatternFault {
    /// Its text is no regular expression, or nests too deep.
    #[error("NoPattern")]
    NoPattern,
    /// Built, it would be too large.
    #[error("TooLarge")]
    TooLarge,
    /// Want of memory.
    #[error("Mem")]
    Mem,
}

impl From<Mem> for PatternFault {
    ghost from_gives = { λ _ e. e ≡ NoMemory };

    fn from(_error: Mem) -> PatternFault {
        PatternFault::Mem
    }
}
