//! Why a script has no tokens.

ghost use Rattle.std.specs.Prelude.{◌≡◌, Some};
ghost use Rattle.nf_lexer.specs.Fault.{fault_text};
ghost use Rattle.nf_lexer.specs.declared.fault.LexFault.TheVariants as fault;

use nf_value::Place;
use std::alloc::{AllocError, AllocFailed};
use std::fmt;

/// The rule of the tokens that a script breaks first, read from left to right (own), or want of memory. Displayed as `LINE:COL: NAME`.
#[derive(Debug, Clone, Copy, PartialEq, Eq)]
pub enum LexFault {
    /// A byte that isn't UTF-8, at the first byte of the broken sequence; a character past ASCII outside strings, templates, patterns and
    /// comments; or an ASCII byte that begins no token.
    BadByte { place: Place },
    /// A string, pattern or template that is still open where its line or the script ends, at its opening. Of several the outermost.
    OpenString { place: Place },
    /// A `/*` without its `*/`, at the `/*`. A template that is open round it is `OpenString`.
    OpenComment { place: Place },
    /// A backslash that begins no escape, at the backslash.
    BadEscape { place: Place },
    /// A number above 9223372036854775807, at its first digit.
    BigNumber { place: Place },
    /// More than 1,048,576 bytes. Displayed with the place 1:1.
    ScriptTooLong,
    /// There was no memory for the tokens.
    Mem,
}

impl fmt::Display for LexFault {
    ghost output = { λ f. Some (fault_text f) };

    fn fmt<W: fmt::Write>(&self, f: &mut fmt::Formatter<W>) -> fmt::Result {
        match self {
            LexFault::BadByte { place } => write!(f, "{place}: BadByte"),
            LexFault::OpenString { place } => write!(f, "{place}: OpenString"),
            LexFault::OpenComment { place } => write!(f, "{place}: OpenComment"),
            LexFault::BadEscape { place } => write!(f, "{place}: BadEscape"),
            LexFault::BigNumber { place } => write!(f, "{place}: BigNumber"),
            LexFault::ScriptTooLong => write!(f, "1:1: ScriptTooLong"),
            LexFault::Mem => write!(f, "Mem"),
        }
    }
}

impl From<nf_value::Mem> for LexFault {
    ghost from_gives = { λ _ e. e ≡ fault.Mem };

    fn from(_error: nf_value::Mem) -> LexFault {
        LexFault::Mem
    }
}

impl From<AllocError> for LexFault {
    ghost from_gives = { λ _ e. e ≡ fault.Mem };

    fn from(_error: AllocError) -> LexFault {
        LexFault::Mem
    }
}

impl<T: Drop> From<AllocFailed<T>> for LexFault {
    ghost from_gives = { λ _ e. e ≡ fault.Mem };

    fn from(_error: AllocFailed<T>) -> LexFault {
        LexFault::Mem
    }
}
