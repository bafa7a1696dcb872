//! Why tokens can't be parsed.

ghost use Rattle.nf_exprs.specs.declared.fault.Fault.TheVariants.{Mem};
ghost use Rattle.std.specs.Prelude.{◌≡◌};

use nf_value::Place;
use std::alloc::{AllocError, AllocFailed};

/// Why a part can't be parsed. A place is told by the number of tokens that are left there.
#[derive(Debug, Clone, Copy, PartialEq, Eq)]
pub enum Fault {
    /// The farthest place that a reading reaches: the next token can't follow.
    Unexpected(usize),
    /// The first place where a reading passes a limit.
    TooDeep(usize),
    /// There was no memory for the tree.
    Mem,
}

impl From<nf_value::Mem> for Fault {
    ghost from_gives = { λ _ e. e ≡ Mem };

    fn from(_error: nf_value::Mem) -> Fault {
        Fault::Mem
    }
}

impl From<AllocError> for Fault {
    ghost from_gives = { λ _ e. e ≡ Mem };

    fn from(_error: AllocError) -> Fault {
        Fault::Mem
    }
}

impl<T: Drop> From<AllocFailed<T>> for Fault {
    ghost from_gives = { λ _ e. e ≡ Mem };

    fn from(_error: AllocFailed<T>) -> Fault {
        Fault::Mem
    }
}

/// Why tokens can't be parsed (own).
#[derive(Debug, Clone, Copy, PartialEq, Eq)]
pub enum ParseFault {
    /// The tokens can be read up to here, and no further.
    Unexpected {
        /// The place of the first token that can't follow, or of the script's end.
        place: Place,
    },
    /// A reading passes a limit, and none does before.
    TooDeep {
        /// The place of the first token past the limit.
        place: Place,
    },
    /// There was no memory for the tree.
    Mem,
}
