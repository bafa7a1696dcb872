//! Why a script has no meaning.

ghost use Rattle.std.specs.Prelude.{◌≡◌, Some};
ghost use Rattle.nf_meaning.specs.Fault.{fault_text, place_in};
ghost use Rattle.nf_meaning.specs.declared.fault.LowerFault.TheVariants.{Mem};

use nf_value::{EvalFault, Place};
use std::alloc::{AllocError, AllocFailed};
use std::fmt;

/// Why a script that keeps the rules of order has no meaning all the same (own). Of several faults the first counts,
/// along the calls from the entry workflow: at a call first its name, then its arguments in order, then the definition
/// that it calls. The definitions at the top come before all bodies. Displayed by its name, as `UnknownName`;
/// `ParamFault` with the name of its kind after it.
#[derive(Debug, Clone, Copy, PartialEq, Eq)]
pub enum LowerFault {
    /// Nothing binds the name, there is no such source or operator, or a call hasn't the output.
    UnknownName {
        /// The place of the name, or of an index's bracket.
        place: Place,
    },
    /// The name is defined a second time, the workflow is a second one without a name, or its process or workflow is
    /// called a second time in one body.
    TwiceDefined {
        /// The place of the second name; of the second workflow's first word.
        place: Place,
    },
    /// The call leads back to the workflow or function that it stands in.
    CallCycle {
        /// The place of the name that is called.
        place: Place,
    },
    /// A process, workflow, source or operator gets another number of arguments than it takes.
    WrongArity {
        /// The place of the name that is called.
        place: Place,
    },
    /// An argument, an option or a directive is of another kind than is wanted, or a form of scripts isn't supported
    /// here.
    BadOption {
        /// The place of the option's, directive's or operator's name, or where the argument begins.
        place: Place,
    },
    /// There is no workflow without a name.
    NoEntry {
        /// The first line and column.
        place: Place,
    },
    /// An expression that is evaluated before the run has this fault.
    ParamFault(EvalFault),
    /// The pattern isn't one.
    PatternRefused {
        /// The place of the pattern.
        place: Place,
    },
    /// The pattern is too large.
    PatternTooLarge {
        /// The place of the pattern.
        place: Place,
    },
    /// The script has more than 65,536 sources, calls and values that are given as channels, or these have more than
    /// 65,536 channels as arguments.
    TooManyNodes {
        /// The place of the call's name, or of the value that is given as a channel.
        place: Place,
    },
    /// Out of memory.
    Mem,
}

impl LowerFault {
    /// The place of the fault in the script; want of memory has none.
    pub fn place(self) -> Option<Place>
        ensures { result ≡ place_in self }
    {
        match self {
            LowerFault::UnknownName { place }
            | LowerFault::TwiceDefined { place }
            | LowerFault::CallCycle { place }
            | LowerFault::WrongArity { place }
            | LowerFault::BadOption { place }
            | LowerFault::NoEntry { place }
            | LowerFault::PatternRefused { place }
            | LowerFault::PatternTooLarge { place }
            | LowerFault::TooManyNodes { place } => Some(place),
            LowerFault::ParamFault(fault) => Some(fault.place),
            LowerFault::Mem => None,
        }
    }
}

impl fmt::Display for LowerFault {
    ghost output = { λ f. Some (fault_text f) };

    fn fmt<W: fmt::Write>(&self, f: &mut fmt::Formatter<W>) -> fmt::Result {
        match self {
            LowerFault::UnknownName { .. } => write!(f, "UnknownName"),
            LowerFault::TwiceDefined { .. } => write!(f, "TwiceDefined"),
            LowerFault::CallCycle { .. } => write!(f, "CallCycle"),
            LowerFault::WrongArity { .. } => write!(f, "WrongArity"),
            LowerFault::BadOption { .. } => write!(f, "BadOption"),
            LowerFault::NoEntry { .. } => write!(f, "NoEntry"),
            LowerFault::ParamFault(fault) => {
                let kind = fault.kind;
                write!(f, "ParamFault {kind}")
            }
            LowerFault::PatternRefused { .. } => write!(f, "PatternRefused"),
            LowerFault::PatternTooLarge { .. } => write!(f, "PatternTooLarge"),
            LowerFault::TooManyNodes { .. } => write!(f, "TooManyNodes"),
            LowerFault::Mem => write!(f, "Mem"),
        }
    }
}

impl From<nf_value::Mem> for LowerFault {
    ghost from_gives = { λ _ e. e ≡ Mem };

    fn from(_error: nf_value::Mem) -> LowerFault {
        LowerFault::Mem
    }
}

impl From<AllocError> for LowerFault {
    ghost from_gives = { λ _ e. e ≡ Mem };

    fn from(_error: AllocError) -> LowerFault {
        LowerFault::Mem
    }
}

impl<T: Drop> From<AllocFailed<T>> for LowerFault {
    ghost from_gives = { λ _ e. e ≡ Mem };

    fn from(_error: AllocFailed<T>) -> LowerFault {
        LowerFault::Mem
    }
}
