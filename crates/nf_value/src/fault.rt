//! Why an expression has no value.

ghost use Rattle.std.specs.Prelude.{◌≡◌, Some};
ghost use Rattle.nf_value.specs.Fault.{kind_text};
ghost use Rattle.nf_value.specs.declared.fault.EvalRefusal.TheVariants.{Mem};

use crate::mem;
use crate::place::Place;
use std::alloc::{AllocError, AllocFailed};
use std::fmt;

/// The kind of an expression's fault (own). Displayed by its name, as `DivZero`.
#[derive(Debug, Clone, Copy, PartialEq, Eq)]
pub enum EvalKind {
    /// A result isn't a signed number of 64 bits.
    Overflow = 1,
    /// The operation doesn't take values of this kind.
    WrongKind = 2,
    /// The value has no property of that name.
    NoProperty = 3,
    /// The divisor is 0.
    DivZero = 4,
    /// A value would weigh more than 16,777,216 (`weight`).
    TooLarge = 5,
    /// A value would be deeper than 64 (`depth`).
    TooDeep = 6,
    /// The value has no method of that name.
    NoMethod = 7,
    /// The method takes another number of arguments.
    Arity = 8,
    /// The text isn't a number.
    NotNumber = 9,
    /// A native function has no answer for these arguments.
    Native = 10,
}

impl fmt::Display for EvalKind {
    ghost output = { λ k. Some (kind_text k) };

    fn fmt<W: fmt::Write>(&self, f: &mut fmt::Formatter<W>) -> fmt::Result {
        match self {
            EvalKind::Overflow => write!(f, "Overflow"),
            EvalKind::WrongKind => write!(f, "WrongKind"),
            EvalKind::NoProperty => write!(f, "NoProperty"),
            EvalKind::DivZero => write!(f, "DivZero"),
            EvalKind::TooLarge => write!(f, "TooLarge"),
            EvalKind::TooDeep => write!(f, "TooDeep"),
            EvalKind::NoMethod => write!(f, "NoMethod"),
            EvalKind::Arity => write!(f, "Arity"),
            EvalKind::NotNumber => write!(f, "NotNumber"),
            EvalKind::Native => write!(f, "Native"),
        }
    }
}

/// A fault of an expression: its kind, and the place of the operator or name that failed.
#[derive(Debug, Clone, Copy, PartialEq, Eq)]
pub struct EvalFault {
    /// What is wrong.
    pub kind: EvalKind,
    /// Where the operator or name stands.
    pub place: Place,
}

/// Why an evaluation gives no value: a fault of the expression, or want of memory.
#[derive(Debug, Clone, Copy, PartialEq, Eq)]
pub enum EvalRefusal {
    /// The expression is at fault.
    Fault(EvalFault),
    /// There was no memory for the value.
    Mem,
}

impl From<mem::Mem> for EvalRefusal {
    ghost from_gives = { λ _ e. e ≡ Mem };

    fn from(_error: mem::Mem) -> EvalRefusal {
        EvalRefusal::Mem
    }
}

impl From<AllocError> for EvalRefusal {
    ghost from_gives = { λ _ e. e ≡ Mem };

    fn from(_error: AllocError) -> EvalRefusal {
        EvalRefusal::Mem
    }
}

impl<T: Drop> From<AllocFailed<T>> for EvalRefusal {
    ghost from_gives = { λ _ e. e ≡ Mem };

    fn from(_error: AllocFailed<T>) -> EvalRefusal {
        EvalRefusal::Mem
    }
}
