//! Why a script isn't accepted.

ghost use Rattle.std.specs.Prelude.{◌≡◌, Some};
ghost use Rattle.nf_order.specs.Fault.{fault_text};
ghost use Rattle.nf_order.specs.declared.fault.OrderFault.TheVariants.{Mem as NoMemory};

use nf_kinds::OrderRule;
use nf_value::{Mem, Place};
use std::alloc::{AllocError, AllocFailed};
use std::fmt;

/// Why a script isn't accepted. Displayed as `11:3: Order rule 1`, or `Mem`.
#[derive(Debug, Clone, Copy, PartialEq, Eq)]
pub enum OrderFault {
    /// It breaks a rule.
    Rule {
        /// The rule.
        rule: OrderRule,
        /// The place at which it is broken.
        place: Place,
    },
    /// There was no memory to check it.
    Mem,
}

impl fmt::Display for OrderFault {
    ghost output = { λ f. Some (fault_text f) };

    fn fmt<W: fmt::Write>(&self, f: &mut fmt::Formatter<W>) -> fmt::Result {
        match self {
            OrderFault::Rule { rule, place } => write!(f, "{place}: {rule}"),
            OrderFault::Mem => write!(f, "Mem"),
        }
    }
}

impl From<Mem> for OrderFault {
    ghost from_gives = { λ _ e. e ≡ NoMemory };

    fn from(_error: Mem) -> OrderFault {
        OrderFault::Mem
    }
}

impl From<AllocError> for OrderFault {
    ghost from_gives = { λ _ e. e ≡ NoMemory };

    fn from(_error: AllocError) -> OrderFault {
        OrderFault::Mem
    }
}

impl<T: Drop> From<AllocFailed<T>> for OrderFault {
    ghost from_gives = { λ _ e. e ≡ NoMemory };

    fn from(_error: AllocFailed<T>) -> OrderFault {
        OrderFault::Mem
    }
}
