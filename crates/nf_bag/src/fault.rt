//! `OpFault`: why an operator fails.

ghost use Rattle.std.specs.Prelude.{◌≡◌, Some, IfOk};
ghost use Rattle.nf_bag.specs.Fault.{fault_name};
ghost use Rattle.nf_bag.specs.declared.fault.OpFault.TheVariants as fault;

use nf_value::{Mem, Value};
use std::alloc::{AllocError, AllocFailed};
use std::fmt;

/// Why an operator fails (own). Printed as its name.
#[derive(Drop)]
pub enum OpFault {
    /// One input of `join` has two items with this key.
    DuplicateKey {
        /// The key.
        key: Value,
    },
    /// An item is no list, or a list that is too short.
    NotATuple {
        /// The item.
        item: Value,
    },
    /// An item is no number.
    NotANumber {
        /// The item.
        item: Value,
    },
    /// A total doesn't fit 64 signed bits.
    Overflow {
        /// The total.
        total: i128,
    },
    /// A value to be emitted is deeper than 64.
    TooDeep {
        /// The value.
        item: Value,
    },
    /// Out of memory.
    Mem,
}

impl OpFault {
    /// A copy of the fault.
    ///
    /// # Errors
    ///
    /// `Mem` if there is no memory for it.
    pub fn copy(&self) -> Result<OpFault, Mem>
        ensures { IfOk result (λ f. f ≡ self.now) }
    {
        match self {
            OpFault::DuplicateKey { key } => Ok(OpFault::DuplicateKey { key: key.copy()? }),
            OpFault::NotATuple { item } => Ok(OpFault::NotATuple { item: item.copy()? }),
            OpFault::NotANumber { item } => Ok(OpFault::NotANumber { item: item.copy()? }),
            OpFault::Overflow { total } => Ok(OpFault::Overflow { total: *total }),
            OpFault::TooDeep { item } => Ok(OpFault::TooDeep { item: item.copy()? }),
            OpFault::Mem => Ok(OpFault::Mem),
        }
    }
}

impl fmt::Display for OpFault {
    ghost output = { λ f. Some (fault_name f) };

    fn fmt<W: fmt::Write>(&self, f: &mut fmt::Formatter<W>) -> fmt::Result {
        match self {
            OpFault::DuplicateKey { .. } => write!(f, "DuplicateKey"),
            OpFault::NotATuple { .. } => write!(f, "NotATuple"),
            OpFault::NotANumber { .. } => write!(f, "NotANumber"),
            OpFault::Overflow { .. } => write!(f, "Overflow"),
            OpFault::TooDeep { .. } => write!(f, "TooDeep"),
            OpFault::Mem => write!(f, "Mem"),
        }
    }
}

impl From<Mem> for OpFault {
    ghost from_gives = { λ _ e. e ≡ fault.Mem };

    fn from(_error: Mem) -> OpFault {
        OpFault::Mem
    }
}

impl From<AllocError> for OpFault {
    ghost from_gives = { λ _ e. e ≡ fault.Mem };

    fn from(_error: AllocError) -> OpFault {
        OpFault::Mem
    }
}

impl<T: Drop> From<AllocFailed<T>> for OpFault {
    ghost from_gives = { λ _ e. e ≡ fault.Mem };

    fn from(_error: AllocFailed<T>) -> OpFault {
        OpFault::Mem
    }
}
