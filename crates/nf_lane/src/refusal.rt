//! Why a run of a job gave no report.

ghost use Rattle.std.specs.Prelude.{◌≡◌};
ghost use Rattle.nf_lane.specs.Faults.{refusal_of};
ghost use Rattle.nf_lane.specs.declared.refusal.LaneRefusal.TheVariants as refusal;

use nf_host::HostRefusal;
use nf_value::Mem;
use std::alloc::{AllocError, AllocFailed};
use thiserror::Error;

/// Why a run of a job gave no report (own).
#[derive(Debug, Drop, Clone, Copy, PartialEq, Eq, Error)]
pub enum LaneRefusal {
    /// The lane failed, and counted it.
    #[error("Failed")]
    Failed,
    /// Out of memory.
    #[error("Mem")]
    Mem,
}

impl From<Mem> for LaneRefusal {
    ghost from_gives = { λ _ e. e ≡ refusal.Mem };

    fn from(_error: Mem) -> LaneRefusal {
        LaneRefusal::Mem
    }
}

impl From<HostRefusal> for LaneRefusal {
    ghost from_gives = { λ e r. r ≡ refusal_of e };

    fn from(error: HostRefusal) -> LaneRefusal {
        match error {
            HostRefusal::Failed => LaneRefusal::Failed,
            HostRefusal::Mem => LaneRefusal::Mem,
        }
    }
}

impl From<AllocError> for LaneRefusal {
    ghost from_gives = { λ _ e. e ≡ refusal.Mem };

    fn from(_error: AllocError) -> LaneRefusal {
        LaneRefusal::Mem
    }
}

impl<T: Drop> From<AllocFailed<T>> for LaneRefusal {
    ghost from_gives = { λ _ e. e ≡ refusal.Mem };

    fn from(_error: AllocFailed<T>) -> LaneRefusal {
        LaneRefusal::Mem
    }
}
