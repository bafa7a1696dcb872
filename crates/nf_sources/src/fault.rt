//! Why the files of a source aren't there.

ghost use Rattle.std.specs.Prelude.{◌≡◌};
ghost use Rattle.nf_sources.specs.declared.fault.SourceRefusal.TheVariants as refusal;
ghost use Rattle.nf_host.specs.declared.host.HostRefusal.TheVariants as host;

use nf_host::HostRefusal;
use nf_value::{Mem, Txt};
use std::alloc::{AllocError, AllocFailed};

/// Why the files of a source aren't had (own).
#[derive(Drop)]
pub enum SourceRefusal {
    /// A file has more than 1,099,511,627,775 bytes.
    FileTooLong {
        /// Its path.
        path: Txt,
    },
    /// The host failed, or there was no memory.
    Host(HostRefusal),
}

impl From<HostRefusal> for SourceRefusal {
    ghost from_gives = { λ h e. e ≡ refusal.Host h };

    fn from(error: HostRefusal) -> SourceRefusal {
        SourceRefusal::Host(error)
    }
}

impl From<Mem> for SourceRefusal {
    ghost from_gives = { λ _ e. e ≡ refusal.Host host.Mem };

    fn from(_error: Mem) -> SourceRefusal {
        SourceRefusal::Host(HostRefusal::Mem)
    }
}

impl From<AllocError> for SourceRefusal {
    ghost from_gives = { λ _ e. e ≡ refusal.Host host.Mem };

    fn from(_error: AllocError) -> SourceRefusal {
        SourceRefusal::Host(HostRefusal::Mem)
    }
}

impl<T: Drop> From<AllocFailed<T>> for SourceRefusal {
    ghost from_gives = { λ _ e. e ≡ refusal.Host host.Mem };

    fn from(_error: AllocFailed<T>) -> SourceRefusal {
        SourceRefusal::Host(HostRefusal::Mem)
    }
}
