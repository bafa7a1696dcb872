//! Why a report isn't made, and why files aren't copied.

ghost use Rattle.std.specs.Prelude.{◌≡◌};
ghost use Rattle.nf_publish.specs.declared.fault.PublishFault.TheVariants as fault;
ghost use Rattle.nf_publish.specs.declared.fault.CopyRefusal.TheVariants as refusal;
ghost use Rattle.nf_host.specs.declared.host.HostRefusal.TheVariants as host;

use nf_host::HostRefusal;
use nf_value::{Digest, Mem, Txt};

/// A target for which there are two contents (own).
#[derive(Drop)]
pub struct Clash {
    /// Its path.
    pub target: Txt,
    /// The least digest that is published there.
    pub first: Digest,
    /// The least of the others.
    pub second: Digest,
}

/// Why a report isn't made (own).
#[derive(Drop)]
pub enum PublishFault {
    /// A target has two contents.
    Clash(Clash),
    /// Out of memory.
    Mem,
}

impl From<Mem> for PublishFault {
    ghost from_gives = { λ _ e. e ≡ fault.Mem };

    fn from(_error: Mem) -> PublishFault {
        PublishFault::Mem
    }
}

/// Why files aren't copied (own).
#[derive(Clone, Copy, Drop)]
pub enum CopyRefusal {
    /// The host failed, or there was no memory.
    Host(HostRefusal),
    /// A stored file doesn't have the bytes that are due.
    Damaged {
        /// The digest that is due.
        due: Digest,
        /// The digest of what was read; none if no file is there, or one longer than a file may be.
        found: Option<Digest>,
    },
}

impl From<HostRefusal> for CopyRefusal {
    ghost from_gives = { λ h e. e ≡ refusal.Host h };

    fn from(error: HostRefusal) -> CopyRefusal {
        CopyRefusal::Host(error)
    }
}

impl From<Mem> for CopyRefusal {
    ghost from_gives = { λ _ e. e ≡ refusal.Host host.Mem };

    fn from(_error: Mem) -> CopyRefusal {
        CopyRefusal::Host(HostRefusal::Mem)
    }
}
