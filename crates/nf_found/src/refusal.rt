//! Why the files of a script's sources aren't had.

ghost use Rattle.std.specs.Prelude.{◌≡◌};
ghost use Rattle.nf_found.specs.Refusal.{no_memory};
ghost use Rattle.nf_found.specs.declared.refusal.FoundRefusal.TheVariants as refusal;

use nf_sources::SourceRefusal;
use nf_value::{Mem, Txt};
use std::alloc::AllocFailed;

/// Why the files of a script's sources aren't had (own).
#[derive(Drop)]
pub enum FoundRefusal {
    /// No file matches the path of a source that must have one.
    NoFile {
        /// The path as the script has it.
        path: Txt,
    },
    /// A file is too long, the host failed, or there was no memory.
    Source(SourceRefusal),
}

impl From<SourceRefusal> for FoundRefusal {
    ghost from_gives = { λ r e. e ≡ refusal.Source r };

    fn from(error: SourceRefusal) -> FoundRefusal {
        FoundRefusal::Source(error)
    }
}

impl From<Mem> for FoundRefusal {
    ghost from_gives = { λ _ e. e ≡ no_memory };

    fn from(error: Mem) -> FoundRefusal {
        FoundRefusal::Source(SourceRefusal::from(error))
    }
}

impl<T: Drop> From<AllocFailed<T>> for FoundRefusal {
    ghost from_gives = { λ _ e. e ≡ no_memory };

    fn from(error: AllocFailed<T>) -> FoundRefusal {
        FoundRefusal::Source(SourceRefusal::from(error))
    }
}
