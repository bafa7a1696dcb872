//! What children in memory do, by their scripts.

ghost use Rattle.std.specs.Prelude.{◌≡◌, option_copied};
ghost use Rattle.sha2.specs.Sha256.{sha256};
ghost use Rattle.nf_host.specs.Children.{child_of};

use nf_value::{Bytes, Digest, Txt};
use sha2::{Digest as Hasher, Sha256};

/// The exit status of a child whose script is unknown, as that of a command that a shell doesn't find (POSIX, "Shell
/// Command Language", 2.8.2).
pub const UNKNOWN_STATUS: u8 = 127;

/// What a child in memory does: it writes these files in its folder, one after another, and ends with this status (own).
pub struct Child {
    /// Its exit status.
    pub status: u8,
    /// The files that it writes, by their names in its folder.
    pub files: Vec<(Txt, Bytes)>,
}

impl Drop for Child {
    fn drop(self) {
        let Child {
            status: _,
            files: _,
        } = self;
    }
}

/// What a script does: what the first entry of its digest says.
pub(crate) fn find_child<'a>(children: &'a [(Digest, Child)], script: &[u8]) -> Option<&'a Child>
    ensures { option_copied result ≡ child_of children.now (sha256 script.now) }
{
    let digest = Sha256::digest(script);
    child_with(children, &digest)
}

#[tactic(auto, using(crate::proofs::Deeds::at_deed, crate::proofs::Deeds::past_deed, crate::proofs::Deeds::no_deed))]
fn child_with<'a>(children: &'a [(Digest, Child)], digest: &[u8; 32]) -> Option<&'a Child>
    ensures { option_copied result ≡ child_of children.now digest.now }
{
    for entry in children {
        if entry.0.0 == *digest {
            return Some(&entry.1);
        }
    }
    None
}
