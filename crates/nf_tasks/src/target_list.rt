//! `Targets`: the files that a task publishes.

ghost use Rattle.std.specs.Prelude.{◌≡◌};

use nf_value::{Digest, Txt};
use std::marker::Model;

/// A file that is published: its path, and the digest of what it holds.
pub struct Target {
    /// The folder, a slash and the file's name.
    pub name: Txt,
    /// The SHA-256 digest of its bytes.
    pub digest: Digest,
}

impl Drop for Target {
    fn drop(self) {
        let Target { name: _, digest: _ } = self;
    }
}

/// The files that a task publishes. Contracts see the list of their names and digests.
pub struct Targets {
    items: Vec<Target>,
}

impl Drop for Targets {
    fn drop(self) {
        let Targets { items: _ } = self;
    }
}

impl Model for Targets {
    ghost use Rattle.std.specs.Prelude.{List};
    ghost use Rattle.nf_tasks.specs.declared.target_list.Target.{Target};

    ghost Value = { List Target };

    ghost view = { λ t. t.items.items };
}

impl Targets {
    /// The list of a vector. Takes no memory.
    pub fn of(items: Vec<Target>) -> Targets
        ensures { result ≡ items.items }
    {
        Targets { items }
    }

    /// The files in order. Takes no memory.
    pub fn items(&self) -> &[Target]
        ensures { result.now ≡ self.now }
    {
        self.items.as_slice()
    }
}
