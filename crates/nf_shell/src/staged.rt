//! `StagedNames`: the staged files of a job, found by their names.

ghost use Rattle.std.specs.Prelude.{◌≡◌, ℕ, List};
ghost use Rattle.std.specs.Borrow.{Bor};
ghost use Rattle.std.specs.BTreeSet.{contains};
ghost use Rattle.nf_shell.specs.Outputs.{is_among};
ghost use Rattle.nf_shell.specs.Staged.{name_cmp};

use nf_value::{FileRef, Mem};
use std::alloc::Global;
use std::collections::BTreeSet;

// The staged files of a job, with the set of their names.
#[derive(Drop)]
pub(crate) struct StagedNames<'a> {
    files: &'a [FileRef],
    names: BTreeSet<&'a str>,
    ghost exact: { (name : Bor (List ℕ)) → contains name_cmp names name ≡ is_among files.now name.now },
}

impl<'a> StagedNames<'a> {
    ghost use Rattle.std.specs.Prelude.{IfOk};

    // These files, in some n log n comparisons of names.
    pub(crate) fn of(alloc: Global, files: &'a [FileRef]) -> Result<StagedNames<'a>, Mem>
        ensures { IfOk result (λ s. s.files.now ≡ files.now) }
    {
        let mut names = BTreeSet::new(alloc);
        for file in files {
            names.insert(file.name.as_str())?;
        }
        Ok(StagedNames { files, names })
    }

    // Whether one of the files has this name, in some log n comparisons.
    pub(crate) fn has(&self, name: &str) -> bool
        ensures { result ≡ is_among self.now.files.now name.now }
    {
        self.names.contains(name)
    }
}
