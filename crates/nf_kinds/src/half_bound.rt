//! The names that one arm of an `if` alone bound.

ghost use Rattle.std.specs.Prelude.{◌≡◌, [], IfOk};
ghost use Rattle.nf_kinds.specs.Scope as spec;

use indexmap::IndexSet;
use nf_value::{Mem, Txt};
use std::alloc::Global;
use std::marker::Model;

/// Names that may be taken out again. Whether a name is one of them is known in a time that doesn't grow with their
/// number. Contracts see the list of them, in which a name may stand several times.
pub(crate) struct HalfBound {
    /// The names at first.
    names: Vec<Txt>,
    /// Those that weren't taken out.
    left: IndexSet<String>,
}

impl Drop for HalfBound {
    fn drop(self) {
        let HalfBound { names: _, left: _ } = self;
    }
}

impl Model for HalfBound {
    ghost use Rattle.std.specs.Prelude.{List, ℕ};
    ghost use Rattle.nf_kinds.specs.HalfBound.{names_left, HasOnly};

    ghost Value = { List (List ℕ) };

    ghost view = { λ h. names_left h.left h.names.items };

    ghost invariant = { λ h. HasOnly h.left h.names.items };
}

impl HalfBound {
    /// No names. Takes no memory.
    pub(crate) fn new(alloc: Global) -> HalfBound
        ensures { result ≡ [] }
    {
        HalfBound {
            names: Vec::new(alloc),
            left: IndexSet::new(alloc),
        }
    }

    /// These names.
    pub(crate) fn of(alloc: Global, names: Vec<Txt>) -> Result<HalfBound, Mem>
        ensures { IfOk result (λ h. h ≡ names.items) }
    {
        let mut left = IndexSet::new(alloc);
        for name in &names {
            left.insert(String::from_str(alloc, name.as_str())?)?;
        }
        Ok(HalfBound { names, left })
    }

    /// Whether a name is one of them.
    pub(crate) fn has(&self, name: &str) -> bool
        ensures { result ≡ spec.is_named name.now self.now }
    {
        self.left.contains(name)
    }

    /// Takes a name out. Takes no memory.
    pub(crate) fn remove(&mut self, name: &str)
        ensures { self.new ≡ spec.without name.now self.old }
    {
        self.left.swap_remove(name);
    }

    /// The list of them.
    pub(crate) fn list(&self, alloc: Global) -> Result<Vec<Txt>, Mem>
        ensures { IfOk result (λ v. v.items ≡ self.now) }
    {
        let mut out = Vec::new(alloc);
        for name in &self.names {
            if self.left.contains(name.as_str()) {
                out.push(name.copy()?)?;
            }
        }
        Ok(out)
    }

    /// The same names.
    pub(crate) fn copy(&self, alloc: Global) -> Result<HalfBound, Mem>
        ensures { IfOk result (λ h. h ≡ self.now) }
    {
        HalfBound::of(alloc, self.list(alloc)?)
    }
}
