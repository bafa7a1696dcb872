//! Lists of values.

ghost use Rattle.std.specs.Prelude.{◌≡◌, IfOk, map, length};
ghost use Rattle.nf_value.specs.View.{plain_of};

use crate::mem::Mem;
use crate::value::Value;
use std::marker::Model;

/// A list of values. Contracts see the list of its items, each by `plain_of`.
#[cycle(value)]
pub struct Vals {
    pub(crate) items: Vec<Value>,
}

impl Drop for Vals {
    #[cycle(discard)]
    fn drop(self) {
        let Vals { items: _ } = self;
    }
}

impl Model for Vals {
    ghost use Rattle.std.specs.Prelude.{List, map};
    ghost use Rattle.nf_value.specs.Plain.{Plain};
    ghost use Rattle.nf_value.specs.Coding.{plain_coding};
    ghost use Rattle.std.specs.Coded.{coded_list, coded×, coded_ℕ};

    ghost Value = { List Plain };

    ghost coded = { coded_list plain_coding };

    ghost use Rattle.nf_value.specs.View.{plain_of, size_of_all};

    ghost view = { λ a. map plain_of a.items.items };

    ghost size = { size_of_all };

    ghost use Rattle.nf_value.specs.Falls.{falls};

    ghost size_decreases = { λ a h. falls a };
}

impl Vals {
    /// The list of a vector. Takes no memory.
    pub fn of(items: Vec<Value>) -> Vals
        ensures { result ≡ map plain_of items.items }
    {
        Vals { items }
    }

    /// The number of items.
    pub fn len(&self) -> usize
        ensures { result ≡ length self.now }
    {
        self.items.len()
    }

    /// The items in order. Takes no memory.
    pub fn items(&self) -> &[Value]
        ensures { map plain_of result.now ≡ self.now }
    {
        self.items.as_slice()
    }

    /// The vector of the items. Takes no memory.
    pub fn into_items(self) -> Vec<Value>
        ensures { map plain_of result.items ≡ self }
    {
        let Vals { items } = self;
        items
    }

    /// Another list of the same values.
    ///
    /// # Errors
    ///
    /// `Mem` where there is no memory for it.
    #[cycle(copy)]
    pub fn copy(&self) -> Result<Vals, Mem>
        ensures { IfOk result (λ v. v ≡ self.now) }
    {
        let mut copies = Vec::with_capacity(*self.items.allocator(), self.items.len())?;
        for item in &self.items {
            copies.push(item.copy()?)?;
        }
        Ok(Vals { items: copies })
    }
}
