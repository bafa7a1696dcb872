//! The table, and what its rows have to have.

ghost use Rattle.std.specs.Prelude.{◌≡◌, true, length, map, slice_get, Some, MatchOption};
ghost use Rattle.nf_table.specs.Table.{rises, HasNone};

use std::marker::Model;

/// A row with a name.
pub trait Named {
    ghost label: { Self → List ℕ };

    ghost use Rattle.std.specs.Prelude.{List, ℕ};

    /// The name.
    fn name(&self) -> &str
        ensures { result.now ≡ label self.now };
}

/// A table of N rows whose names strictly rise by their bytes, so that no two rows have one name (own). Contracts see the list of its rows.
#[derive(Drop)]
pub struct Table<R: Named, const N: usize> {
    entries: Vec<R>,
}

impl<R: Named, const N: usize> Model for Table<R, N> {
    ghost use Rattle.std.specs.Prelude.{List, length, map, ◌≡◌, true};
    ghost use Rattle.nf_table.specs.Table.{rises};

    ghost Value = { List R };

    ghost view = { λ t. t.entries.items };

    ghost invariant = { λ t. (length t.entries.items ≡ N) × (rises (map R.label t.entries.items) ≡ true) };
}

impl<R: Named, const N: usize> Table<R, N> {
    /// The table of these rows. Takes no memory.
    pub fn new(rows: Vec<R>) -> Table<R, N>
        requires count { length rows.items ≡ N }
        requires rising { rises (map R.label rows.items) ≡ true }
        ensures { result ≡ rows.items }
    {
        Table { entries: rows }
    }

    /// The place, counted from 0, of the row of that name; `None` where no row has it. Its time grows with the number of rows.
    pub fn find(&self, name: &str) -> Option<usize>
        ensures { MatchOption result (HasNone (map R.label self.now) name.now) (λ i. slice_get (map R.label self.now) i ≡ Some name.now) }
    {
        for (i, row) in self.entries.iter().enumerate() {
            if row.name() == name {
                return Some(i);
            }
        }
        None
    }

    /// The rows in the order of their names. Takes no memory.
    pub fn rows(&self) -> &[R]
        ensures rows { result.now ≡ self.now }
        ensures count { length self.now ≡ N }
        ensures rising { rises (map R.label self.now) ≡ true }
    {
        self.entries.as_slice()
    }
}
