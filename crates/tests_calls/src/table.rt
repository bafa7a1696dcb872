//! A table of three rows.

use nf_table::{Named, Table};
use std::test::Fail;

/// A name and a number.
#[derive(Debug, Clone, Copy, PartialEq, Eq)]
struct Entry {
    letter: u8,
    number: u8,
}

impl Named for Entry {
    ghost use Rattle.std.specs.Prelude.{[], ◌∷◌, ◌==◌, codes, if◌then◌else◌};

    ghost label = { λ e. if e.letter == 0 then codes "a" else if e.letter == 1 then codes "b" else codes "c" };

    fn name(&self) -> &str {
        match self.letter {
            0 => "a",
            1 => "b",
            _ => "c",
        }
    }
}

#[test]
fn a_table_of_three_rows(rt: HostRuntime) -> Result<(), Fail> {
    let alloc = rt.alloc();
    let mut rows = Vec::new(alloc);
    rows.push(Entry {
        letter: 0,
        number: 7,
    })?;
    rows.push(Entry {
        letter: 1,
        number: 8,
    })?;
    rows.push(Entry {
        letter: 2,
        number: 9,
    })?;
    let table: Table<Entry, 3> = Table::new(rows);
    assert_eq!(rt; table.find("a"), Some(0));
    assert_eq!(rt; table.find("b"), Some(1));
    assert_eq!(rt; table.find("c"), Some(2));
    assert_eq!(rt; table.find(""), None);
    assert_eq!(rt; table.find("aa"), None);
    assert_eq!(rt; table.find("z"), None);
    assert_eq!(rt; table.rows().len(), 3);
    Ok(())
}
