//! `Table`: the reports of jobs by the jobs' texts.

ghost use Rattle.std.specs.Prelude.{◌≡◌, IfOk, bytes_eq};
ghost use Rattle.nf_lane.specs.World.{report_of};

use nf_job::{Captured, Found, Report};
use nf_value::{Mem, Txt};
use std::alloc::Global;
use std::marker::Model;

/// The reports of some jobs by the jobs' texts. Contracts see the list of entries. The first entry of a text counts. A job
/// without an entry has exit status 127, no standard output and no files (own).
pub struct Table {
    items: Vec<(Txt, Report)>,
}

impl Drop for Table {
    fn drop(self) {
        let Table { items: _ } = self;
    }
}

impl Model for Table {
    ghost use Rattle.nf_lane.specs.World.{World};

    ghost Value = { World };

    ghost view = { λ t. t.items.items };
}

impl Table {
    /// The table of a vector. Takes no memory.
    pub fn of(items: Vec<(Txt, Report)>) -> Table
        ensures { result ≡ items.items }
    {
        Table { items }
    }

    /// A copy of the table.
    ///
    /// # Errors
    ///
    /// `Mem` if there is no memory for it.
    pub fn copy(&self) -> Result<Table, Mem>
        ensures { IfOk result (λ t. t ≡ self.now) }
    {
        let mut copies = Vec::new(*self.items.allocator());
        for item in &self.items {
            copies.push(copy_entry(item)?)?;
        }
        Ok(Table { items: copies })
    }

    /// The report of the job with this text.
    ///
    /// # Errors
    ///
    /// `Mem` if there is no memory for it.
    #[tactic(auto, using(crate::proofs::Entries::at_entry, crate::proofs::Entries::past_entry, crate::proofs::Entries::no_entry))]
    pub fn report(&self, alloc: Global, text: &Txt) -> Result<Report, Mem>
        ensures { IfOk result (λ r. r ≡ report_of self.now text.now) }
    {
        for item in &self.items {
            if is_of(item, text) {
                return item.1.copy();
            }
        }
        Ok(Report {
            exit: 127,
            captured: Captured::None,
            found: Found::of(Vec::new(alloc)),
        })
    }
}

fn is_of(entry: &(Txt, Report), text: &Txt) -> bool
    ensures { result ≡ bytes_eq entry.now.0 text.now }
{
    entry.0.as_str() == text.as_str()
}

fn copy_entry(entry: &(Txt, Report)) -> Result<(Txt, Report), Mem>
    ensures { IfOk result (λ e. e ≡ entry.now) }
{
    let text = entry.0.copy()?;
    let report = entry.1.copy()?;
    Ok((text, report))
}
