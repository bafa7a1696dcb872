//! `Seen`: a report whose files a lane found.

ghost use Rattle.std.specs.Prelude.{◌≡◌, ◌≤◌, IfOk};

use crate::lane::Present;
use nf_job::Report;
use nf_value::Mem;

/// A report whose files a lane of this crate found (own). Only `look` makes one.
pub struct Seen {
    report: Report,
    number: u64,
}

impl Drop for Seen {
    fn drop(self) {
        let Seen {
            report: _,
            number: _,
        } = self;
    }
}

impl Seen {
    ghost use Rattle.nf_lane.specs.Seen.{report_of_seen, look_of};

    // The report that the look with this number, counted from 1, was at.
    pub(crate) fn of(report: &Report, number: u64) -> Result<Seen, Mem>
        ensures report { IfOk result (λ s. report_of_seen s ≡ report.now) }
        ensures number { IfOk result (λ s. look_of s ≡ number) }
    {
        let report = report.copy()?;
        Ok(Seen { report, number })
    }
}

impl Present for Seen {
    ghost use Rattle.nf_lane.specs.Seen.{IsSeen, report_of_seen};

    ghost genuine = { IsSeen };

    ghost told = { report_of_seen };

    fn report(&self) -> &Report {
        &self.report
    }
}
