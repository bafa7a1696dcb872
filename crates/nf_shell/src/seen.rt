//! `ShellSeen`: a report whose files a shell lane found.

ghost use Rattle.std.specs.Prelude.{◌≡◌, IfOk};

use nf_job::Report;
use nf_lane::Present;
use nf_value::Mem;

/// A report whose files a shell lane found (own). Only `look` makes one.
pub struct ShellSeen {
    report: Report,
    number: u64,
}

impl Drop for ShellSeen {
    fn drop(self) {
        let ShellSeen {
            report: _,
            number: _,
        } = self;
    }
}

impl ShellSeen {
    ghost use Rattle.nf_shell.specs.Seen.{report_of_seen, look_of};

    // The report that the look with this number, counted from 1, was at.
    pub(crate) fn of(report: &Report, number: u64) -> Result<ShellSeen, Mem>
        ensures report { IfOk result (λ s. report_of_seen s ≡ report.now) }
        ensures number { IfOk result (λ s. look_of s ≡ number) }
    {
        let report = report.copy()?;
        Ok(ShellSeen { report, number })
    }
}

impl Present for ShellSeen {
    ghost use Rattle.nf_shell.specs.Seen.{IsSeen, report_of_seen};

    ghost genuine = { IsSeen };

    ghost told = { report_of_seen };

    fn report(&self) -> &Report {
        &self.report
    }
}
