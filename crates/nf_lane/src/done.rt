//! `Done`: a job that a lane ran, with its report.

ghost use Rattle.std.specs.Prelude.{◌≡◌};
ghost use Rattle.sha2.specs.Sha256.{sha256};

use crate::lane::Finished;
use nf_job::{Job, Report};
use nf_value::{Digest, Mem, Txt};

/// A job that a lane of this crate ran, with its report (own). Only `run` makes one.
pub struct Done {
    text: Txt,
    key: Digest,
    report: Report,
    ghost keyed: { key.0 ≡ sha256 text },
}

impl Drop for Done {
    fn drop(self) {
        let Done {
            text: _,
            key: _,
            report: _,
        } = self;
    }
}

impl Done {
    ghost use Rattle.std.specs.Prelude.{◌≡◌, IfOk};
    ghost use Rattle.nf_job.specs.JobText.{job_text};
    ghost use Rattle.nf_lane.specs.Done.{text_of, report_of_done};

    // A job whose run gave this report.
    pub(crate) fn of(job: &Job, report: Report) -> Result<Done, Mem>
        ensures text { IfOk result (λ d. text_of d ≡ job_text job.now) }
        ensures report { IfOk result (λ d. report_of_done d ≡ report) }
    {
        let text = job.text().copy()?;
        Ok(Done {
            text,
            key: *job.key(),
            report,
        })
    }
}

impl Finished for Done {
    ghost use Rattle.nf_lane.specs.Done.{IsGenuine, text_of, report_of_done};

    ghost genuine = { IsGenuine };

    ghost job = { text_of };

    ghost told = { report_of_done };

    fn key(&self) -> &Digest {
        &self.key
    }

    fn report(&self) -> &Report {
        &self.report
    }
}
