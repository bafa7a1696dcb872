//! Copies the files that a run published.

ghost use Rattle.std.specs.Prelude.{◌≡◌, ◌≤◌, IfOk};
ghost use Rattle.nf_carried.specs.Copying.{Copies, shown as shown_as, shown_output};
ghost use Rattle.nf_carried.specs.Objects.{host_now};

use crate::work::{Shows, Way};
use nf_ends::{End, Output};
use nf_gen::generated_line;
use nf_host::Host;
use nf_publish::copy_out;
use nf_ran::owed::Finished;
use nf_value::{Mem, Txt};
use std::alloc::Global;

/// Copies the files that a run published that ended well, and gives what is to be written of it, as that is shown. Of
/// any other run no file is copied.
///
/// # Errors
///
/// The end of the run, if it didn't end well. `HostFault` if the host failed in this call, which it counted; `Damaged`
/// if a stored file isn't the one that was published; `Mem` if there is no memory.
pub(crate) fn copied<H: Host>(
    alloc: Global,
    way: &Way,
    host: &mut H,
    outcome: Result<Finished, End>,
) -> Result<Output, End>
    ensures later { H.faults host.old ≤ H.faults host.new }
    ensures no_start { H.started host.new ≡ H.started host.old }
    ensures copies { Copies way.now outcome (host_now (H.files host.old) (H.faults host.old))
        (host_now (H.files host.new) (H.faults host.new)) result }
{
    let Finished { output, targets } = outcome?;
    match copy_out(alloc, host, way.folder.as_str(), targets.items()) {
        Ok(()) => Ok(shown(alloc, way.shows, output)?),
        Err(refusal) => Err(End::from(refusal)),
    }
}

/// What is written of a run, as it is shown.
fn shown(alloc: Global, shows: Shows, output: Output) -> Result<Output, Mem>
    ensures { IfOk result (λ o. o ≡ shown_output shows output) }
{
    match output {
        Output::Report { report, summary } => Ok(Output::Report {
            report: shown_report(alloc, shows, report)?,
            summary,
        }),
        Output::Text(text) => Ok(Output::Text(text)),
    }
}

fn shown_report(alloc: Global, shows: Shows, report: Txt) -> Result<Txt, Mem>
    ensures { IfOk result (λ t. t ≡ shown_as shows report) }
{
    match shows {
        Shows::Report => Ok(report),
        Shows::Generated { n, start } => generated_line(alloc, n, start, report.as_str()),
    }
}
