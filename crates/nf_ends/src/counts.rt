//! The line after a run's report.

ghost use Rattle.std.specs.Prelude.{◌≡◌, IfOk};
ghost use Rattle.nf_ends.specs.Summary.{reuses_in, starts_in, summary as summary_of};

use nf_machine::Event;
use nf_value::{Mem, Txt};
use std::alloc::Global;

/// The line after the report of a run with this history (own): `executed X cached Y` and a line end, where X attempts at tasks
/// were started, and Y reports were taken from records.
///
/// # Errors
///
/// `Mem` if there is no memory for it.
pub fn summary(alloc: Global, history: &[Event]) -> Result<Txt, Mem>
    ensures { IfOk result (λ t. t ≡ summary_of (starts_in history.now) (reuses_in history.now)) }
{
    let started = starts(history);
    let reused = reuses(history);
    Ok(Txt::of(format!(in alloc; "executed {started} cached {reused}\n")?))
}

fn starts(history: &[Event]) -> usize
    ensures { result ≡ starts_in history.now }
{
    let mut count = 0;
    for event in history {
        if let Event::Start { .. } = event {
            count += 1;
        }
    }
    count
}

fn reuses(history: &[Event]) -> usize
    ensures { result ≡ reuses_in history.now }
{
    let mut count = 0;
    for event in history {
        if let Event::Reuse { .. } = event {
            count += 1;
        }
    }
    count
}
