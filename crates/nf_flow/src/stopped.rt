//! `Stopped`: whether a run is stopped, and why.

ghost use Rattle.std.specs.Prelude.{◌≡◌, is_some};
ghost use Rattle.std.specs.Option.{option_copied};
ghost use Rattle.nf_flow.specs.Stopped.{cause_of};

use nf_machine::{Event, Stop};

/// Whether a run is stopped, and why. The cause of an Abort stays in the history alone, so that giving a ticket up takes no memory.
#[derive(Drop)]
pub(crate) enum Stopped {
    No,
    /// By this.
    Own(Stop),
    /// By the cause of the Abort at this place of the history.
    At(usize),
}

impl Stopped {
    ghost use Rattle.nf_flow.specs.Stopped.{IsAbort, is_stopped_by, stop_in};

    /// Whether the run is stopped.
    pub(crate) fn is_stopped(&self) -> bool
        ensures { result ≡ is_stopped_by self.now }
    {
        match self {
            Stopped::No => false,
            Stopped::Own(_) => true,
            Stopped::At(_) => true,
        }
    }

    /// Why the run is stopped, if it is.
    pub(crate) fn stop<'a>(&'a self, history: &'a [Event]) -> Option<&'a Stop>
        requires { IsAbort history.now self.now }
        ensures { option_copied result ≡ stop_in history.now self.now }
    {
        match self {
            Stopped::No => None,
            Stopped::Own(stop) => Some(stop),
            Stopped::At(place) => cause_in(&history[*place]),
        }
    }
}

/// The cause of an Abort.
fn cause_in(event: &Event) -> Option<&Stop>
    ensures { option_copied result ≡ cause_of event.now }
{
    match event {
        Event::Abort { cause, .. } => cause.as_ref(),
        Event::Pass { .. } => None,
        Event::Take { .. } => None,
        Event::Give { .. } => None,
        Event::Start { .. } => None,
        Event::Reuse { .. } => None,
        Event::Finish { .. } => None,
        Event::Close { .. } => None,
        Event::Halt => None,
    }
}
