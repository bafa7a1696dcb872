//! `Log`: what is written down of a run.

ghost use Rattle.std.specs.Prelude.{◌≡◌, ◌++◌, [], ◌∷◌, Some, length, IfOk, OnOk, OnErr};
ghost use Rattle.nf_graph.specs.WellMade.{plain_kind};
ghost use Rattle.nf_machine.specs.declared.event.Event.TheVariants as e;
ghost use Rattle.nf_machine.specs.declared.stop.Stop.TheVariants as s;
ghost use Rattle.nf_flow.specs.Seen.{lost};
ghost use Rattle.nf_flow.specs.Questions.{process_inputs};
ghost use Rattle.nf_flow.specs.declared.stopped.Stopped.TheVariants as st;

use crate::stopped::Stopped;
use nf_flight::KeptInputs;
use nf_graph::{Node, NodeKind};
use nf_machine::{Event, Stop};
use nf_value::{Mem, Vals};

/// What is written down of a run: its history, and what is told of it.
#[derive(Drop)]
pub(crate) struct Log {
    pub(crate) history: Vec<Event>,
    /// The inputs of the takes of processes, by the numbers of the takes.
    pub(crate) inputs: KeptInputs,
    pub(crate) stop: Stopped,
    /// For how many events there is room.
    pub(crate) room: u64,
}

impl Log {
    ghost use Rattle.nf_flow.specs.Log.{HasPlace, IsAdded};
    ghost use Rattle.nf_flow.specs.Stopped.{first_stop, stopped_by};

    /// One event more, and what the run is stopped by, if it is stopped and wasn't. Takes no memory.
    pub(crate) fn add(&mut self, event: Event, stop: Option<Stop>)
        requires { HasPlace self.old }
        ensures { IsAdded self.old event (stopped_by self.old.stop stop) self.new }
    {
        if let Some(stop) = stop {
            self.stop_by(Stopped::Own(stop));
        }
        self.history.push_reserved(event);
        self.room = 0;
    }

    /// The ticket of this number is given up. Takes no memory.
    pub(crate) fn abort(&mut self, number: u32, cause: Option<Stop>)
        requires { HasPlace self.old }
        ensures { IsAdded self.old (e.Abort number cause) (first_stop self.old.stop (st.At (length self.old.history.items))) self.new }
    {
        let place = self.history.len();
        self.stop_by(Stopped::At(place));
        self.history.push_reserved(Event::Abort {
            ticket: number,
            cause,
        });
        self.room = 0;
    }

    /// Want of memory, with the ticket of this number at hand.
    pub(crate) fn lose(&mut self, number: u32) -> Mem
        requires { HasPlace self.old }
        ensures { IsAdded self.old (lost number) (first_stop self.old.stop (st.At (length self.old.history.items))) self.new }
    {
        self.abort(number, Some(Stop::Mem));
        Mem
    }

    /// Want of memory, with no ticket at hand.
    pub(crate) fn halt(&mut self) -> Mem
        requires { HasPlace self.old }
        ensures { IsAdded self.old e.Halt (first_stop self.old.stop (st.Own s.Mem)) self.new }
    {
        self.add(Event::Halt, Some(Stop::Mem));
        Mem
    }

    /// The first stop counts.
    fn stop_by(&mut self, stop: Stopped)
        ensures { self.new ≡ record self.old { stop = first_stop self.old.stop stop } }
    {
        if !self.stop.is_stopped() {
            self.stop = stop;
        }
    }

    /// Keeps the inputs of the next take, if its node is a process.
    ///
    /// # Errors
    ///
    /// `Mem` if there is no memory for it. Nothing is changed then.
    pub(crate) fn keep(&mut self, node: &Node, inputs: &Vals) -> Result<(), Mem>
        ensures ok { OnOk result (self.new ≡ record self.old { inputs = self.old.inputs ++ process_inputs (plain_kind node.now.kind) inputs.now ∷ [] }) }
        ensures err { OnErr result (self.new ≡ self.old) }
    {
        let kept = inputs_of(&node.kind, inputs)?;
        self.inputs.add(kept)
    }

    /// The history, without the rest.
    pub(crate) fn into_history(self) -> Vec<Event>
        ensures { result.items ≡ self.history.items }
    {
        self.history
    }
}

/// A copy of the inputs, if the node is a process.
fn inputs_of(kind: &NodeKind, inputs: &Vals) -> Result<Option<Vals>, Mem>
    ensures { IfOk result (λ o. o ≡ process_inputs (plain_kind kind.now) inputs.now) }
{
    match kind {
        NodeKind::Source { .. } => Ok(None),
        NodeKind::Op { .. } => Ok(None),
        NodeKind::Process { .. } => Ok(Some(inputs.copy()?)),
    }
}
