//! `Locked`: what lies under a run's lock while several workers work on it.

ghost use Rattle.std.specs.Prelude.{◌≡◌, ◌||◌, ℕ, is_some, map, length};
ghost use Rattle.nf_flow.specs.Seen.{plain_of, state_of};
ghost use Rattle.nf_locked.specs.Entered.{TellsReady};
ghost use Rattle.nf_locked.specs.Out.{tallies};
ghost use Rattle.nf_machine.specs.History.{is_over};
ghost use Rattle.nf_serial.specs.Serial.{IsIdle};

use nf_core::{Fixed, RunState};
use nf_flight::Ticket;
use nf_keeper::Keeper;
use nf_lane::Lane;
use std::marker::Model;
use std::sync::ledger::{Book, Ledger, Share};

/// What lies under a run's lock while several workers work on it (own): the run, the tickets that are out with workers,
/// a list for each lane, and two books. Contracts see the flow. `J` stands for what is fixed from the opening on.
///
/// A worker leaves each ticket that it takes in its lane's list, and works outside of the lock on a copy. In a later
/// holding it hands the copy in, and the ticket is looked for by it. What one holding learnt isn't known in the next,
/// so each call has an answer for a ticket that isn't found: the run is stopped for want of memory. No run comes to it.
///
/// Whenever the lock is free: all that holds of a `RunState` holds; the tickets in flight are those that are out; the
/// runs that are owed are as many as the Starts, and the failures of lanes as many as the stops by them.
#[derive(Drop)]
pub struct Locked<L: Lane, K: Keeper, J: Fixed, B: Ledger, F: Ledger> {
    pub(crate) run: RunState<L, K, J>,
    pub(crate) out: Vec<Vec<Ticket>>,
    // Runs that are owed: one for each Start.
    pub(crate) begun: Book<B>,
    // Failures of lanes that were entered as a stop.
    pub(crate) failed: Book<F>,
}

impl<L: Lane, K: Keeper, J: Fixed, B: Ledger, F: Ledger> Model for Locked<L, K, J, B, F> {
    ghost use Rattle.std.specs.Prelude.{map};
    ghost use Rattle.std.specs.Coded.{codes};
    ghost use Rattle.nf_flow.specs.Seen.{Seen};
    ghost use Rattle.nf_graph.specs.contracts.node.Node as n;
    ghost use Rattle.nf_locked.specs.Locked.{IsFree};
    ghost use Rattle.nf_machine.specs.contracts.event.Event as ev;

    ghost Value = { Seen };

    ghost coded = { Prim.hlevel (codes, n.the_row.coded, ev.the_row.coded) };

    ghost view = { λ a. a.run };

    ghost invariant = { λ a. IsFree J.facts
        (record { flow = a.run; out = map (λ v. v.items) a.out.items; begun = a.begun.total; failed = a.failed.total }) };
}

impl<L: Lane, K: Keeper, J: Fixed, B: Ledger, F: Ledger> Locked<L, K, J, B, F> {
    ghost use Rattle.nf_locked.specs.Locked.{IsFree, failures_of, starts_of};

    /// A run in which nothing is in flight, before its first Start. Takes no memory.
    pub fn new(
        run: RunState<L, K, J>,
        out: Vec<Vec<Ticket>>,
        begun: Book<B>,
        failed: Book<F>,
    ) -> Self
        requires idle { IsIdle run }
        requires starts { starts_of run ≡ 0 }
        requires failures { failures_of run ≡ 0 }
        requires lanes { length (map (λ v. v.items) out.items) ≡ length J.facts.lanes }
        requires out { (n : ℕ) → tallies n (map (λ v. v.items) out.items) ≡ 0 }
        requires begun { begun.total ≡ 0 }
        requires failed { failed.total ≡ 0 }
        ensures { result ≡ run }
    {
        Locked {
            run,
            out,
            begun,
            failed,
        }
    }

    /// Whether no more moves come: the run is stopped or over. Takes no memory.
    pub fn is_done(&self) -> bool
        ensures { result ≡ (is_some (state_of self.now).stop || is_over (plain_of self.now) (state_of self.now)) }
    {
        self.run.flow().is_stopped() || self.run.flow().is_over()
    }

    /// Whether there is a move now. Takes no memory.
    pub fn is_ready(&self) -> bool
        ensures { TellsReady self.now result }
    {
        self.run.flow().ready().is_some()
    }

    /// The run and the tickets that are left out, with what the books tell: as many runs are owed as there are Starts,
    /// and as many lanes failed as there are stops by them. Takes no memory.
    pub fn into_parts(
        self,
        owed: &mut Share<B>,
        lost: &mut Share<F>,
    ) -> (RunState<L, K, J>, Vec<Vec<Ticket>>)
        requires owed { owed.old.parts ≡ B.parts }
        requires lost { lost.old.parts ≡ F.parts }
        ensures same { result.0 ≡ self }
        ensures free { IsFree J.facts
            (record { flow = result.0; out = map (λ v. v.items) result.1.items; begun = owed.old.amount; failed = lost.old.amount }) }
    {
        let Locked {
            run,
            out,
            mut begun,
            mut failed,
        } = self;
        begun.audit(owed);
        failed.audit(lost);
        (run, out)
    }
}
