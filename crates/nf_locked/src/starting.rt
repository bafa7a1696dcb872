//! How the attempt of a task begins under the lock.

ghost use Rattle.std.specs.Prelude.{◌≡◌, ◌+◌, ◌<◌, ◌^◌, if◌then◌else◌, length, MatchBool};
ghost use Rattle.nf_core.specs.Told.{attempt_by};
ghost use Rattle.nf_flight.specs.Ticket.{number_of};
ghost use Rattle.nf_flow.specs.Seen.{grown};
ghost use Rattle.nf_locked.specs.Entered.{Begins, Drops};
ghost use Rattle.nf_locked.specs.Locked.{owed_by};
ghost use Rattle.nf_machine.specs.declared.event.Cause.TheVariants as cause;
ghost use Rattle.nf_machine.specs.declared.event.Event.TheVariants as e;
ghost use Rattle.nf_stored.specs.Attempts.{IsJobOf};

use crate::handed::take_back;
use crate::locked::Locked;
use crate::moves::halt;
use crate::work::Begun;
use nf_core::{Fixed, Next};
use nf_flight::Ticket;
use nf_job::Job;
use nf_keeper::Keeper;
use nf_lane::Lane;
use nf_machine::Cause;
use nf_value::Txt;
use std::sync::ledger::{Ledger, Share};

impl<L: Lane, K: Keeper, J: Fixed, B: Ledger, F: Ledger> Locked<L, K, J, B, F> {
    ghost use Rattle.nf_locked.specs.Locked.{IsBegun, IsTaskOf, WasGone};

    /// Begins the attempt of a task's ticket, whose job this is (as `RunState::begin`). If it is started, one run is
    /// owed.
    pub fn begin(&mut self, owed: &mut Share<B>, index: usize, copy: &Ticket, job: &Job) -> Begun
        requires lane { index < length J.facts.lanes }
        requires task { IsTaskOf J.facts copy.now }
        requires job { IsJobOf J.facts.rules (attempt_by copy.now) job.now }
        requires parts { 0 < owed.old.parts }
        ensures next { IsBegun J.facts job.now result }
        ensures begins { Begins self.old copy.now result self.new }
        ensures owed { owed.new.amount ≡ owed.old.amount + owed_by result }
        ensures few { owed.new.amount < 2 ^ 34 }
        ensures parts { owed.new.parts ≡ owed.old.parts }
    {
        self.few_starts(owed);
        let Locked {
            run,
            out,
            begun,
            ..
        } = self;
        let tickets = &mut out[index];
        let Some(ticket) = take_back(tickets, copy) else {
            halt(run);
            return Begun::Over;
        };
        run.holds();
        match run.begin(ticket, job) {
            Next::Run { ticket } => {
                tickets.push_reserved(ticket);
                begun.add(owed, 1);
            }
            Next::Look { ticket, report } => {
                tickets.push_reserved(ticket);
                return Begun::Look { report };
            }
            Next::Over => return Begun::Over,
        }
        self.few_starts(owed);
        Begun::Run
    }

    /// Starts the attempt of a task's ticket, whose job this is: a file of this name, of the record that an earlier run
    /// left of the job, is gone. Answers whether it did; one run is owed then. Else the ticket was given up.
    pub fn start_gone(
        &mut self,
        owed: &mut Share<B>,
        index: usize,
        copy: &Ticket,
        job: &Job,
        name: Txt,
    ) -> bool
        requires lane { index < length J.facts.lanes }
        requires task { IsTaskOf J.facts copy.now }
        requires job { IsJobOf J.facts.rules (attempt_by copy.now) job.now }
        requires gone { WasGone J.facts job.now name }
        requires parts { 0 < owed.old.parts }
        ensures starts { MatchBool result (self.new ≡ grown self.old (e.Start (number_of copy.now) (cause.Gone name)))
            (Drops self.old copy.now self.new) }
        ensures owed { owed.new.amount ≡ owed.old.amount + (if result then 1 else 0) }
        ensures few { owed.new.amount < 2 ^ 34 }
        ensures parts { owed.new.parts ≡ owed.old.parts }
    {
        self.few_starts(owed);
        let Locked {
            run,
            out,
            begun,
            ..
        } = self;
        let tickets = &mut out[index];
        let Some(ticket) = take_back(tickets, copy) else {
            halt(run);
            return false;
        };
        run.holds();
        let Some(ticket) = run.start(ticket, job, Cause::Gone { name }) else {
            return false;
        };
        tickets.push_reserved(ticket);
        begun.add(owed, 1);
        self.few_starts(owed);
        true
    }

    // A run has fewer than 2^34 Starts, so no more runs are owed.
    fn few_starts(&mut self, owed: &mut Share<B>)
        ensures same { self.new ≡ self.old }
        ensures few { owed.old.amount < 2 ^ 34 }
        ensures amount { owed.new.amount ≡ owed.old.amount }
        ensures parts { owed.new.parts ≡ owed.old.parts }
    {
        self.run.holds();
        nf_machine::laws::comes_to_an_end();
        nf_graph::laws::well_made();
        let _nodes = self.run.flow().graph().nodes();
        self.begun.audit(owed);
    }
}
