//! How tickets come back under the lock.

ghost use Rattle.std.specs.Prelude.{◌≡◌, ◌⊎◌, ◌+◌, ◌<◌, if◌then◌else◌, length, MatchBool, Some, true};
ghost use Rattle.nf_core.specs.Calls.{IsEnteredBy};
ghost use Rattle.nf_core.specs.Causes.{IsLeft};
ghost use Rattle.nf_core.specs.Ran.{outs_of, report_of};
ghost use Rattle.nf_core.specs.Told.{attempt_by};
ghost use Rattle.nf_flight.specs.Ticket.{attempt_of, inputs_of, next_attempt, node_of, number_of};
ghost use Rattle.nf_flow.specs.Seen.{grown};
ghost use Rattle.nf_locked.specs.Entered.{EndsOrDrops, EntersOrDrops, Halts};
ghost use Rattle.nf_machine.specs.declared.event.Event.TheVariants as e;
ghost use Rattle.nf_machine.specs.declared.stop.Outside.TheVariants as o;
ghost use Rattle.nf_machine.specs.declared.stop.Stop.TheVariants as s;
ghost use Rattle.nf_stored.specs.Attempts.{IsJobOf};

use crate::found::{few_attempts, give};
use crate::handed::take_back;
use crate::locked::Locked;
use crate::moves::halt;
use nf_core::{Fixed, Ran};
use nf_flight::Ticket;
use nf_job::{Job, Outputs, Report, TaskFault};
use nf_keeper::Keeper;
use nf_lane::{Finished, Lane, Present};
use nf_machine::{Outside, Stop};
use nf_stored::Rules;
use nf_value::{EvalFault, Value};
use std::sync::ledger::{Ledger, Share};

impl<L: Lane, K: Keeper, J: Fixed, B: Ledger, F: Ledger> Locked<L, K, J, B, F> {
    ghost use Rattle.nf_locked.specs.Locked.{AnswersIt, IsItemOf, IsLoss, IsTaskOf};

    /// Enters the rules' answer for the item of an operator's ticket (as `RunState::give`).
    pub fn give<R: Rules>(
        &mut self,
        index: usize,
        rules: &R,
        copy: &Ticket,
        answer: Result<Value, EvalFault>,
    )
        requires lane { index < length J.facts.lanes }
        requires rules { R.meaning rules.now ≡ J.facts.rules }
        requires item { IsItemOf J.facts copy.now }
        requires answer { AnswersIt J.facts copy.now answer }
        ensures { EntersOrDrops self.old copy.now (e.Give (number_of copy.now) answer) self.new }
    {
        let Locked { run, out, .. } = self;
        let tickets = &mut out[index];
        let Some(ticket) = take_back(tickets, copy) else {
            halt(run);
            return;
        };
        run.holds();
        give(run, ticket, rules, answer);
    }

    /// Takes the report that an earlier run left of a task's job in place of a run (as `RunState::reuse`). Answers
    /// whether the task is tried again; its ticket, for the next attempt, is out with the lane then.
    pub fn reuse<R: Rules>(
        &mut self,
        index: usize,
        rules: &R,
        copy: &Ticket,
        job: &Job,
        seen: L::Seen,
        report: Report,
        outs: Result<Outputs, TaskFault>,
    ) -> bool
        requires lane { index < length J.facts.lanes }
        requires rules { R.meaning rules.now ≡ J.facts.rules }
        requires task { IsTaskOf J.facts copy.now }
        requires job { IsJobOf J.facts.rules (attempt_by copy.now) job.now }
        requires left { IsLeft J.facts job.now report }
        requires seen { L.Seen.genuine seen }
        requires told { L.Seen.told seen ≡ report }
        requires outs { outs ≡ J.facts.rules.outputs (node_of copy.now) (inputs_of copy.now) (attempt_of copy.now) report }
        ensures again { result ≡ true → IsTaskOf J.facts (next_attempt copy.now) }
        ensures ends { EndsOrDrops self.old copy.now (e.Reuse (number_of copy.now) report outs) outs result self.new }
    {
        let Locked { run, out, .. } = self;
        let tickets = &mut out[index];
        let Some(ticket) = take_back(tickets, copy) else {
            halt(run);
            return false;
        };
        run.holds();
        let Some(ticket) = run.reuse(ticket, rules, job, seen, report, outs) else {
            return false;
        };
        few_attempts(run, &ticket);
        tickets.push_reserved(ticket);
        true
    }

    /// Enters what a lane gave for a task's started attempt, after its record is put (as `RunState::finish`). Answers
    /// whether the task is tried again; its ticket, for the next attempt, is out with the lane then.
    pub fn finish<R: Rules>(
        &mut self,
        index: usize,
        rules: &R,
        copy: &Ticket,
        job: &Job,
        ran: Ran<L::Done>,
    ) -> bool
        requires lane { index < length J.facts.lanes }
        requires rules { R.meaning rules.now ≡ J.facts.rules }
        requires task { IsTaskOf J.facts copy.now }
        requires job { IsJobOf J.facts.rules (attempt_by copy.now) job.now }
        requires ran { IsEnteredBy J.facts
            (record { genuine = L.Done.genuine; job = L.Done.job; told = L.Done.told }) copy.now job.now ran }
        ensures again { result ≡ true → IsTaskOf J.facts (next_attempt copy.now) }
        ensures ends { EndsOrDrops self.old copy.now (e.Finish (number_of copy.now) (report_of ran) (outs_of ran))
            (outs_of ran) result self.new }
    {
        let Locked { run, out, .. } = self;
        let tickets = &mut out[index];
        let Some(ticket) = take_back(tickets, copy) else {
            halt(run);
            return false;
        };
        run.holds();
        let Some(ticket) = run.finish(ticket, rules, job, ran) else {
            return false;
        };
        few_attempts(run, &ticket);
        tickets.push_reserved(ticket);
        true
    }

    /// Gives a ticket up whose lane failed. Answers whether that was entered as a stop.
    pub fn lose(&mut self, lost: &mut Share<F>, index: usize, copy: &Ticket) -> bool
        requires lane { index < length J.facts.lanes }
        requires task { IsTaskOf J.facts copy.now }
        requires parts { 0 < lost.old.parts }
        ensures is { MatchBool result
            (self.new ≡ grown self.old (e.Abort (number_of copy.now) (Some (s.Outside o.Lane)))) (Halts self.old self.new) }
        ensures lost { lost.new.amount ≡ lost.old.amount + (if result then 1 else 0) }
        ensures parts { lost.new.parts ≡ lost.old.parts }
    {
        let Locked {
            run,
            out,
            failed,
            ..
        } = self;
        let tickets = &mut out[index];
        let Some(ticket) = take_back(tickets, copy) else {
            halt(run);
            return false;
        };
        run.holds();
        run.give_up(ticket, Some(Stop::Outside(Outside::Lane)));
        failed.add(lost, 1);
        true
    }

    /// Gives a ticket up, for want of memory or since its attempt has no job.
    pub fn give_up(&mut self, index: usize, copy: &Ticket, stop: Stop)
        requires lane { index < length J.facts.lanes }
        requires stop { IsLoss J.facts copy.now stop }
        requires task { IsTaskOf J.facts copy.now }
        ensures { (self.new ≡ grown self.old (e.Abort (number_of copy.now) (Some stop))) ⊎ Halts self.old self.new }
    {
        let Locked { run, out, .. } = self;
        let tickets = &mut out[index];
        let Some(ticket) = take_back(tickets, copy) else {
            halt(run);
            return;
        };
        run.holds();
        run.give_up(ticket, Some(stop));
    }
}
