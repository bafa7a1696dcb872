//! What one holding does to end a task: Reuse, put and Finish, and giving up.

ghost use Rattle.std.specs.Prelude.{◌≡◌, ◌≢◌, ◌≤◌, Some};
ghost use Rattle.nf_machine.specs.declared.event.Event.TheVariants as e;
ghost use Rattle.nf_machine.specs.declared.stop.Stop.TheVariants as s;
ghost use Rattle.nf_machine.specs.declared.stop.Outside.TheVariants as o;
ghost use Rattle.nf_flight.specs.Ticket.{number_of, node_of, inputs_of, attempt_of};
ghost use Rattle.nf_stored.specs.Attempts.{IsJobOf};
ghost use Rattle.nf_flow.specs.Seen.{grown};
ghost use Rattle.nf_flow.specs.Questions.{IsFlying};
ghost use Rattle.nf_flow.specs.Stopped.{IsNamedIfAny};
ghost use Rattle.nf_core.specs.Told.{attempt_by};
ghost use Rattle.nf_host.specs.Faults.{Rose};
ghost use Rattle.nf_keeper.specs.Faults.{OnFailed};
ghost use Rattle.nf_keeper.specs.Held.{Both};
ghost use Rattle.nf_core.specs.Kept.{LeavesRecord};
ghost use Rattle.nf_core.specs.Records.{key_of};

use crate::fixed::Fixed;
use crate::leaves::{can_end, can_start, give_back, keep_done};
use crate::ran::Ran;
use crate::run_state::RunState;
use nf_flight::Ticket;
use nf_job::{Job, Outputs, Report, TaskFault};
use nf_keeper::{Keeper, KeeperRefusal};
use nf_lane::{Finished, Lane, Present};
use nf_machine::{Outside, Stop};
use nf_record::laws::{no_front_is_a_record, records_read_back};
use nf_stored::Rules;
use nf_value::Bytes;

// Puts the job's record at the job's key, if one is kept.
fn put_record<K: Keeper>(
    keeper: &mut K,
    job: &Job,
    bytes: &Option<Bytes>,
) -> Result<(), KeeperRefusal>
    ensures later { K.faults keeper.old ≤ K.faults keeper.new }
    ensures cause { OnFailed result (Rose (K.faults keeper.old) (K.faults keeper.new)) }
    ensures content { Both (K.held keeper.old) (K.held keeper.new) (LeavesRecord (key_of job.now) bytes.now result) }
{
    match bytes {
        None => Ok(()),
        Some(bytes) => keeper.put(job.key(), bytes.items()),
    }
}

impl<L: Lane, K: Keeper, J: Fixed> RunState<L, K, J> {
    ghost use Rattle.nf_core.specs.Calls.{EndsOrUp, IsTask, IsEnteredBy, MayGiveUp};
    ghost use Rattle.nf_core.specs.Causes.{IsLeft};
    ghost use Rattle.nf_core.specs.Ran.{outs_of, report_of};

    /// Takes the report that an earlier run left of a task's job, whose files a lane found, in place of a run. The ticket comes back if the
    /// task is tried again. Where the run is stopped, the attempt is started already or there is no memory, the ticket is given up.
    pub fn reuse<R: Rules>(
        &mut self,
        ticket: Ticket,
        rules: &R,
        job: &Job,
        seen: L::Seen,
        report: Report,
        outs: Result<Outputs, TaskFault>,
    ) -> Option<Ticket>
        requires rules { R.meaning rules.now ≡ J.facts.rules }
        requires ticket { IsFlying self.old ticket }
        requires task { IsTask self.old ticket }
        requires job { IsJobOf J.facts.rules (attempt_by ticket) job.now }
        requires left { IsLeft J.facts job.now report }
        requires seen { L.Seen.genuine seen }
        requires told { L.Seen.told seen ≡ report }
        requires outs { outs ≡ J.facts.rules.outputs (node_of ticket) (inputs_of ticket) (attempt_of ticket) report }
        ensures { EndsOrUp self.old ticket (e.Reuse (number_of ticket) report outs) outs result self.new }
    {
        let _ = job;
        let RunState { flow, kept, .. } = self;
        let Ok(()) = kept.seens.reserve(1) else {
            give_back(flow, ticket);
            return None;
        };
        if !can_start(flow, &ticket) {
            give_back(flow, ticket);
            return None;
        }
        let Ok(back) = flow.reuse(ticket, rules, report, outs) else {
            return None;
        };
        kept.seens.push_reserved(seen);
        back
    }

    /// Enters what a lane gave for a task's started attempt: its record is put in the keeper, if one is kept, and then the attempt ends. The
    /// ticket comes back if the task is tried again. Where the attempt isn't started, the keeper fails or there is no memory, the ticket is
    /// given up.
    pub fn finish<R: Rules>(
        &mut self,
        ticket: Ticket,
        rules: &R,
        job: &Job,
        ran: Ran<L::Done>,
    ) -> Option<Ticket>
        requires rules { R.meaning rules.now ≡ J.facts.rules }
        requires ticket { IsFlying self.old ticket }
        requires task { IsTask self.old ticket }
        requires job { IsJobOf J.facts.rules (attempt_by ticket) job.now }
        requires ran { IsEnteredBy J.facts
            (record { genuine = L.Done.genuine; job = L.Done.job; told = L.Done.told }) ticket job.now ran }
        ensures { EndsOrUp self.old ticket (e.Finish (number_of ticket) (report_of ran) (outs_of ran)) (outs_of ran) result self.new }
    {
        records_read_back();
        no_front_is_a_record();
        let RunState {
            flow,
            kept,
            keeper,
            ..
        } = self;
        let Ran {
            done,
            report,
            outs,
            bytes,
        } = ran;
        let Ok(()) = kept.dones.reserve(1) else {
            give_back(flow, ticket);
            return None;
        };
        if !can_end(flow, &ticket) {
            give_back(flow, ticket);
            return None;
        }
        match put_record(keeper, job, &bytes) {
            Ok(()) => {}
            Err(KeeperRefusal::Failed) => {
                flow.abort(ticket, Some(Stop::Outside(Outside::Keeper)));
                return None;
            }
            Err(KeeperRefusal::Mem) => {
                give_back(flow, ticket);
                return None;
            }
        }
        let Ok(back) = flow.finish(ticket, rules, report, outs) else {
            return None;
        };
        keep_done(&mut kept.dones, done);
        back
    }

    /// Gives a ticket up: for its task's own fault, for want of memory, for a lane that failed, or without a cause if the run is stopped. Takes
    /// no memory.
    pub fn give_up(&mut self, ticket: Ticket, cause: Option<Stop>)
        requires ticket { IsFlying self.old ticket }
        requires cause { MayGiveUp J.facts.rules self.old ticket cause }
        requires keeper { cause ≢ Some (s.Outside o.Keeper) }
        requires named { IsNamedIfAny cause }
        ensures { self.new ≡ grown self.old (e.Abort (number_of ticket) cause) }
    {
        self.flow.abort(ticket, cause);
    }
}
