//! What one holding does to begin a task: the look-up in the keeper, and Start.

ghost use Rattle.std.specs.Prelude.{◌≡◌, ◌≤◌, IfSome, IfOk, true};
ghost use Rattle.std.specs.Option.{option_copied};
ghost use Rattle.nf_host.specs.Faults.{Rose};
ghost use Rattle.nf_keeper.specs.Faults.{OnFailed};
ghost use Rattle.nf_machine.specs.declared.event.Cause.TheVariants as cause;
ghost use Rattle.nf_record.specs.Lookup.{IsAnswer};
ghost use Rattle.nf_stored.specs.Attempts.{IsJobOf};
ghost use Rattle.nf_flow.specs.Seen.{events_of, plain_of};
ghost use Rattle.nf_flow.specs.Questions.{IsFlying};
ghost use Rattle.nf_core.specs.Calls.{run_or_over};
ghost use Rattle.nf_core.specs.Leaves.{older_in};
ghost use Rattle.nf_core.specs.Records.{key_of, writes_by};
ghost use Rattle.nf_core.specs.Told.{attempt_by, told_in};

use crate::fixed::Fixed;
use crate::leaves::{give_back, is_fresh, start_in};
use crate::next::Next;
use crate::run_state::RunState;
use nf_flight::Ticket;
use nf_job::{Job, Report};
use nf_keeper::{Keeper, KeeperRefusal};
use nf_lane::Lane;
use nf_machine::{Cause, Outside, Stop};
use nf_record::laws::records_read_back;
use nf_record::lookup;
use nf_value::Bytes;
use std::alloc::Global;

// The bytes at the key of the job's older text, if it has one.
fn get_older<K: Keeper>(
    alloc: Global,
    keeper: &mut K,
    job: &Job,
) -> Result<Option<Bytes>, KeeperRefusal>
    ensures later { K.faults keeper.old ≤ K.faults keeper.new }
    ensures cause { OnFailed result (Rose (K.faults keeper.old) (K.faults keeper.new)) }
    ensures same { K.held keeper.new ≡ K.held keeper.old }
    ensures content { IfSome (K.held keeper.old) (λ m. IfOk result (λ o. o ≡ older_in m job.now)) }
{
    match job.old() {
        None => Ok(None),
        Some(older) => keeper.get(alloc, older.key()),
    }
}

// The report that the keeper's records have for the job, at both of its keys.
fn report_in<K: Keeper>(
    alloc: Global,
    keeper: &mut K,
    job: &Job,
) -> Result<Option<Report>, KeeperRefusal>
    ensures later { K.faults keeper.old ≤ K.faults keeper.new }
    ensures cause { OnFailed result (Rose (K.faults keeper.old) (K.faults keeper.new)) }
    ensures same { K.held keeper.new ≡ K.held keeper.old }
    ensures content { IfSome (K.held keeper.old) (λ m. IfOk result (IsAnswer (m (key_of job.now)) (older_in m job.now) job.now)) }
{
    let bytes = keeper.get(alloc, job.key())?;
    let older = get_older(alloc, keeper, job)?;
    Ok(lookup(alloc, slice_of(&bytes), slice_of(&older), job)?)
}

fn slice_of(bytes: &Option<Bytes>) -> Option<&[u8]>
    ensures { option_copied result ≡ bytes.now }
{
    match bytes {
        None => None,
        Some(bytes) => Some(bytes.items()),
    }
}

// The run of a ticket's attempt, if it started.
fn run_or_over(started: Option<Ticket>) -> Next
    ensures { result ≡ run_or_over started }
{
    match started {
        Some(ticket) => Next::Run { ticket },
        None => Next::Over,
    }
}

impl<L: Lane, K: Keeper, J: Fixed> RunState<L, K, J> {
    ghost use Rattle.nf_core.specs.Calls.{IsNext, IsTask, Starts};
    ghost use Rattle.nf_core.specs.Causes.{IsCaused};

    /// Begins the attempt of a task's ticket, whose job this is: in a run that resumes an earlier one the keeper is asked for the job's
    /// record, at the job's key and then at its older key, and without a record the attempt starts. Where the run is stopped, the attempt is
    /// started already, the keeper fails or there is no memory, the ticket is given up.
    pub fn begin(&mut self, ticket: Ticket, job: &Job) -> Next
        requires ticket { IsFlying self.old ticket }
        requires task { IsTask self.old ticket }
        requires job { IsJobOf J.facts.rules (attempt_by ticket) job.now }
        ensures { IsNext J.facts job.now self.old ticket result self.new }
    {
        if self.resume {
            return self.ask(ticket, job);
        }
        run_or_over(self.start(ticket, job, Cause::NotAsked))
    }

    // The same in a run that resumes an earlier one.
    fn ask(&mut self, ticket: Ticket, job: &Job) -> Next
        requires ticket { IsFlying self.old ticket }
        requires task { IsTask self.old ticket }
        requires job { IsJobOf J.facts.rules (attempt_by ticket) job.now }
        requires resumed { J.facts.resumed ≡ true }
        ensures { IsNext J.facts job.now self.old ticket result self.new }
    {
        records_read_back();
        let RunState {
            alloc,
            flow,
            keeper,
            ..
        } = self;
        if !is_fresh(flow, &ticket) {
            give_back(flow, ticket);
            return Next::Over;
        }
        let found = match report_in(*alloc, keeper, job) {
            Ok(found) => found,
            Err(KeeperRefusal::Failed) => {
                flow.abort(ticket, Some(Stop::Outside(Outside::Keeper)));
                return Next::Over;
            }
            Err(KeeperRefusal::Mem) => {
                give_back(flow, ticket);
                return Next::Over;
            }
        };
        if let Some(report) = found {
            return Next::Look { ticket, report };
        }
        run_or_over(start_in(flow, ticket, Cause::NoRecord))
    }

    /// Starts the attempt of a task's ticket, whose job this is, with its true cause. Where the run is stopped, the attempt is started already
    /// or there is no memory, the ticket is given up.
    pub fn start(&mut self, ticket: Ticket, job: &Job, cause: Cause) -> Option<Ticket>
        requires ticket { IsFlying self.old ticket }
        requires task { IsTask self.old ticket }
        requires job { IsJobOf J.facts.rules (attempt_by ticket) job.now }
        requires cause { IsCaused J.facts (told_in (writes_by J.facts.rules) (plain_of self.old) (events_of self.old)) job.now cause }
        ensures { Starts self.old ticket cause result self.new }
    {
        let _ = job;
        let RunState { flow, .. } = self;
        start_in(flow, ticket, cause)
    }
}
