//! `Taken`: what came of a take, read off a history event by event.

ghost use Rattle.std.specs.Prelude.{◌≡◌, ◌<◌, ◌^◌, ◌+◌, IfOk, Ok, OnOk};
ghost use Rattle.nf_flow.specs.Questions.{is_again as is_again_of};
ghost use Rattle.nf_flow.specs.Seen.{events_of};
ghost use Rattle.nf_traced.specs.Reading.{AreFew, Notes, ReadsOn, moved};
ghost use Rattle.nf_traced.specs.Takes.{IsProperRun, ended_as as ended_as_of, new_take, takes_of};

use nf_flow::Flow;
use nf_job::{Outputs, TaskFault};
use nf_machine::Event;
use nf_trace::TaskStatus;
use nf_value::Mem;
use std::alloc::Global;

/// What came of a take.
#[derive(Clone, Copy, Drop)]
pub(crate) struct Taken {
    /// The number of its ticket, from 1.
    pub(crate) ticket: u32,
    /// The place of its node.
    pub(crate) node: u32,
    /// How many takes of this process had equal inputs before; 0 for an operator.
    pub(crate) n: u32,
    /// The last attempt that it reached; of an operator 1.
    pub(crate) reached: u32,
    /// How it stands; as long as nothing came of it, as given up.
    pub(crate) status: TaskStatus,
}

impl Taken {
    fn new(ticket: u32, node: u32, n: u32) -> Taken
        ensures { result ≡ new_take ticket node n }
    {
        Taken {
            ticket,
            node,
            n,
            reached: 1,
            status: TaskStatus::Aborted,
        }
    }

    /// With a new status, and one more attempt if it is tried again.
    fn moved(self, again: bool, status: TaskStatus) -> Taken
        requires { self.reached + 1 < 2 ^ 32 }
        ensures { result ≡ moved again status self }
    {
        let reached = if again {
            self.reached + 1
        } else {
            self.reached
        };
        Taken {
            ticket: self.ticket,
            node: self.node,
            n: self.n,
            reached,
            status,
        }
    }
}

/// What came of each take of a run, in the order of its history.
pub(crate) fn takes(alloc: Global, flow: &Flow) -> Result<Vec<Taken>, Mem>
    requires { IsProperRun flow.now }
    ensures takes { IfOk result (λ v. v.items ≡ takes_of (events_of flow.now)) }
    ensures few { IfOk result (λ v. AreFew v.items) }
{
    let mut takes = Vec::new(alloc);
    let history = flow.history();
    for event in history {
        read(&mut takes, event)?;
    }
    Ok(takes)
}

/// Reads the next event. Takes the same time however many takes there are.
fn read(takes: &mut Vec<Taken>, event: &Event) -> Result<(), Mem>
    requires { AreFew takes.old.items }
    ensures { OnOk result (ReadsOn event.now takes.old.items takes.new.items) }
{
    match event {
        Event::Take {
            node,
            ticket,
            n,
            ..
        } => {
            takes.push(Taken::new(*ticket, *node, *n))?;
            Ok(())
        }
        Event::Finish {
            ticket,
            report,
            outs,
        } => {
            note(takes, *ticket, is_again(outs), ended_as(report.exit, outs));
            Ok(())
        }
        Event::Reuse {
            ticket,
            report,
            outs,
        } => {
            let status = TaskStatus::Cached { exit: report.exit };
            note(takes, *ticket, is_again(outs), status);
            Ok(())
        }
        Event::Abort { ticket, .. } => {
            note(takes, *ticket, false, TaskStatus::Aborted);
            Ok(())
        }
        Event::Pass { .. }
        | Event::Give { .. }
        | Event::Start { .. }
        | Event::Close { .. }
        | Event::Halt => Ok(()),
    }
}

/// Notes at its take what came of a ticket. Tickets are numbered from 1, in the order of their takes.
fn note(takes: &mut Vec<Taken>, ticket: u32, again: bool, status: TaskStatus)
    requires { AreFew takes.old.items }
    ensures { Notes ticket again status takes.old.items takes.new.items }
{
    if ticket == 0 {
        return;
    }
    let place = (ticket - 1) as usize;
    if place < takes.len() {
        let take = takes[place];
        takes[place] = take.moved(again, status);
    }
}

/// Whether a task is tried again whose report amounts to this.
fn is_again(outs: &Result<Outputs, TaskFault>) -> bool
    ensures { result ≡ is_again_of outs.now }
{
    match outs {
        Ok(outputs) => is_another_try(outputs),
        Err(_) => false,
    }
}

fn is_another_try(outputs: &Outputs) -> bool
    ensures { result ≡ is_again_of (Ok outputs.now) }
{
    match outputs {
        Outputs::Emits(_) => false,
        Outputs::Ignored => false,
        Outputs::Failed(_) => false,
        Outputs::Again => true,
    }
}

/// The status of a task whose attempt ended with this exit status, and whose report amounts to this.
fn ended_as(exit: i32, outs: &Result<Outputs, TaskFault>) -> TaskStatus
    ensures { result ≡ ended_as_of exit outs.now }
{
    match outs {
        Ok(outputs) => ended_with(exit, outputs),
        Err(_) => TaskStatus::Failed { exit },
    }
}

fn ended_with(exit: i32, outputs: &Outputs) -> TaskStatus
    ensures { result ≡ ended_as_of exit (Ok outputs.now) }
{
    match outputs {
        Outputs::Emits(_) => TaskStatus::Completed { exit },
        Outputs::Ignored => TaskStatus::Failed { exit },
        Outputs::Failed(_) => TaskStatus::Failed { exit },
        Outputs::Again => TaskStatus::Failed { exit },
    }
}
