//! What is kept while a history is read: where the task of each ticket stands, and what was published.

ghost use Rattle.std.specs.Prelude.{◌≡◌, ◌++◌, ◌∷◌, [], IfOk, Ok, OnOk, get_or, length};
ghost use Rattle.nf_flow.specs.Questions.{inputs_in};
ghost use Rattle.nf_tasks.specs.Memory.{program};
ghost use Rattle.nf_published.specs.Published.{publishing_of};
ghost use Rattle.nf_published.specs.Reading.{Ends, ReadsOn, first_try, next_try, no_try, published_at, tries_with_next};

use crate::reports::{may_publish, targets_at};
use nf_bodies::NodeInfo;
use nf_builtins::Natives;
use nf_flow::Flow;
use nf_job::{Outputs, Report, TaskFault};
use nf_machine::Event;
use nf_tasks::{Target, Targets};
use nf_value::Mem;
use std::alloc::Global;

/// Where the task of a ticket stands.
#[derive(Clone, Copy, Drop)]
pub(crate) struct Tried {
    /// The place of its node.
    pub(crate) node: u32,
    /// The attempt that it reached, from 1.
    pub(crate) attempt: u32,
}

impl Tried {
    fn first(node: u32) -> Tried
        ensures { result ≡ first_try node }
    {
        Tried { node, attempt: 1 }
    }

    /// With one attempt more. No task has as many attempts as the number can count.
    fn next(self) -> Tried
        ensures { result ≡ next_try self }
    {
        Tried {
            node: self.node,
            attempt: self.attempt.saturating_add(1),
        }
    }
}

/// What is kept of the events so far.
#[derive(Drop)]
pub(crate) struct Reading {
    /// Where the task of each ticket stands, by the ticket's number. No ticket has the number 0.
    pub(crate) tries: Vec<Tried>,
    /// What was published.
    pub(crate) targets: Vec<Target>,
}

impl Reading {
    /// Before the first event.
    pub(crate) fn begin(alloc: Global) -> Result<Reading, Mem>
        ensures tries { IfOk result (λ r. length r.tries.items ≡ 1) }
        ensures targets { IfOk result (λ r. r.targets.items ≡ []) }
    {
        let mut tries = Vec::new(alloc);
        tries.push(Tried {
            node: 0,
            attempt: 0,
        })?;
        Ok(Reading {
            tries,
            targets: Vec::new(alloc),
        })
    }

    /// Reads the next event.
    pub(crate) fn event<N: Natives>(
        &mut self,
        alloc: Global,
        infos: &[NodeInfo],
        natives: &N,
        flow: &Flow,
        event: &Event,
    ) -> Result<(), Mem>
        requires { N.keeps natives.now }
        ensures { let n = program (N.titles natives.now) (N.answer natives.now) in
            OnOk result (ReadsOn (publishing_of n infos.now) flow.now event.now self.old self.new) }
    {
        match event {
            Event::Take { node, .. } => self.taken(*node),
            Event::Finish {
                ticket,
                report,
                outs,
            } => self.ended(alloc, infos, natives, flow, *ticket, report, outs),
            Event::Reuse {
                ticket,
                report,
                outs,
            } => self.ended(alloc, infos, natives, flow, *ticket, report, outs),
            Event::Pass { .. }
            | Event::Give { .. }
            | Event::Start { .. }
            | Event::Close { .. }
            | Event::Abort { .. }
            | Event::Halt => Ok(()),
        }
    }

    /// Notes which node took the next ticket.
    fn taken(&mut self, node: u32) -> Result<(), Mem>
        ensures tries { OnOk result (self.new.tries.items ≡ self.old.tries.items ++ first_try node ∷ []) }
        ensures targets { self.new.targets.items ≡ self.old.targets.items }
    {
        self.tries.push(Tried::first(node))?;
        Ok(())
    }

    /// Reads the end of an attempt, with its report and what that amounts to.
    fn ended<N: Natives>(
        &mut self,
        alloc: Global,
        infos: &[NodeInfo],
        natives: &N,
        flow: &Flow,
        ticket: u32,
        report: &Report,
        outs: &Result<Outputs, TaskFault>,
    ) -> Result<(), Mem>
        requires { N.keeps natives.now }
        ensures { let n = program (N.titles natives.now) (N.answer natives.now) in
            OnOk result (Ends (publishing_of n infos.now) flow.now ticket report.now outs.now self.old self.new) }
    {
        match outs {
            Ok(outputs) => self.came(alloc, infos, natives, flow, ticket, report, outputs),
            Err(_) => Ok(()),
        }
    }

    /// Reads the end of an attempt that came to these outputs.
    fn came<N: Natives>(
        &mut self,
        alloc: Global,
        infos: &[NodeInfo],
        natives: &N,
        flow: &Flow,
        ticket: u32,
        report: &Report,
        outputs: &Outputs,
    ) -> Result<(), Mem>
        requires { N.keeps natives.now }
        ensures { let n = program (N.titles natives.now) (N.answer natives.now) in
            OnOk result (Ends (publishing_of n infos.now) flow.now ticket report.now (Ok outputs.now) self.old self.new) }
    {
        match outputs {
            Outputs::Emits(_) => self.publish(alloc, infos, natives, flow, ticket, report),
            Outputs::Ignored => Ok(()),
            Outputs::Failed(_) => Ok(()),
            Outputs::Again => {
                self.again(ticket);
                Ok(())
            }
        }
    }

    /// Keeps what the report publishes, which decides the task of the ticket.
    fn publish<N: Natives>(
        &mut self,
        alloc: Global,
        infos: &[NodeInfo],
        natives: &N,
        flow: &Flow,
        ticket: u32,
        report: &Report,
    ) -> Result<(), Mem>
        requires { N.keeps natives.now }
        ensures tries { OnOk result (self.new.tries.items ≡ self.old.tries.items) }
        ensures targets { let n = program (N.titles natives.now) (N.answer natives.now) in
            OnOk result (self.new.targets.items ≡ self.old.targets.items
            ++ published_at (publishing_of n infos.now) report.now
            (get_or self.old.tries.items ticket no_try) (inputs_in flow.now ticket)) }
    {
        let tried = self.tried(ticket);
        if !may_publish(infos, tried.node) {
            return Ok(());
        }
        let Some(inputs) = flow.inputs_of(ticket)? else {
            return Ok(());
        };
        let targets = targets_at(alloc, infos, natives, tried, &inputs, report)?;
        push_all(&mut self.targets, &targets)
    }

    /// The task of the ticket is tried again.
    fn again(&mut self, ticket: u32)
        ensures tries { self.new.tries.items ≡ tries_with_next ticket self.old.tries.items }
        ensures targets { self.new.targets.items ≡ self.old.targets.items }
    {
        let place = ticket as usize;
        if place < self.tries.len() {
            let tried = self.tries[place];
            self.tries[place] = tried.next();
        }
    }

    /// Where the task of the ticket stands.
    fn tried(&self, ticket: u32) -> Tried
        ensures { result ≡ get_or self.now.tries.items ticket no_try }
    {
        match self.tries.get(ticket as usize) {
            Some(tried) => *tried,
            None => Tried {
                node: 0,
                attempt: 0,
            },
        }
    }
}

/// Adds copies of these files.
fn push_all(targets: &mut Vec<Target>, more: &Targets) -> Result<(), Mem>
    ensures { OnOk result (targets.new.items ≡ targets.old.items ++ more.now) }
{
    for target in more.items() {
        targets.push(copy_of(target)?)?;
    }
    Ok(())
}

fn copy_of(target: &Target) -> Result<Target, Mem>
    ensures { IfOk result (λ t. t ≡ target.now) }
{
    Ok(Target {
        name: target.name.copy()?,
        digest: target.digest,
    })
}
