//! `TracedTask`: what a trace shows of a task.

ghost use Rattle.std.specs.Prelude.{◌≡◌};
ghost use Rattle.nf_trace.specs.Status.{status_name};

use nf_value::{Digest, Txt};
use std::marker::Model;

/// An attempt at a task, for which there is a job (own).
pub struct Attempt {
    /// The job's key.
    pub key: Digest,
    /// What the directive `tag` gives, if the process has one.
    pub tag: Option<Txt>,
}

impl Drop for Attempt {
    fn drop(self) {
        let Attempt { key: _, tag: _ } = self;
    }
}

/// Attempts at a task, in their order.
pub struct Attempts {
    items: Vec<Attempt>,
}

impl Drop for Attempts {
    fn drop(self) {
        let Attempts { items: _ } = self;
    }
}

impl Model for Attempts {
    ghost use Rattle.std.specs.Prelude.{List};
    ghost use Rattle.nf_trace.specs.declared.task.Attempt.{Attempt};

    ghost Value = { List Attempt };

    ghost view = { λ a. a.items.items };
}

impl Attempts {
    /// The attempts of a vector. Takes no memory.
    pub fn of(items: Vec<Attempt>) -> Attempts
        ensures { result ≡ items.items }
    {
        Attempts { items }
    }

    /// The attempts in order. Takes no memory.
    pub fn items(&self) -> &[Attempt]
        ensures { result.now ≡ self.now }
    {
        self.items.as_slice()
    }
}

/// How a task stands after its last event (own).
#[derive(Debug, Clone, Copy, PartialEq, Eq, Drop)]
pub enum TaskStatus {
    /// It ended with this exit status, and emitted its outputs.
    Completed { exit: i32 },
    /// It ended with this exit status, and emitted nothing.
    Failed { exit: i32 },
    /// Its report was taken from an earlier run, and has this exit status.
    Cached { exit: i32 },
    /// It was given up.
    Aborted,
}

impl TaskStatus {
    /// The status as a trace names it.
    pub fn name(&self) -> &'static str
        ensures { result.now ≡ status_name self.now }
    {
        match self {
            TaskStatus::Completed { .. } => "COMPLETED",
            TaskStatus::Failed { .. } => "FAILED",
            TaskStatus::Cached { .. } => "CACHED",
            TaskStatus::Aborted => "ABORTED",
        }
    }
}

/// A task that a process took, as a trace shows it (own).
pub struct TracedTask {
    /// The process's name, which is the path of its call.
    pub name: Txt,
    /// The attempts that the task reached and that have a job. Where there are none, the trace has no line of the task.
    pub attempts: Attempts,
    /// How the task stands at the end of the run.
    pub status: TaskStatus,
}

impl Drop for TracedTask {
    fn drop(self) {
        let TracedTask {
            name: _,
            attempts: _,
            status: _,
        } = self;
    }
}
