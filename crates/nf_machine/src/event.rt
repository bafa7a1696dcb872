//! The events of a run, which make up its history.

ghost use Rattle.std.specs.Prelude.{◌≡◌, IfOk};

use crate::stop::Stop;
use nf_job::{Outputs, Report, TaskFault};
use nf_value::{EvalFault, Mem, Txt, Value};

/// Why a task's attempt was started (own).
pub enum Cause {
    /// The run doesn't resume an earlier one, so no record of the attempt was asked for.
    NotAsked,
    /// The keeper has no record of the attempt.
    NoRecord,
    /// The keeper has a record, but a file that it tells of isn't there any more.
    Gone {
        /// The file's name.
        name: Txt,
    },
}

impl Drop for Cause {
    fn drop(self) {
        match self {
            Cause::NotAsked | Cause::NoRecord | Cause::Gone { name: _ } => {}
        }
    }
}

impl Cause {
    /// A copy of the cause.
    ///
    /// # Errors
    ///
    /// `Mem` if there is no memory for the name.
    pub fn copy(&self) -> Result<Cause, Mem>
        ensures { IfOk result (λ c. c ≡ self.now) }
    {
        match self {
            Cause::NotAsked => Ok(Cause::NotAsked),
            Cause::NoRecord => Ok(Cause::NoRecord),
            Cause::Gone { name } => Ok(Cause::Gone { name: name.copy()? }),
        }
    }
}

/// A step that a run can take by itself, as long as it isn't stopped (own).
#[derive(Debug, Clone, Copy, PartialEq, Eq, Drop)]
pub enum Move {
    /// The next item that the port's producer emitted passes to the port.
    Pass {
        /// The port's place among the ports of all nodes, from 0.
        port: u32,
    },
    /// An item leaves a port, or a process without a queue port takes for the one time.
    Take {
        /// The node's place, from 0.
        node: u32,
        /// The port's place among the node's ports, from 0; 0 for a process without a queue port.
        port: u32,
        /// The item's place among those that wait at the port, from 0; 0 for a process without a queue port.
        place: u32,
    },
    /// Nothing more comes to the node.
    Close {
        /// The node's place, from 0.
        node: u32,
    },
}

/// One step of a run (own).
pub enum Event {
    /// The next item that a port's producer emitted passes to the port, and is charged.
    Pass {
        /// The port's place among the ports of all nodes, from 0, in the order of the nodes and of each node's ports.
        port: u32,
    },
    /// An operator takes an item, or a process the inputs of one instance. It gets a ticket.
    Take {
        /// The node's place, from 0.
        node: u32,
        /// The port's place among the node's ports, from 0; 0 for a process without a queue port.
        port: u32,
        /// The item's place among those that wait at the port, from 0; 0 for a process without a queue port.
        place: u32,
        /// The ticket's number, from 1.
        ticket: u32,
        /// How many takes of this process had equal inputs before, from 0; 0 for an operator.
        n: u32,
    },
    /// The operator's closure answered to the ticket's item.
    Give {
        /// The ticket's number.
        ticket: u32,
        /// The answer.
        answer: Result<Value, EvalFault>,
    },
    /// The ticket's attempt starts.
    Start {
        /// The ticket's number.
        ticket: u32,
        /// Why it starts.
        cause: Cause,
    },
    /// A record of the ticket's attempt is taken in place of a start.
    Reuse {
        /// The ticket's number.
        ticket: u32,
        /// What the record tells.
        report: Report,
        /// What the report amounts to: outputs, or the task's fault.
        outs: Result<Outputs, TaskFault>,
    },
    /// The ticket's attempt ended.
    Finish {
        /// The ticket's number.
        ticket: u32,
        /// How it ended.
        report: Report,
        /// What the report amounts to: outputs, or the task's fault.
        outs: Result<Outputs, TaskFault>,
    },
    /// Nothing more comes to the node.
    Close {
        /// The node's place, from 0.
        node: u32,
    },
    /// The ticket is given up.
    Abort {
        /// The ticket's number.
        ticket: u32,
        /// Why; `None` only if the run is stopped already.
        cause: Option<Stop>,
    },
    /// There is no memory to go on, and no ticket is at hand.
    Halt,
}

impl Drop for Event {
    fn drop(self) {
        match self {
            Event::Pass { port: _ }
            | Event::Take {
                node: _,
                port: _,
                place: _,
                ticket: _,
                n: _,
            }
            | Event::Give {
                ticket: _,
                answer: _,
            }
            | Event::Start {
                ticket: _,
                cause: _,
            }
            | Event::Reuse {
                ticket: _,
                report: _,
                outs: _,
            }
            | Event::Finish {
                ticket: _,
                report: _,
                outs: _,
            }
            | Event::Close { node: _ }
            | Event::Abort {
                ticket: _,
                cause: _,
            }
            | Event::Halt => {}
        }
    }
}
