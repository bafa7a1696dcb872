//! Why a task failed or has no job.

ghost use Rattle.std.specs.Prelude.{◌≡◌, Some, IfOk};
ghost use Rattle.nf_job.specs.Fault.{fault_text};
ghost use Rattle.nf_job.specs.declared.fault.TaskRefusal.TheVariants as refusal;

use nf_value::{EvalFault, Mem, Txt};
use std::alloc::{AllocError, AllocFailed};
use std::fmt;

/// A fault of a task (own). Printed as `Exit N`, `MissingOutput PATTERN`, `BadStdout`, `StageClash NAME` or `Eval NAME`.
pub enum TaskFault {
    /// The script ended with a status other than 0.
    Exit {
        /// The status.
        status: i32,
    },
    /// No file matches the pattern of an output that isn't optional.
    MissingOutput {
        /// The pattern.
        pattern: Txt,
    },
    /// Standard output is an output, but no text: it isn't UTF-8, or has more than 1,048,576 bytes.
    BadStdout,
    /// Two staged files have the same name.
    StageClash {
        /// The name.
        name: Txt,
    },
    /// The evaluation of an expression of the process fails.
    Eval(EvalFault),
}

impl Drop for TaskFault {
    fn drop(self) {
        match self {
            TaskFault::Exit { status: _ }
            | TaskFault::MissingOutput { pattern: _ }
            | TaskFault::BadStdout
            | TaskFault::StageClash { name: _ }
            | TaskFault::Eval(_) => {}
        }
    }
}

impl TaskFault {
    /// A copy of the fault.
    ///
    /// # Errors
    ///
    /// `Mem` if there is no memory for it.
    pub fn copy(&self) -> Result<TaskFault, Mem>
        ensures { IfOk result (λ f. f ≡ self.now) }
    {
        match self {
            TaskFault::Exit { status } => Ok(TaskFault::Exit { status: *status }),
            TaskFault::MissingOutput { pattern } => Ok(TaskFault::MissingOutput {
                pattern: pattern.copy()?,
            }),
            TaskFault::BadStdout => Ok(TaskFault::BadStdout),
            TaskFault::StageClash { name } => Ok(TaskFault::StageClash { name: name.copy()? }),
            TaskFault::Eval(fault) => Ok(TaskFault::Eval(*fault)),
        }
    }
}

impl fmt::Display for TaskFault {
    ghost output = { λ f. Some (fault_text f) };

    fn fmt<W: fmt::Write>(&self, f: &mut fmt::Formatter<W>) -> fmt::Result {
        match self {
            TaskFault::Exit { status } => write!(f, "Exit {status}"),
            TaskFault::MissingOutput { pattern } => {
                let pattern = pattern.as_str();
                write!(f, "MissingOutput {pattern}")
            }
            TaskFault::BadStdout => write!(f, "BadStdout"),
            TaskFault::StageClash { name } => {
                let name = name.as_str();
                write!(f, "StageClash {name}")
            }
            TaskFault::Eval(fault) => {
                let kind = fault.kind;
                write!(f, "Eval {kind}")
            }
        }
    }
}

/// Why a call about a task gave no answer.
#[derive(Drop)]
pub enum TaskRefusal {
    /// The task has this fault.
    Fault(TaskFault),
    /// Out of memory.
    Mem,
}

impl From<Mem> for TaskRefusal {
    ghost from_gives = { λ _ e. e ≡ refusal.Mem };

    fn from(_error: Mem) -> TaskRefusal {
        TaskRefusal::Mem
    }
}

impl From<AllocError> for TaskRefusal {
    ghost from_gives = { λ _ e. e ≡ refusal.Mem };

    fn from(_error: AllocError) -> TaskRefusal {
        TaskRefusal::Mem
    }
}

impl<T: Drop> From<AllocFailed<T>> for TaskRefusal {
    ghost from_gives = { λ _ e. e ≡ refusal.Mem };

    fn from(_error: AllocFailed<T>) -> TaskRefusal {
        TaskRefusal::Mem
    }
}
