//! Why a run stopped.

ghost use Rattle.std.specs.Prelude.{◌≡◌, IfOk};

use nf_bag::OpFault;
use nf_job::TaskFault;
use nf_value::{EvalFault, Mem, Vals, Value};

/// What failed outside of the program (own).
#[derive(Debug, Clone, Copy, PartialEq, Eq, Drop)]
pub enum Outside {
    /// A lane.
    Lane,
    /// The keeper.
    Keeper,
}

/// Why a run stopped (own).
#[derive(Drop)]
pub enum Stop {
    /// The deliveries cost more than 67,108,864.
    Charge {
        /// What they cost.
        sum: u64,
    },
    /// An operator failed.
    Op {
        /// The operator's place among the nodes.
        node: u32,
        /// What is wrong.
        fault: OpFault,
    },
    /// An operator's closure failed on an item.
    Item {
        /// The operator's place among the nodes.
        node: u32,
        /// The item.
        item: Value,
        /// What is wrong.
        fault: EvalFault,
    },
    /// A task failed.
    Task {
        /// The process's place among the nodes.
        node: u32,
        /// The task's inputs.
        inputs: Vals,
        /// How many takes of equal inputs came before it, from 0.
        n: u32,
        /// What is wrong with it.
        fault: TaskFault,
    },
    /// Something outside of the program failed.
    Outside(Outside),
    /// Out of memory.
    Mem,
}

impl Stop {
    /// A copy of the stop.
    ///
    /// # Errors
    ///
    /// `Mem` if there is no memory for it.
    pub fn copy(&self) -> Result<Stop, Mem>
        ensures { IfOk result (λ x. x ≡ self.now) }
    {
        match self {
            Stop::Charge { sum } => Ok(Stop::Charge { sum: *sum }),
            Stop::Op { node, fault } => Ok(Stop::Op {
                node: *node,
                fault: fault.copy()?,
            }),
            Stop::Item { node, item, fault } => Ok(Stop::Item {
                node: *node,
                item: item.copy()?,
                fault: *fault,
            }),
            Stop::Task {
                node,
                inputs,
                n,
                fault,
            } => {
                let inputs = inputs.copy()?;
                let fault = fault.copy()?;
                Ok(Stop::Task {
                    node: *node,
                    inputs,
                    n: *n,
                    fault,
                })
            }
            Stop::Outside(outside) => Ok(Stop::Outside(*outside)),
            Stop::Mem => Ok(Stop::Mem),
        }
    }
}
