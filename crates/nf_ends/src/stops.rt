//! The end of a run that stopped.

ghost use Rattle.std.specs.Prelude.{◌≡◌, IfOk};
ghost use Rattle.nf_ends.specs.Stops.{end_by_fault, end_by_stop};

use crate::end::{End, ItemCause};
use nf_bag::OpFault;
use nf_machine::{Outside, Stop};
use nf_value::{Mem, Place, Txt};

/// How a call ends whose run stopped: the end that names the stop, with copies of its values. `name` and `place` are the path and
/// the place of the node that the stop tells of: of a task the process's call, and of an operator its name.
///
/// # Errors
///
/// `Mem` if there is no memory for the copies.
pub fn end_of_stop(stop: &Stop, name: &Txt, place: Place) -> Result<End, Mem>
    ensures { IfOk result (λ e. e ≡ end_by_stop stop.now name.now place) }
{
    match stop {
        Stop::Charge { sum } => Ok(End::Charge { sum: *sum }),
        Stop::Op { node: _, fault } => end_of_operator(fault, place),
        Stop::Item {
            node: _,
            item,
            fault,
        } => Ok(End::ItemFault {
            place: fault.place,
            fault: ItemCause::Eval {
                item: item.copy()?,
                fault: *fault,
            },
        }),
        Stop::Task {
            node: _,
            inputs,
            n,
            fault,
        } => {
            let process = name.copy()?;
            let inputs = inputs.copy()?;
            let fault = fault.copy()?;
            Ok(End::TaskFailed {
                process,
                inputs,
                n: *n,
                fault,
            })
        }
        Stop::Outside(Outside::Lane) => Ok(End::LaneFault),
        Stop::Outside(Outside::Keeper) => Ok(End::KeeperFault),
        Stop::Mem => Ok(End::Mem),
    }
}

/// The end of an operator's fault: an operator that lacks memory ends the call by `Mem`.
fn end_of_operator(fault: &OpFault, place: Place) -> Result<End, Mem>
    ensures { IfOk result (λ e. e ≡ end_by_fault fault.now place) }
{
    match fault {
        OpFault::Mem => Ok(End::Mem),
        fault => Ok(End::ItemFault {
            place,
            fault: ItemCause::Op(fault.copy()?),
        }),
    }
}
