//! Values and faults at their places.

ghost use Rattle.std.specs.Prelude.{◌≡◌};
ghost use Rattle.nf_value.specs.declared.fault.EvalRefusal.TheVariants.{Fault};
ghost use Rattle.nf_placed.specs.Placed.{placed_of, refusal_of};

use nf_builtins::CallFault;
use nf_value::{EvalFault, EvalKind, EvalRefusal, Place, Value};

/// The answer of a call that stands at a place: its value, or its fault there (own). Takes no memory.
///
/// # Errors
///
/// The fault of the call at the place, or `Mem` where the call had no memory for its value.
pub fn placed(place: Place, answer: Result<Value, CallFault>) -> Result<Value, EvalRefusal>
    ensures { result ≡ placed_of place answer }
{
    match answer {
        Ok(value) => Ok(value),
        Err(fault) => Err(refusal(place, fault)),
    }
}

fn refusal(place: Place, fault: CallFault) -> EvalRefusal
    ensures { result ≡ refusal_of place fault }
{
    match fault {
        CallFault::Kind(kind) => fault_at(place, kind),
        CallFault::Mem => EvalRefusal::Mem,
    }
}

/// A fault at a place. Takes no memory.
pub fn fault_at(place: Place, kind: EvalKind) -> EvalRefusal
    ensures { result ≡ Fault (record { kind = kind; place = place }) }
{
    EvalRefusal::Fault(EvalFault { kind, place })
}
