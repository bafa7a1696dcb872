//! Calls of the functions that the program adds.

ghost use Rattle.std.specs.Prelude.{◌≡◌, ◌<◌, ℕ, length, Some, None, MatchOption};
ghost use Rattle.nf_value.specs.declared.fault.EvalRefusal.TheVariants.{Fault};
ghost use Rattle.nf_texts.specs.Outcome.{Gives};
ghost use Rattle.nf_placed.specs.Placed.{Evaluates};
ghost use Rattle.nf_placed.specs.Calls.{id_from, unfit_title, native_outcome, native_call};

use crate::places::{fault_at, placed};
use nf_builtins::{CallFault, Natives};
use nf_texts::limits::judged;
use nf_value::{EvalKind, EvalRefusal, Place, Vals, Value};
use std::alloc::Global;

/// `f(x)` of a function of the program, at the place of its name (own). Takes time by the number of its functions, and that of the function.
///
/// # Errors
///
/// At the place `NoMethod` where the program has no function of that name, `Native` where the function has no answer for the arguments, `TooLarge` and
/// `TooDeep` where the answer passes a limit. `Mem` where there is no memory for the answer.
pub fn native_value<N: Natives>(
    alloc: Global,
    place: Place,
    name: &str,
    args: &Vals,
    natives: &N,
) -> Result<Value, EvalRefusal>
    requires { N.keeps natives.now }
    ensures { Evaluates (native_call place name.now (N.titles natives.now) (N.answer natives.now) args.now) result }
{
    match id_of(name, natives) {
        Some(id) => placed(place, answer(alloc, id, args, natives)),
        None => Err(fault_at(place, EvalKind::NoMethod)),
    }
}

/// The answer of the function of that number, if it is within the limits.
fn answer<N: Natives>(alloc: Global, id: u32, args: &Vals, natives: &N) -> Result<Value, CallFault>
    requires id { id < length (N.titles natives.now) }
    requires kept { N.keeps natives.now }
    ensures { Gives (native_outcome (N.answer natives.now id args.now)) result }
{
    let value = natives.call(alloc, id, args)?;
    judged(value)
}

/// The fault of `f(x)` with a closure among its arguments, where `f` is no function of the script. At the place of the name: `NoMethod` where the program
/// has no such function, and else `WrongKind`, since its functions take values, in any number. Takes time by the number of the program's functions, and
/// no memory.
pub fn native_block<N: Natives>(place: Place, name: &str, natives: &N) -> EvalRefusal
    ensures { result ≡ Fault (record { kind = unfit_title (id_from 0 name.now (N.titles natives.now)); place = place }) }
{
    match id_of(name, natives) {
        Some(_) => fault_at(place, EvalKind::WrongKind),
        None => fault_at(place, EvalKind::NoMethod),
    }
}

/// The number of the first function of that name.
fn id_of<N: Natives>(name: &str, natives: &N) -> Option<u32>
    ensures number { MatchOption result (id_from 0 name.now (N.titles natives.now) ≡ None) (λ id. id_from 0 name.now (N.titles natives.now) ≡ Some id) }
    ensures within { MatchOption result (Unit {0}) (λ id. id < length (N.titles natives.now)) }
{
    for id in 0..natives.count() {
        if natives.name(id) == name {
            return Some(id);
        }
    }
    None
}
