//! The functions of a row's calls: the program's own, or `meet`, whose first call waits for a second.

ghost use Rattle.std.specs.Prelude.{◌≡◌, ◌<◌, ◌^◌, IfOk, length, true};
ghost use Rattle.nf_builtins.specs.Natives.{AnswersNative, are_native_names};
ghost use Rattle.cases_scripts.specs.Natives.{meet_answer, meet_names as meet_names_of, row_answer};

use crate::meeting::Meeting;
use nf_builtins::{CallFault, NativeBook, program_names};
use nf_value::{EvalKind, Mem, Txt, Vals, Value};
use std::alloc::Global;
use std::sync::Wait;

/// What the functions of a row's calls answer: those of the program, or `meet` alone (own).
#[derive(Debug, Clone, Copy, PartialEq, Eq)]
pub(crate) struct RowBook {
    pub(crate) meets: bool,
}

impl NativeBook for RowBook {
    ghost told = { λ b. row_answer b.meets };
}

/// The names of the functions.
pub(crate) fn row_names(alloc: Global, meets: bool) -> Result<Vec<Txt>, Mem>
    ensures proper { IfOk result (λ v. are_native_names v.items ≡ true) }
    ensures few { IfOk result (λ v. length v.items < 2 ^ 32) }
{
    if meets {
        return meet_names(alloc);
    }
    program_names(alloc)
}

fn meet_names(alloc: Global) -> Result<Vec<Txt>, Mem>
    ensures names { IfOk result (λ v. v.items ≡ meet_names_of) }
    ensures proper { IfOk result (λ v. are_native_names v.items ≡ true) }
{
    let mut names = Vec::new(alloc);
    names.push(Txt::of(String::from_str(alloc, "meet")?))?;
    Ok(names)
}

/// One value is its own answer. The first call waits until a second begins, and answers `Mem` where none does.
pub(crate) fn meet_native<R: Wait + Copy + Drop>(
    meeting: &Meeting<R>,
    args: &Vals,
) -> Result<Value, CallFault>
    ensures { AnswersNative (meet_answer args.now) result }
{
    match args.items() {
        [value] => {
            if !meeting.meet() {
                return Err(CallFault::Mem);
            }
            Ok(value.copy()?)
        }
        _ => Err(CallFault::Kind(EvalKind::Native)),
    }
}
