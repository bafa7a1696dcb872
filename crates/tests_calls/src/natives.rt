//! Functions of a program that give what no function of ours gives.

ghost use Rattle.std.specs.Prelude.{slice_get};
ghost use Rattle.nf_builtins.specs.Natives.{AnswersNative, program_answer};

use nf_builtins::{
    CallFault, NativeBook, Natives, ProgramBook, StoredNatives, program_names, program_native,
};
use nf_placed::native_value;
use nf_value::{EvalFault, EvalKind, EvalRefusal, Mem, Place, Vals, Value};
use std::alloc::Global;
use std::test::Fail;

const PLACE: Place = Place { line: 1, col: 9 };

const TOO_DEEP: EvalFault = EvalFault {
    kind: EvalKind::TooDeep,
    place: PLACE,
};

#[test]
fn functions_of_the_program(rt: HostRuntime) -> Result<(), Fail> {
    let alloc = rt.alloc();
    let natives = StoredNatives::new(
        program_names(alloc)?,
        ProgramBook,
        |alloc: Global, id: u32, args: &Vals| -> Result<Value, CallFault>
            ensures { AnswersNative (program_answer id args.entry.now) result }
        { program_native(alloc, id, args) },
    );
    assert_eq!(rt; natives.count(), 2);
    assert_eq!(rt; natives.name(0), "clamp");
    assert_eq!(rt; natives.name(1), "zeroPad");
    Ok(())
}

/// Functions that answer their first argument.
#[derive(Drop)]
struct Firsts;

impl NativeBook for Firsts {
    ghost use Rattle.std.specs.Prelude.{slice_get};

    ghost told = { λ _ id vs. slice_get vs 0 };
}

fn first(args: &Vals) -> Result<Value, CallFault>
    ensures { AnswersNative (slice_get args.now 0) result }
{
    match args.items() {
        [value, ..] => Ok(value.copy()?),
        [] => Err(CallFault::Kind(EvalKind::Native)),
    }
}

/// So many lists in each other.
fn nested(alloc: Global, lists: u32) -> Result<Value, Mem> {
    let mut value = Value::List(Vals::of(Vec::new(alloc)));
    for _ in 1..lists {
        value = Value::List(Vals::of(vec![in alloc; value]?));
    }
    Ok(value)
}

/// What a function gives is limited as any value is.
#[test]
fn functions_are_limited(rt: HostRuntime) -> Result<(), Fail> {
    let alloc = rt.alloc();
    let natives = StoredNatives::new(
        program_names(alloc)?,
        Firsts,
        |_alloc: Global, _id: u32, args: &Vals| -> Result<Value, CallFault>
            ensures { AnswersNative (slice_get args.entry.now 0) result }
        { first(args) },
    );
    let args = Vals::of(vec![in alloc; nested(alloc, 64)?]?);
    assert!(rt; native_value(alloc, PLACE, "clamp", &args, &natives).is_ok());
    let args = Vals::of(vec![in alloc; nested(alloc, 65)?]?);
    let deep = native_value(alloc, PLACE, "clamp", &args, &natives).err();
    assert_eq!(rt; deep, Some(EvalRefusal::Fault(TOO_DEEP)));
    Ok(())
}
