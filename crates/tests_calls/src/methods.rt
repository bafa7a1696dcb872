//! The table of methods, and what its rows are read on.

ghost use Rattle.std.specs.Prelude.{◌≡◌, IfOk};
ghost use Rattle.nf_builtins.specs.Call.{builtin_rows, IsPlainRow};

use nf_builtins::{Builtin, CallFault, Named, Table, builtins, call};
use nf_value::{Digest, EvalKind, FileRef, Mem, Pairs, Txt, Vals, Value, is_rising};
use std::alloc::Global;
use std::process::Abort;
use std::test::Fail;

#[test]
fn the_table_of_methods(rt: HostRuntime) -> Result<(), Fail> {
    let table = builtins(rt.alloc())?;
    let rows = table.rows();
    let mut closures = 0usize;
    let mut on_null = 0usize;
    for (i, row) in rows.iter().enumerate() {
        assert_eq!(rt; table.find(row.name()), Some(i));
        if row.takes_closure() {
            closures = closures.wrapping_add(1);
        }
        if row.is_on(&Value::Null) {
            on_null = on_null.wrapping_add(1);
        }
    }
    assert_eq!(rt; rows.len(), 48);
    assert_eq!(rt; closures, 5);
    assert_eq!(rt; on_null, 0);
    assert_eq!(rt; table.find("tostring"), None);
    Ok(())
}

/// The number of a row without a closure.
fn plain_row(rt: &impl Abort, table: &Table<Builtin, 48>, name: &str) -> Result<usize, Fail>
    requires { table.now ≡ builtin_rows }
    ensures { IfOk result (λ row. IsPlainRow row) }
{
    let row = table.find(name).ok_or("no row")?;
    let rows = table.rows();
    assert!(rt; row < rows.len());
    let entry = rows[row];
    assert!(rt; !entry.takes_closure());
    Ok(row)
}

/// What the row of that name gives.
fn call_row(
    rt: &impl Abort,
    alloc: Global,
    name: &str,
    recv: &Value,
    args: &Vals,
) -> Result<Result<Value, CallFault>, Fail> {
    let table = builtins(alloc)?;
    let row = plain_row(rt, &table, name)?;
    Ok(call(alloc, row, recv, args))
}

/// The kind of a call's fault.
fn kind_of(got: &Result<Value, CallFault>) -> Option<EvalKind> {
    match got {
        Err(CallFault::Kind(kind)) => Some(*kind),
        _ => None,
    }
}

/// The methods, and the letters of the kinds of `KINDS` that they are read on. Those of `Math` read no receiver.
const READ_ON: &[(&str, &str)] = &[
    ("Math.abs", "nrieflm"),
    ("Math.max", "nrieflm"),
    ("Math.min", "nrieflm"),
    ("baseName", "f"),
    ("contains", "el"),
    ("containsKey", "m"),
    ("drop", "el"),
    ("endsWith", "e"),
    ("extension", "f"),
    ("first", "l"),
    ("flatten", "l"),
    ("getBaseName", "f"),
    ("getExtension", "f"),
    ("getName", "f"),
    ("getSimpleName", "f"),
    ("indexOf", "el"),
    ("intdiv", "i"),
    ("isEmpty", "elm"),
    ("isInteger", "e"),
    ("join", "l"),
    ("keySet", "m"),
    ("last", "l"),
    ("length", "e"),
    ("max", "l"),
    ("min", "l"),
    ("name", "f"),
    ("replace", "e"),
    ("reverse", "el"),
    ("simpleName", "f"),
    ("size", "elm"),
    ("sort", "l"),
    ("startsWith", "e"),
    ("substring", "e"),
    ("sum", "l"),
    ("take", "el"),
    ("toInteger", "ei"),
    ("toLowerCase", "e"),
    ("toString", "rieflm"),
    ("toUpperCase", "e"),
    ("tokenize", "e"),
    ("trim", "e"),
    ("unique", "l"),
    ("values", "m"),
];

/// The letters of the kinds: null, a truth value, a number, a text, a file, a list and a map.
const KINDS: &str = "nrieflm";

/// A value of the kind of this letter.
fn value(rt: &impl Abort, alloc: Global, kind: char) -> Result<Value, Mem> {
    match kind {
        'r' => Ok(Value::Truth(true)),
        'i' => Ok(Value::Int(1)),
        'e' => Ok(Value::Text(a(alloc)?)),
        'f' => file(alloc),
        'l' => Ok(Value::List(Vals::of(vec![in alloc; Value::Int(1)]?))),
        'm' => map(rt, alloc),
        _ => Ok(Value::Null),
    }
}

/// The text `a`.
fn a(alloc: Global) -> Result<Txt, Mem> {
    Ok(Txt::of(String::from_str(alloc, "a")?))
}

fn file(alloc: Global) -> Result<Value, Mem> {
    let name = a(alloc)?;
    Value::of_file(
        alloc,
        FileRef {
            name,
            digest: Digest([7; 32]),
            len: 1,
        },
    )
}

fn map(rt: &impl Abort, alloc: Global) -> Result<Value, Mem> {
    let pairs = vec![in alloc; (a(alloc)?, Value::Int(1))]?;
    assert!(rt; is_rising(&pairs));
    Ok(Value::Map(Pairs::of(pairs)))
}

/// With three arguments, which are too many for every row, the fault is `Arity` where the row is read, and else `NoMethod`.
#[test]
fn what_methods_are_read_on(rt: HostRuntime) -> Result<(), Fail> {
    let alloc = rt.alloc();
    let args = Vals::of(vec![in alloc; Value::Null, Value::Null, Value::Null]?);
    for (name, on) in READ_ON.iter().copied() {
        for kind in KINDS.chars() {
            let recv = value(&rt, alloc, kind)?;
            let got = call_row(&rt, alloc, name, &recv, &args)?;
            let due = if on.contains(kind) {
                EvalKind::Arity
            } else {
                EvalKind::NoMethod
            };
            assert_eq!(rt; kind_of(&got), Some(due), "{name} on {kind}");
        }
    }
    Ok(())
}

/// Lists in each other, one more than a value may have.
fn too_deep(alloc: Global) -> Result<Value, Mem> {
    let mut deep = Value::Null;
    for _ in 0..65 {
        deep = Value::List(Vals::of(vec![in alloc; deep]?));
    }
    Ok(deep)
}

/// A method's value is limited, but not its receiver.
#[test]
fn lists_past_the_limit(rt: HostRuntime) -> Result<(), Fail> {
    let alloc = rt.alloc();
    let deep = too_deep(alloc)?;
    let none = Vals::of(Vec::new(alloc));
    let got = call_row(&rt, alloc, "reverse", &deep, &none)?;
    assert_eq!(rt; kind_of(&got), Some(EvalKind::TooDeep));
    let got = call_row(&rt, alloc, "first", &deep, &none)?;
    assert!(rt; got.is_ok());
    Ok(())
}
