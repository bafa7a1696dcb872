//! Times a closure on the items of a list, and environments over functions.

ghost use Rattle.nf_builtins.specs.Natives.{AnswersNative, program_answer};

use crate::{numbers, took};
use anyhow::{Result, bail};
use nf_ast::{Expr, Function};
use nf_builtins::{CallFault, Natives, ProgramBook, StoredNatives, program_names, program_native};
use nf_eval::{Closure, Env, Library, Scope, apply};
use nf_value::{EvalRefusal, Mem, Place, Txt, Vals, Value};
use std::alloc::Global;
use std::rt::Clock;
use std::sync::Arc;
use std::time::Instant;

/// How often the closure is applied in all.
const CALLS: u32 = 10000;

/// How many environments are made.
const ENVIRONMENTS: u32 = 10000;

/// Makes 10,000 environments over a library of COUNT functions, and keeps them all.
pub fn environments<R: Clock + AllocGlobal + Print + Eprint>(rt: &R, count: u32) -> Result<()> {
    let alloc = rt.alloc();
    let library = library(alloc, count)?;
    let first = Env::new(alloc, Arc::new(alloc, library)?);
    let start = Instant::now(rt)?;
    let mut environments = Vec::new(alloc);
    for _ in 0..ENVIRONMENTS {
        environments.push(first.with_names(Scope::new(alloc))?)?;
    }
    took(rt, start)?;
    let made = environments.len();
    println!(rt; "environments {made}")?;
    Ok(())
}

/// A library of COUNT functions without parameters and statements.
fn library(alloc: Global, count: u32) -> Result<Library, Mem> {
    let mut library = Library::new(alloc);
    let place = Place { line: 1, col: 1 };
    for _ in 0..count {
        library.add_function(Function {
            place,
            name_place: place,
            name: Txt::of(String::from_str(alloc, "f")?),
            params: Vec::new(alloc),
            body: Vec::new(alloc),
        })?;
    }
    Ok(library)
}

/// Maps a list of COUNT numbers by `{ it * 3 + 1 }`, as often as it takes to apply the closure about 10,000 times.
pub fn closure<R: Clock + AllocGlobal + Print + Eprint>(rt: &R, count: u32) -> Result<()> {
    let alloc = rt.alloc();
    let closure = read(alloc)?;
    let natives = StoredNatives::new(
        program_names(alloc)?,
        ProgramBook,
        |alloc: Global, id: u32, args: &Vals| -> Result<Value, CallFault>
            ensures { AnswersNative (program_answer id args.entry.now) result }
        { program_native(alloc, id, args) },
    );
    let items = numbers(alloc, count)?;
    time(rt, &items, CALLS / count.max(1), &closure, &natives)
}

/// Maps a list that many times, and prints how long that took and the number of images of the last list.
fn time<R: Clock + AllocGlobal + Print + Eprint, N: Natives>(
    rt: &R,
    items: &Vals,
    rounds: u32,
    closure: &Closure,
    natives: &N,
) -> Result<()>
    requires { N.keeps natives.now }
{
    let start = Instant::now(rt)?;
    let mapped = all_mapped(rt.alloc(), items, rounds, closure, natives);
    took(rt, start)?;
    match mapped {
        Ok(len) => println!(rt; "images {len}")?,
        Err(_) => bail!("no images"),
    }
    Ok(())
}

/// The closure as a script has it.
fn read(alloc: Global) -> Result<Closure> {
    let Ok(tokens) = nf_lexer::tokens(alloc, b"{ it * 3 + 1 }") else {
        bail!("no tokens");
    };
    let Ok((expr, _)) = nf_exprs::expr(alloc, &tokens, 0) else {
        bail!("no expression");
    };
    let Expr::Closure(code) = &expr else {
        bail!("no closure");
    };
    let library = Arc::new(alloc, Library::new(alloc))?;
    Ok(Closure::new(code.copy(alloc)?, Env::new(alloc, library)))
}

/// Maps a list that many times, and gives the number of images of the last list.
fn all_mapped<N: Natives>(
    alloc: Global,
    items: &Vals,
    rounds: u32,
    closure: &Closure,
    natives: &N,
) -> Result<usize, EvalRefusal>
    requires { N.keeps natives.now }
{
    let mut len = 0;
    for _ in 0..rounds {
        len = mapped(alloc, items, closure, natives)?.len();
    }
    Ok(len)
}

fn mapped<N: Natives>(
    alloc: Global,
    items: &Vals,
    closure: &Closure,
    natives: &N,
) -> Result<Vec<Value>, EvalRefusal>
    requires { N.keeps natives.now }
{
    let mut images = Vec::new(alloc);
    for item in items.items() {
        let args = one_argument(alloc, item)?;
        images.push(apply(alloc, closure, &args, natives)?)?;
    }
    Ok(images)
}

fn one_argument(alloc: Global, item: &Value) -> Result<Vals, Mem> {
    let item = item.copy()?;
    Ok(Vals::of(vec![in alloc; item]?))
}
