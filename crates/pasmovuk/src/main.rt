//! The program: calls `nf_main` with the command line, the system's files, shells as lanes, a folder of records and
//! standard output.
#![tactic(auto)]

mod failed;
mod handed;

ghost use Rattle.std.specs.Prelude.{◌≡◌, ◌<◌, ◌^◌, All, length};
ghost use Rattle.nf_builtins.specs.Natives.{AnswersNative, program_answer};

use crate::failed::explain;
use crate::handed::{keeper, lanes, runs_tasks, work_folder};
use nf_builtins::{CallFault, Natives, ProgramBook, StoredNatives, program_names, program_native};
use nf_cli::nf_main;
use nf_ends::End;
use nf_host::{FsHost, Host, Sink, StdSink};
use nf_keeper::Keeper;
use nf_kinds::{Broken, OrderRule};
use nf_lane::Lane;
use nf_value::{Mem, Vals, Value};
use nf_watched::{WatchedSink, Watcher};
use std::alloc::{AllocError, Global};
use std::env::Env;
use std::fs::File;
use std::io::IsTerminal;
use std::process::ExitCode;
use std::rt::{Clock, Files};
use std::sync::Wait;
use std::thread::{Builder, Threads};
use std::{env, io, thread};

/// What `--help` prints.
const HELP: &str = "pasmovuk: runs pipelines written in a subset of Nextflow DSL2

  run FILE       runs the script in FILE and prints its report
    --NAME VALUE       sets a parameter; --NAME=VALUE does so too
    -params-file FILE  reads parameters from a JSON file; the command line wins
    -resume            takes tasks from earlier runs whose records and files are there
    -queue-size N      runs at most N tasks at once, from 1 to 16; 4 without it (-qs is the same)
    -work-dir DIR      works in DIR; work without it (-w is the same)
    -with-trace FILE   writes a line for each task to FILE
  fmt FILE       prints the script in FILE in its canonical layout
  check FILE     says whether the script in FILE breaks a rule that keeps results from depending on order
  gen N START    runs a script with N items that it makes from the number START, and prints how long its report is
  --help         prints this
  --version      prints the program's name and version

  for example: pasmovuk run reads.nf -resume --outdir results
";

/// What `--version` prints.
const VERSION: &str = "pasmovuk 0.1.0\n";

/// How many bytes of stack the program may take: a script may be nested so deep that reading and lowering it takes more
/// than a program's first thread has.
const STACK_BYTES: usize = 1_073_741_824;

/// A file that has no bytes.
const NO_BYTES: &str = "/dev/null";

/// The exit status if there is no memory for the words or the lanes.
const NO_MEMORY: u8 = 5;

/// The exit status if `--help` or `--version` can't be printed.
const OUTPUT_FAILED: u8 = 4;

fn main(rt: HostRuntime) -> ExitCode {
    let _held = held(&rt);
    let is_terminal = rt.stderr().is_terminal();
    ExitCode::from(thread::scope(thread::scope_env(), &rt, |scope| {
        match Builder::new()
            .stack_size(STACK_BYTES)
            .spawn_scoped(scope, || program(&rt, is_terminal, || FsHost::new(&rt)))
        {
            Ok(thread) => thread.join(&rt),
            Err(_) => program(&rt, is_terminal, || FsHost::new(&rt)),
        }
    }))
}

/// Opens a file that has no bytes three times, if that can be done. While these files are open, no file of a task gets
/// a descriptor of standard input, output or error that the program was started without.
fn held<R: Files>(rt: &R) -> [Option<R::File>; 3] {
    [
        File::open(rt, NO_BYTES).ok(),
        File::open(rt, NO_BYTES).ok(),
        File::open(rt, NO_BYTES).ok(),
    ]
}

/// The whole program, over files and processes that `host` gives. Gives its exit status.
fn program<R, H, F>(rt: &R, is_terminal: bool, host: F) -> u8
where
    R: AllocGlobal + Clock + Env + Eprint + Print + Threads + Wait + Sync,
    H: Host + Send + Drop,
    F: Fn() -> H + Drop,
    requires { F.IsAlwaysCallable host }
{
    let alloc = rt.alloc();
    let Ok(words) = words(alloc, env::args(rt)) else {
        return NO_MEMORY;
    };
    match own_text(&words) {
        Some(text) => print(&mut StdSink::new(rt), text),
        None => call(rt, alloc, &words, is_terminal, &host).unwrap_or(NO_MEMORY),
    }
}

/// Makes what `nf_main` works with, and calls it. A person at a terminal sees how far a run is. Gives the exit status.
fn call<R, H, F>(
    rt: &R,
    alloc: Global,
    words: &[String],
    is_terminal: bool,
    host: &F,
) -> Result<u8, Mem>
where
    R: AllocGlobal + Clock + Eprint + Print + Threads + Wait + Sync,
    H: Host + Send + Drop,
    F: Fn() -> H,
    requires { F.IsAlwaysCallable host.now }
{
    let watcher = Watcher::new(rt, is_terminal && runs_tasks(words));
    let work = work_folder(alloc, words)?;
    let lanes = lanes(alloc, host, work.as_str(), &watcher)?;
    let keeper = keeper(alloc, host(), work.as_str(), &watcher)?;
    let natives = StoredNatives::new(
        program_names(alloc)?,
        ProgramBook,
        |alloc: Global, id: u32, args: &Vals| -> Result<Value, CallFault>
            ensures { AnswersNative (program_answer id args.entry.now) result }
        { program_native(alloc, id, args) },
    );
    let mut host = host();
    let mut out = WatchedSink::new(StdSink::new(rt), watcher.again());
    let status = status(
        rt, alloc, words, &mut host, keeper, lanes, &natives, &mut out,
    );
    watcher.close();
    Ok(status)
}

/// Calls `nf_main`, and gives its exit status. Of a script that isn't accepted, it says on standard error why, and what
/// to write instead; of a task that failed, where its folder is and what it wrote to standard error last.
fn status<R, H, K, L, N, O>(
    rt: &R,
    alloc: Global,
    words: &[String],
    host: &mut H,
    keeper: K,
    lanes: Vec<L>,
    natives: &N,
    out: &mut O,
) -> u8
where
    R: Eprint + Threads + Wait + Sync,
    H: Host,
    K: Keeper + Send + Drop,
    L: Lane + Send + Drop,
    L::Done: Send,
    L::Seen: Send,
    N: Natives + Sync,
    O: Sink,
    requires natives { N.keeps natives.now }
    requires count { length lanes.items ≡ 16 }
    requires room { All (λ l. L.runs l < 2 ^ 62) lanes.items }
{
    let ended = nf_main(rt, alloc, words, host, keeper, lanes, natives, out);
    match &ended.end {
        End::Order(Broken { rule, .. }) => {
            let _ = eprintln!(rt; "{}", advice(*rule));
        }
        End::TaskFailed { .. } => {
            if let Ok(work) = work_folder(alloc, words) {
                explain(rt, alloc, host, work.as_str(), &ended.history, &ended.kept);
            }
        }
        _ => {}
    }
    ended.status
}

/// Why a result can depend on order where a rule is broken, and what to write instead.
fn advice(rule: OrderRule) -> &'static str {
    match rule {
        OrderRule::ProcessQueues => {
            "which item of one queue meets which of another depends on which come first: collect() one of the two, or join or combine them into one queue"
        }
        OrderRule::Arrival => {
            "which items come first depends on which tasks end first: take from a list that toSortedList() gives, or give first or last a value channel"
        }
        OrderRule::ReduceClosure => {
            "items come in any order, so reduce takes a + b, Math.min(a, b), Math.max(a, b), a && b or a || b: collect() the items, and map the list"
        }
        OrderRule::ComparingClosure => {
            "of items that are equal by the closure the one that comes first is taken: map the items to what is compared, and leave the closure out"
        }
        OrderRule::GroupSize => {
            "a group of a size is made of the items that come first: leave size: out, so that each group has all its items"
        }
        OrderRule::SharedState => {
            "closures and tasks run in any order, so they share no name, and no task knows its number or folder: return what is needed, or pass it on as an item"
        }
    }
}

/// The words after the program's name. If one of them isn't UTF-8, a single empty word stands for all, which is no
/// command.
fn words(alloc: Global, args: io::Result<env::Args<Global>>) -> Result<Vec<String>, AllocError> {
    match args {
        Ok(args) => args.skip(1).collect(alloc),
        Err(error) if error.kind() == io::ErrorKind::InvalidData => {
            let mut words = Vec::new(alloc);
            words.push(String::new(alloc))?;
            Ok(words)
        }
        Err(_) => Err(AllocError),
    }
}

/// The text of `--help` or `--version`, if that is the only word.
fn own_text(words: &[String]) -> Option<&'static str> {
    match words {
        [word] if word.as_str() == "--help" => Some(HELP),
        [word] if word.as_str() == "--version" => Some(VERSION),
        _ => None,
    }
}

fn print<O: Sink>(out: &mut O, text: &str) -> u8 {
    match out.write(text.as_bytes()) {
        Ok(()) => 0,
        Err(_) => OUTPUT_FAILED,
    }
}
