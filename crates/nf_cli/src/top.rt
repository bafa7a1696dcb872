//! `nf_main`, the whole program over the traits of what lies outside it.

ghost use Rattle.std.specs.Prelude.{◌≡◌, ◌+◌, ◌<◌, ◌≤◌, ◌^◌, ℕ, All, IfOk, drop, length, map, string_bytes, take};
ghost use Rattle.std.specs.List.{sum_by};
ghost use Rattle.nf_ast.specs.Tops.{view_script};
ghost use Rattle.nf_core.specs.Told.{IsDoneOf, IsSeenOf};
ghost use Rattle.nf_host.specs.Faults.{Rose};
ghost use Rattle.nf_carried.specs.Pool.{lanes_now};
ghost use Rattle.nf_tasks.specs.Memory.{program};
ghost use Rattle.nf_meaning.specs.CallPaths.{NamesArePlain};
ghost use Rattle.nf_meaning.specs.Script.{definitions_of};
ghost use Rattle.nf_asked.specs.CommandLine.{CommandLine, IsOver};
ghost use Rattle.nf_ends.specs.Ends.{status_of};
ghost use Rattle.nf_ends.specs.Summary.{starts_in};
ghost use Rattle.nf_carried.specs.Ran.{keeper_now};
ghost use Rattle.nf_request.specs.Wishes.{wish_for};
ghost use Rattle.nf_asked.specs.Answers.{KeepsWish};
ghost use Rattle.nf_carried.specs.Carried.{IsDoable};
ghost use Rattle.nf_carried.specs.Objects.{HostNow, hands, host_now, objects, sink_now};
ghost use Rattle.nf_cli.specs.Calls.{HasPlainNames, IsRunWork, IsWorkAsked, IsWorkOf, KeepsAsked, StoresFor};
ghost use Rattle.nf_cli.specs.Calls.{call_of, lanes_for, shows_for};
ghost use Rattle.nf_cli.specs.Main.{CallEnds};
ghost use Rattle.nf_cli.specs.Planned.{script_of};

use crate::plans::planned;
use nf_asked::{Asked, AskedRun, asked};
use nf_builtins::Natives;
use nf_carried::{Shows, Way, Work, carry_out};
use nf_command::Command;
use nf_ends::{End, NfEnd};
use nf_host::{Host, Sink};
use nf_keeper::Keeper;
use nf_lane::Lane;
use nf_spelled::laws::names_are_plain;
use nf_steady::laws::{means_as_in_the_world, next_run_opens_so, runs_of_plans};
use nf_value::{Mem, Txt};
use std::alloc::Global;
use std::sync::Wait;
use std::thread::Threads;

/// How many lanes `nf_main` takes (own).
pub const LANES: usize = 16;

/// Does what a command line asks for (Nextflow documentation, "Command line", `run`; `fmt`, `check` and `gen` are own).
/// `words` are those after the program's name.
///
/// `run FILE` reads the script and its parameters, finds and stores the files of its sources, lowers it, runs its tasks
/// on as many of the 16 lanes as `-queue-size` says, at once, writes the trace if that is asked for, copies the files
/// that they publish, and writes the report and the line after it to the sink, or one error line. `gen N START` does so
/// with a script that it makes, and writes one line in place of the report. `fmt FILE` writes the script's canonical
/// text, `check FILE` the line `accepted`, or the error line of the first order rule that the script breaks; both run
/// nothing. All lanes and the keeper are given back, the lanes in their order.
///
/// `natives` are the functions that the program adds to the language. What is said of a script's files and of written
/// bytes is said over a host and a sink that reveal them. Any call may end by `End::Mem`; it wrote nothing then.
pub fn nf_main<H, K, L, N, O, T>(
    rt: &T,
    alloc: Global,
    words: &[String],
    host: &mut H,
    keeper: K,
    lanes: Vec<L>,
    natives: &N,
    out: &mut O,
) -> NfEnd<L, K>
where
    H: Host,
    K: Keeper + Send + Drop,
    L: Lane + Send + Drop,
    L::Done: Send,
    L::Seen: Send,
    N: Natives + Sync,
    O: Sink,
    T: Threads + Wait + Sync,
    requires natives { N.keeps natives.now }
    requires count { length lanes.items ≡ 16 }
    requires room { All (λ l. L.runs l < 2 ^ 62) lanes.items }
    ensures status { result.status ≡ status_of result.end }
    // The lanes ran once for each Start, and tell the worlds that they told.
    ensures runs { sum_by L.runs result.lanes.items ≡ sum_by L.runs lanes.items + starts_in result.history.items }
    ensures worlds { map L.world result.lanes.items ≡ map L.world lanes.items }
    // The host's count of failures never falls, and it starts no child.
    ensures host_later { H.faults host.old ≤ H.faults host.new }
    ensures no_start { H.started host.new ≡ H.started host.old }
    // Whatever the words and files come to, the call ends so (`CallEnds`): a text was written, the call was refused for
    // its one cause, or a script was run. Then its history is lawful, its end is owed by what the script means under
    // the outcomes that the history tells, and after Ok the report of that meaning was written, and its files are in
    // their places. No call is refused without need. The first lanes worked, as many as tasks may run at once; the
    // others did nothing. `read` is the host once the script and the files of its sources were read and stored.
    ensures ends { (line : CommandLine) × IsOver (map string_bytes words.now) (H.files host.old) line
        × (queue : ℕ) × (drop queue result.lanes.items ≡ drop queue lanes.items)
        × (read : HostNow) × (H.faults host.old ≤ read.faults) × CallEnds
        (call_of (H.files host.old) (program (N.titles natives.now) (N.answer natives.now)) line queue)
        (Rose (H.faults host.old) (H.faults host.new))
        (objects (hands (keeper_now (K.held keeper) (K.faults keeper))
        (lanes_now L.runs L.faults L.world L.store (take queue lanes.items)) read)
        (sink_now (O.written out.old) (O.faults out.old)))
        (IsDoneOf L.Done.genuine L.Done.job L.Done.told) (IsSeenOf L.Seen.genuine L.Seen.told)
        (record {
          end = result.end;
          history = result.history.items;
          dones = result.kept.dones.items;
          seens = result.kept.seens.items;
          after = objects (hands (keeper_now (K.held result.keeper) (K.faults result.keeper))
              (lanes_now L.runs L.faults L.world L.store (take queue result.lanes.items))
              (host_now (H.files host.new) (H.faults host.new)))
              (sink_now (O.written out.new) (O.faults out.new));
        }) }
{
    runs_of_plans::<L>();
    means_as_in_the_world::<L>();
    next_run_opens_so::<L>();
    let Duty { work, queue } = duty_of(alloc, words, host, natives);
    carry_out(rt, alloc, work, host, keeper, lanes, queue, natives, out)
}

/// What a call is to do, and with how many lanes.
struct Duty {
    work: Work,
    queue: usize,
}

/// What a command line asks to be done.
fn duty_of<H: Host, N: Natives>(alloc: Global, words: &[String], host: &mut H, natives: &N) -> Duty
    requires natives { N.keeps natives.now }
    ensures later { H.faults host.old ≤ H.faults host.new }
    ensures no_start { H.started host.new ≡ H.started host.old }
    ensures queue { (0 < result.queue) × (result.queue ≤ 16) }
    ensures doable { IsDoable result.work }
    ensures stored { StoresFor result.work (H.files host.old) (H.files host.new) }
    ensures work { (line : CommandLine) × IsOver (map string_bytes words.now) (H.files host.old) line
        × IsWorkOf (call_of (H.files host.old) (program (N.titles natives.now) (N.answer natives.now)) line result.queue)
        (Rose (H.faults host.old) (H.faults host.new)) result.work }
{
    names_are_plain();
    match asked(alloc, words, host) {
        Ok(asked) => duty_asked(alloc, host, asked, natives),
        Err(end) => Duty {
            work: Work::Refuse(end),
            queue: 1,
        },
    }
}

/// The same, once it is known what is asked for.
fn duty_asked<H: Host, N: Natives>(alloc: Global, host: &mut H, asked: Asked, natives: &N) -> Duty
    requires natives { N.keeps natives.now }
    requires names { HasPlainNames asked }
    requires wish { KeepsAsked asked }
    ensures later { H.faults host.old ≤ H.faults host.new }
    ensures no_start { H.started host.new ≡ H.started host.old }
    ensures queue { (0 < result.queue) × (result.queue ≤ 16) }
    ensures doable { IsDoable result.work }
    ensures stored { StoresFor result.work (H.files host.old) (H.files host.new) }
    ensures work { IsWorkAsked (program (N.titles natives.now) (N.answer natives.now)) (H.files host.old)
        (Rose (H.faults host.old) (H.faults host.new)) asked result.work result.queue }
{
    match asked {
        Asked::Write(text) => Duty {
            work: Work::Write(text),
            queue: 1,
        },
        Asked::Run(run) => {
            let queue = queue_of(&run.command);
            Duty {
                work: run_work(alloc, host, run, natives),
                queue,
            }
        }
    }
}

/// With how many lanes a command works: with as many as tasks may run at once.
fn queue_of(command: &Command) -> usize
    ensures { result ≡ lanes_for command.now }
{
    let queue = match command {
        Command::Run(words) => words.queue,
        Command::Gen { .. } | Command::Fmt { .. } | Command::Check { .. } => 4,
    };
    if queue == 0 {
        1
    } else if queue > 16 {
        16
    } else {
        queue as usize
    }
}

/// What is done of a script that is asked to be run: its plan is run, or the call is refused.
fn run_work<H: Host, N: Natives>(alloc: Global, host: &mut H, run: AskedRun, natives: &N) -> Work
    requires natives { N.keeps natives.now }
    requires names { NamesArePlain (definitions_of (view_script run.script)) }
    requires wish { KeepsWish run }
    ensures later { H.faults host.old ≤ H.faults host.new }
    ensures no_start { H.started host.new ≡ H.started host.old }
    ensures doable { IsDoable result }
    ensures stored { StoresFor result (H.files host.old) (H.files host.new) }
    ensures work { IsRunWork (script_of (program (N.titles natives.now) (N.answer natives.now)) run)
        (H.files host.old) (Rose (H.faults host.old) (H.faults host.new)) run.command result }
{
    let Ok(trace) = trace_asked(&run.command) else {
        return Work::Refuse(End::Mem);
    };
    let shows = shows_asked(&run.command);
    match planned(alloc, host, &run, natives) {
        Ok(plan) => Work::Run {
            plan,
            way: Way {
                resume: run.resume,
                folder: run.work,
                trace,
                shows,
            },
        },
        Err(end) => Work::Refuse(end),
    }
}

/// Where a command wants its trace.
fn trace_asked(command: &Command) -> Result<Option<Txt>, Mem>
    ensures { IfOk result (λ t. t ≡ (wish_for command.now).trace) }
{
    let Command::Run(words) = command else {
        return Ok(None);
    };
    match &words.trace {
        Some(path) => Ok(Some(path.copy()?)),
        None => Ok(None),
    }
}

/// What is written of a command's run: of `gen` a line, and else the report.
fn shows_asked(command: &Command) -> Shows
    ensures { result ≡ shows_for command.now }
{
    match command {
        Command::Gen { n, start } => Shows::Generated {
            n: *n,
            start: *start,
        },
        Command::Run(_) | Command::Fmt { .. } | Command::Check { .. } => Shows::Report,
    }
}
