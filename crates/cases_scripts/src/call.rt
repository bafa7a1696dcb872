//! What a row's calls give, and the files that they leave.

ghost use Rattle.std.specs.Prelude.{◌≡◌, ◌<◌, ◌^◌, All, length};
ghost use Rattle.nf_builtins.specs.Natives.{AnswersNative};
ghost use Rattle.cases_scripts.specs.Natives.{row_answer};

use crate::history::{starts_in, takes_in};
use crate::lanes::{hosts, lanes, meeting_lanes};
use crate::meeting::Meeting;
use crate::natives::{RowBook, meet_native, row_names};
use crate::row::{Row, Step, Way};
use crate::table::{RECORDS, table, table_lanes};
use crate::text::pictured;
use anyhow::{Result, bail};
use nf_builtins::{CallFault, StoredNatives, program_native};
use nf_cli::nf_main;
use nf_host::{Host, MemSink, Sink, Whole, read_whole};
use nf_keeper::{FileKeeper, Keeper};
use nf_lane::{Lane, Table};
use nf_value::{Txt, Vals, Value};
use std::alloc::Global;
use std::fmt::Write;
use std::sync::Wait;
use std::thread::Threads;

/// Beyond so many bytes of what a call wrote only their number is shown.
const SHOWN_BYTES: usize = 1000;

/// The most bytes of a file that is shown.
const FILE_BYTES: u64 = 1_048_576;

/// A call: its words, and how it is made.
#[derive(Clone, Copy, Drop)]
struct Call<'a> {
    words: &'a [String],
    way: Way,
    table: Option<&'a Table>,
}

impl<'a> Call<'a> {
    fn new(words: &'a [String], way: Way, table: Option<&'a Table>) -> Call<'a> {
        Call { words, way, table }
    }
}

/// What a call gave: its exit status, how many tasks it started, and how many takes of the row's node came before its first give.
#[derive(Clone, Copy, Drop)]
struct Given {
    status: u8,
    starts: usize,
    takes: Option<usize>,
}

/// What each call gives, after one another, and then what the files hold that the row shows.
pub(crate) fn answer<R: AllocGlobal + Threads + Wait + Sync>(rt: &R, row: Row) -> Result<String> {
    let alloc = rt.alloc();
    let Row {
        steps,
        shown,
        way,
        host,
        sink,
    } = row;
    let mut hosts = hosts(rt, alloc, host, steps.len())?;
    let Some(mut own) = hosts.pop() else {
        bail!("no host is left");
    };
    let mut sink = sink;
    let mut told = None;
    let mut out = String::new(alloc);
    for step in &steps {
        match step {
            Step::Call(words) => {
                let call = Call::new(words, way, told.as_ref());
                add_call(rt, alloc, &mut out, call, &mut hosts, &mut sink)?;
            }
            Step::Clear(folder) => own.clear_dir(alloc, folder.as_str())?,
            Step::Table => told = Some(table(alloc, &mut own)?),
        }
    }
    for path in &shown {
        add_shown(alloc, &mut out, &mut own, path.as_str())?;
    }
    Ok(out)
}

/// Makes a call, and adds what it gives.
fn add_call<R: Threads + Wait + Sync, H: Host + Send + Drop>(
    rt: &R,
    alloc: Global,
    out: &mut String,
    call: Call<'_>,
    hosts: &mut Vec<H>,
    sink: &mut MemSink,
) -> Result<()> {
    if !out.is_empty() {
        out.push_str(" then ")?;
    }
    let before = sink.written().len();
    let given = made(rt, alloc, call, hosts, sink)?;
    write!(out, "{}", given.status)?;
    add_written(alloc, out, sink.written().get(before..).unwrap_or(&[]))?;
    if given.starts > 0 {
        write!(out, ", runs {}", given.starts)?;
    }
    if let Some(takes) = given.takes {
        write!(out, ", takes {takes}")?;
    }
    Ok(())
}

/// Makes a call on hosts and lanes of its own.
fn made<R: Threads + Wait + Sync, H: Host + Send + Drop>(
    rt: &R,
    alloc: Global,
    call: Call<'_>,
    hosts: &mut Vec<H>,
    sink: &mut MemSink,
) -> Result<Given> {
    if let Some(table) = call.table {
        let lanes = table_lanes(alloc, table)?;
        return made_on(rt, alloc, call, hosts, lanes, sink);
    }
    if call.way.lanes_meet {
        let lanes = meeting_lanes(rt, alloc, hosts, "work")?;
        return made_on(rt, alloc, call, hosts, lanes, sink);
    }
    let lanes = lanes(alloc, hosts, "work")?;
    made_on(rt, alloc, call, hosts, lanes, sink)
}

/// Makes a call on these lanes.
fn made_on<R, H, L>(
    rt: &R,
    alloc: Global,
    call: Call<'_>,
    hosts: &mut Vec<H>,
    lanes: Vec<L>,
    sink: &mut MemSink,
) -> Result<Given>
where
    R: Threads + Wait + Sync,
    H: Host + Send + Drop,
    L: Lane + Send + Drop,
    L::Done: Send,
    L::Seen: Send,
    requires count { length lanes.items ≡ 16 }
    requires room { All (λ l. L.runs l < 2 ^ 62) lanes.items }
{
    let (Some(mut files), Some(kept)) = (hosts.pop(), hosts.pop()) else {
        bail!("no host is left");
    };
    let folder = Txt::of(String::from_str(alloc, RECORDS)?);
    let keeper = FileKeeper::new(alloc, kept, folder);
    main_with(rt, alloc, call, &mut files, keeper, lanes, sink)
}

/// Makes a call with the row's functions.
fn main_with<R, H, K, L, O>(
    rt: &R,
    alloc: Global,
    call: Call<'_>,
    host: &mut H,
    keeper: K,
    lanes: Vec<L>,
    out: &mut O,
) -> Result<Given>
where
    R: Threads + Wait + Sync,
    H: Host,
    K: Keeper + Send + Drop,
    L: Lane + Send + Drop,
    L::Done: Send,
    L::Seen: Send,
    O: Sink,
    requires count { length lanes.items ≡ 16 }
    requires room { All (λ l. L.runs l < 2 ^ 62) lanes.items }
{
    let meets = call.way.calls_meet;
    let meeting = Meeting::new(rt, alloc)?;
    let natives = StoredNatives::new(
        row_names(alloc, meets)?,
        RowBook { meets },
        |alloc: Global, id: u32, args: &Vals| -> Result<Value, CallFault>
            ensures { AnswersNative (row_answer meets id args.entry.now) result }
        {
            if meets {
                return meet_native(&meeting, args);
            }
            program_native(alloc, id, args)
        },
    );
    let end = nf_main(rt, alloc, call.words, host, keeper, lanes, &natives, out);
    let starts = starts_in(&end.history);
    let takes = match call.way.counted {
        Some(node) => Some(takes_in(alloc, &end.history, node)?),
        None => None,
    };
    Ok(Given {
        status: end.status,
        starts,
        takes,
    })
}

/// Adds what the file at a path holds, or that there is none.
fn add_shown<H: Host>(alloc: Global, out: &mut String, host: &mut H, path: &str) -> Result<()> {
    match read_whole(alloc, host, path, FILE_BYTES)? {
        Whole::Absent => write!(out, "; no {path}")?,
        Whole::TooLong => bail!("{path}: too long"),
        Whole::Bytes(bytes) => {
            write!(out, "; {path}")?;
            add_written(alloc, out, bytes.items())?;
        }
    }
    Ok(())
}

/// Adds what was written.
fn add_written(alloc: Global, out: &mut String, written: &[u8]) -> Result<()> {
    if written.len() > SHOWN_BYTES {
        write!(out, ", {} bytes", written.len())?;
        return Ok(());
    }
    let written = String::from_utf8_lossy(alloc, written)?;
    let written = pictured(alloc, written.as_str())?;
    write!(out, " «{written}»")?;
    Ok(())
}
