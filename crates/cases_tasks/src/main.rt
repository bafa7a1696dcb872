//! Answers a table of questions about the tasks of processes. Standard input has a row a line, `QUESTION: PARTS`, with
//! ` | ` between the parts.
//!
//! - `process: TEXT` reads the definition of a process, which the rows after it ask about.
//! - `inputs: INPUTS` gives what the inputs take, and the names of the files that are staged.
//! - `tag: ATTEMPT` gives an attempt's tag.
//! - `job: ATTEMPT` gives the text of an attempt's job.
//! - `apart: ATTEMPT | ATTEMPT` says whether two attempts have one text.
//! - `record: ATTEMPT | REPORT` gives the record of an attempt and a report, with its number of bytes.
//! - `report: ATTEMPT | REPORT` gives what a report amounts to, and what it publishes.
//! - `stored: TEXT` puts a file of this text into the file store of the runs after it, until the next process.
//! - `child: SCRIPT | STATUS | FILES` says what a child with this script writes, and its exit status. SCRIPT is all that
//!   `.command.sh` has.
//! - `run: ATTEMPT` runs an attempt's job on a lane of shells over a host in memory. It gives the files of the job's folder
//!   when the child started, the report (each file with its number of bytes and the first byte of its digest), the number
//!   of bytes of its record, and what it amounts to.
//!
//! An ATTEMPT is `INPUTS | N | NUMBER`, and a REPORT is `EXIT | CAPTURED | FOUND`. INPUTS stands as the code of a list
//! (`nf_codec`). What was captured is `none`, `bad` or a text. A text stands in double quotes, and `\n` in it for a line
//! end. FOUND has the lists of files with `; ` between them, and `, ` between files. A file stands there as its name, `@`
//! and a number, which is its length and each byte of its digest. FILES has names, each with a blank and a text, and `, `
//! between files. Empty lines and lines that begin with `#` are printed as they are.
#![tactic(auto)]

mod attempts;
mod definition;
mod directives;
mod files;
mod inputs;
mod jobs;
mod outputs;
mod reader;
mod refusals;
mod reports;
mod runs;
mod table;

ghost use Rattle.nf_builtins.specs.Natives.{AnswersNative, program_answer};

use crate::table::Table;
use anyhow::{Result, bail};
use nf_builtins::{CallFault, Natives, ProgramBook, StoredNatives, program_names, program_native};
use nf_tasks::{ProcessSpec, laws};
use nf_value::{Vals, Value};
use std::alloc::Global;

fn main(rt: HostRuntime) -> Result<()> {
    run(&rt)
}

fn run<R: AllocGlobal + Input + Print>(rt: &R) -> Result<()> {
    let alloc = rt.alloc();
    call_laws();
    let natives = StoredNatives::new(
        program_names(alloc)?,
        ProgramBook,
        |alloc: Global, id: u32, args: &Vals| -> Result<Value, CallFault>
            ensures { AnswersNative (program_answer id args.entry.now) result }
        { program_native(alloc, id, args) },
    );
    let mut subject = Subject::of(alloc, "process P { script: '' }")?;
    for line in rt.lines(alloc) {
        let line = line?;
        if subject.takes(alloc, line.as_str())? {
            println!(rt; "{line}")?;
        } else {
            print_line(rt, line.as_str(), &subject, &natives)?;
        }
    }
    Ok(())
}

/// Calls the laws that take no job, once. No caller needs them.
fn call_laws() {
    laws::attempts_end();
    laws::without_a_job();
}

/// What rows ask about: a process, and the files and children of its runs.
#[derive(Drop)]
struct Subject {
    process: ProcessSpec,
    table: Table,
}

impl Subject {
    /// A process, and nothing yet for its runs.
    fn of(alloc: Global, text: &str) -> Result<Subject> {
        let process = definition::read(alloc, text)?;
        let table = Table::new(alloc);
        Ok(Subject { process, table })
    }

    /// Whether a row says something of it, which it takes then.
    fn takes(&mut self, alloc: Global, line: &str) -> Result<bool> {
        match line.split_once(": ") {
            Some((kind, row)) => self.takes_row(alloc, kind, row),
            None => Ok(false),
        }
    }

    fn takes_row(&mut self, alloc: Global, kind: &str, row: &str) -> Result<bool> {
        match kind {
            "process" => *self = Subject::of(alloc, row)?,
            "stored" => self.table.add_stored(alloc, row)?,
            "child" => self.table.add_child(alloc, row)?,
            _ => return Ok(false),
        }
        Ok(true)
    }
}

/// Prints a row and its answer.
fn print_line<R: AllocGlobal + Print, N: Natives>(
    rt: &R,
    line: &str,
    subject: &Subject,
    natives: &N,
) -> Result<()>
    requires { N.keeps natives.now }
{
    if line.is_empty() || line.starts_with('#') {
        println!(rt; "{line}")?;
        return Ok(());
    }
    let answer = answer(rt.alloc(), line, subject, natives)?;
    println!(rt; "{line} => {answer}")?;
    Ok(())
}

fn answer<N: Natives>(alloc: Global, row: &str, subject: &Subject, natives: &N) -> Result<String>
    requires { N.keeps natives.now }
{
    match row.split_once(": ") {
        Some((question, parts)) => answer_to(alloc, question, parts, subject, natives),
        None => bail!("{row}: no question"),
    }
}

fn answer_to<N: Natives>(
    alloc: Global,
    question: &str,
    parts: &str,
    subject: &Subject,
    natives: &N,
) -> Result<String>
    requires { N.keeps natives.now }
{
    let process = &subject.process;
    match question {
        "inputs" => jobs::inputs(alloc, parts, process),
        "tag" => jobs::tag(alloc, parts, process, natives),
        "job" => jobs::job(alloc, parts, process, natives),
        "apart" => jobs::apart(alloc, parts, process, natives),
        "record" => reports::record(alloc, parts, process, natives),
        "report" => reports::report(alloc, parts, process, natives),
        "run" => runs::run(alloc, parts, process, &subject.table, natives),
        _ => bail!("{question}: no question"),
    }
}
