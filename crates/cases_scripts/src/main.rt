//! Makes a table of calls of the program, over files, children and an output in memory. Standard input has a row a line:
//! the words of the call, the script that stands in `a.nf` as `«TEXT»`, and what else is there, each after a `; `. Each row is
//! printed with the exit status, what the call wrote as `«TEXT»`, how many tasks it started, and the files that the row shows.
//! Empty lines and lines that begin with `#` are printed as they are.
//!
//! What may stand after a `; `: `file PATH «BYTES»`, a file; `child «SCRIPT» STATUS «STDOUT»` and any number of ` NAME «BYTES»`,
//! what the task with this script text does; `fail N`, the host's call of this number fails; `write N after BYTES`, the output's
//! write of this number fails; `then WORDS`, a further call over what the one before left, whose answer stands behind;
//! `clear FOLDER`, what lies in the folder is taken away before the next call; `show PATH`, what the file at the path holds
//! after the last call is printed, as `PATH «BYTES»` or `no PATH`; `takes N`, behind each call is printed how many takes of the
//! node N its history has before that node's first give.
//!
//! `lanes meet`: each lane holds its first run until a second one's begins, and fails where none does in 4,000,000 turns.
//! `calls meet`: the program has one function of its own, `meet`, whose one argument is its answer; its first call waits until
//! a second begins, and there is no memory for it where none does in 4,000,000 turns. `table`: the lanes of the calls that stand
//! behind it answer from a table of what the records hold that the calls before it left.
//!
//! A row behind the word `often` is made a hundred times, each time anew, and each distinct answer is printed once.
//!
//! A row that ends with `; prefixes of PATH` stands for one row for each front of that file, from the empty one to all but its
//! last byte; it is printed with the answers to these, places in scripts left out, and before each how many rows have it.
#![tactic(auto)]

mod call;
mod history;
mod lanes;
mod meet;
mod meeting;
mod natives;
mod parts;
mod prefixes;
mod row;
mod table;
mod text;

use anyhow::Result;
use std::sync::Wait;
use std::thread::Threads;

/// How often a row is made that begins with `often`.
const OFTEN: usize = 100;

fn main(rt: HostRuntime) -> Result<()> {
    run(&rt)
}

fn run<R: AllocGlobal + Input + Print + Threads + Wait + Sync>(rt: &R) -> Result<()> {
    for line in rt.lines(rt.alloc()) {
        let line = line?;
        print_line(rt, line.as_str())?;
    }
    Ok(())
}

/// Prints a row and what its calls give.
fn print_line<R: AllocGlobal + Print + Threads + Wait + Sync>(rt: &R, line: &str) -> Result<()> {
    if line.is_empty() || line.starts_with('#') {
        println!(rt; "{line}")?;
        return Ok(());
    }
    let answer = match line.strip_prefix("often ") {
        Some(row) => distinct_answers(rt, row)?,
        None => match line.rsplit_once("; prefixes of ") {
            Some((row, path)) => prefixes::answers(rt, row, path)?,
            None => answer_of(rt, line)?,
        },
    };
    println!(rt; "{line} => {answer}")?;
    Ok(())
}

/// What the calls of a row give.
fn answer_of<R: AllocGlobal + Threads + Wait + Sync>(rt: &R, line: &str) -> Result<String> {
    let row = row::read_row(rt.alloc(), line)?;
    call::answer(rt, row)
}

/// Each distinct answer of a row that is made many times, in the order in which they came, parted by ` or `.
fn distinct_answers<R: AllocGlobal + Threads + Wait + Sync>(rt: &R, line: &str) -> Result<String> {
    let mut answers: Vec<String> = Vec::new(rt.alloc());
    let mut out = String::new(rt.alloc());
    for _ in 0..OFTEN {
        let answer = answer_of(rt, line)?;
        if answers
            .iter()
            .any(|other| other.as_str() == answer.as_str())
        {
            continue;
        }
        if !answers.is_empty() {
            out.push_str(" or ")?;
        }
        out.push_str(answer.as_str())?;
        answers.push(answer)?;
    }
    Ok(out)
}
