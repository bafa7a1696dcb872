//! `Board`: how far the tasks of all processes are, and the line that says so.

ghost use Rattle.std.specs.Prelude.{◌≡◌, ◌++◌, ◌∷◌, [], ◌≤◌, IfOk, OnOk, OnErr, string_len};
ghost use Rattle.std.specs.List.{position};
ghost use Rattle.nf_progress.specs.Board.{fresh, is_of, tasks_of, told_of};

use crate::counts::{Counts, Step};
use nf_value::{Mem, Txt};
use std::alloc::Global;

/// How many bytes a line has at most, so that it fits a terminal of 80 columns.
const WIDTH: usize = 79;

/// A process with how far its tasks are.
#[derive(Drop)]
pub(crate) struct Tasks {
    pub(crate) process: Txt,
    pub(crate) counts: Counts,
}

/// How far the tasks of each process of a run are (own).
pub struct Board {
    pub(crate) processes: Vec<Tasks>,
}

impl Drop for Board {
    fn drop(self) {
        let Board { processes: _ } = self;
    }
}

impl Board {
    /// No process yet. Takes no memory.
    pub fn new(alloc: Global) -> Board
        ensures { tasks_of result ≡ [] }
    {
        Board {
            processes: Vec::new(alloc),
        }
    }

    /// Adds a process behind the others, none of whose tasks has begun.
    ///
    /// # Errors
    ///
    /// `Mem` if there is no memory for it. The board is unchanged.
    pub fn add(&mut self, process: Txt) -> Result<(), Mem>
        ensures ok { OnOk result (tasks_of self.new ≡ tasks_of self.old ++ fresh process ∷ []) }
        ensures err { OnErr result (tasks_of self.new ≡ tasks_of self.old) }
    {
        self.processes.push(Tasks {
            process,
            counts: Counts::NONE,
        })?;
        Ok(())
    }

    /// The place of the first process of this name, if there is one. Takes no memory.
    pub fn place_of(&self, process: &str) -> Option<usize>
        ensures { result ≡ position (is_of process.now) (tasks_of self.now) }
    {
        self.processes
            .iter()
            .position(|tasks| is_of(process, tasks))
    }

    /// A task of the process at this place has come so far. Nothing changes if there is no process there. Takes no memory.
    pub fn told(&mut self, process: usize, step: Step)
        ensures { tasks_of self.new ≡ told_of (tasks_of self.old) process step }
    {
        if process < self.processes.len() {
            let tasks = &mut self.processes[process];
            tasks.counts = tasks.counts.after(step);
        }
    }

    /// One line of at most 79 bytes: each process with its counts, in their order. One that has no room in the line is left out.
    ///
    /// # Errors
    ///
    /// `Mem` if there is no memory for it.
    pub fn line(&self, alloc: Global) -> Result<String, Mem>
        ensures { IfOk result (λ t. string_len t ≤ 79) }
    {
        let mut line = String::new(alloc);
        for tasks in &self.processes {
            add_to(&mut line, part(alloc, tasks)?.as_str())?;
        }
        Ok(line)
    }
}

// Whether tasks are those of a process of this name.
fn is_of(process: &str, tasks: &Tasks) -> bool
    ensures { result ≡ is_of process.now tasks.now }
{
    tasks.process.as_str() == process
}

// A process with its counts, and what parts it from the next: `ALIGN: 3 done, 1 cached, 2 running. `.
fn part(alloc: Global, tasks: &Tasks) -> Result<String, Mem> {
    let process = tasks.process.as_str();
    let Counts {
        done,
        cached,
        running,
    } = tasks.counts;
    Ok(format!(in alloc; "{process}: {done} done, {cached} cached, {running} running. ")?)
}

// Adds a part to the line if there is room for it.
fn add_to(line: &mut String, part: &str) -> Result<(), Mem>
    requires { string_len line.old ≤ 79 }
    ensures { string_len line.new ≤ 79 }
{
    if part.len() <= WIDTH.saturating_sub(line.len()) {
        line.push_str(part)?;
    }
    Ok(())
}
