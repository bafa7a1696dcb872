//! `Screen`: a line on standard error, drawn anew while a run goes on.

use crate::board::Board;
use crate::counts::Step;
use crate::pace::is_due;
use nf_value::{Mem, Txt};
use std::alloc::Global;
use std::rt::Clock;
use std::time::Instant;

/// Goes to the line's begin, and erases what stands there.
const ERASE: &str = "\r\x1b[K";

/// The line on standard error that says how far a run is (own). It is for a terminal: it is drawn over itself, at most
/// ten times a second. A line that can't be made or written is passed over. A screen is closed at the end of a run, or
/// if there is no memory for a process: nothing is drawn on it any more.
#[derive(Drop)]
pub struct Screen {
    board: Board,
    last: Option<Instant>,
    is_closed: bool,
}

impl Screen {
    /// A screen with no process, on which nothing is drawn yet. Takes no memory.
    pub fn new(alloc: Global) -> Screen {
        Screen {
            board: Board::new(alloc),
            last: None,
            is_closed: false,
        }
    }

    /// How far the tasks of each process are. Takes no memory.
    pub fn board(&self) -> &Board {
        &self.board
    }

    /// A task of the process has taken these steps, one after another. A process that wasn't told before is added
    /// behind the others. Draws the line if it is time for that.
    pub fn told<R: Clock + Eprint + AllocGlobal>(&mut self, rt: &R, process: &Txt, steps: &[Step]) {
        if self.is_closed {
            return;
        }
        match self.count(process, steps) {
            Ok(()) => self.draw(rt),
            Err(Mem) => self.close(rt),
        }
    }

    /// Erases the line if one was drawn. Draws none any more.
    pub fn close<R: Eprint>(&mut self, rt: &R) {
        self.is_closed = true;
        if self.last.is_some() {
            self.last = None;
            let _ = eprint!(rt; "{ERASE}");
        }
    }

    // Counts the steps of a task of the process.
    fn count(&mut self, process: &Txt, steps: &[Step]) -> Result<(), Mem> {
        let board = &mut self.board;
        if board.place_of(process.as_str()).is_none() {
            board.add(process.copy()?)?;
        }
        if let Some(place) = board.place_of(process.as_str()) {
            for step in steps {
                board.told(place, *step);
            }
        }
        Ok(())
    }

    // Draws the line, if it is time for that.
    fn draw<R: Clock + Eprint + AllocGlobal>(&mut self, rt: &R) {
        let Ok(now) = Instant::now(rt) else {
            return;
        };
        if !is_due(self.last, now) {
            return;
        }
        self.last = Some(now);
        let Ok(line) = self.board.line(rt.alloc()) else {
            return;
        };
        let line = line.as_str();
        let _ = eprint!(rt; "{ERASE}{line}");
    }
}
