//! `Watcher`: what the lanes, the keeper and the sink of a run tell of its tasks.

use crate::left::{Left, is_same, left_in};
use nf_job::Report;
use nf_progress::{Screen, Step};
use nf_value::{Mem, Txt};
use std::alloc::Global;
use std::rt::Clock;
use std::sync::{Arc, Mutex, Wait};

/// How many reports of earlier runs are remembered at most.
const LEFT_LIMIT: usize = 64;

/// What is known of a run while it goes on: the line on the screen, and the reports of earlier runs that the keeper
/// found and that no lane has looked for yet.
#[derive(Drop)]
struct Watched {
    screen: Screen,
    left: Vec<Left>,
}

/// One of several handles of who watches a run (own): a person at a terminal, or nobody. Nothing that is told changes
/// what a run does.
#[derive(Drop)]
pub struct Watcher<R> {
    rt: R,
    shared: Option<Arc<Mutex<Watched>>>,
}

impl<R: Wait + Clock + Eprint + AllocGlobal + Copy + Drop> Watcher<R> {
    /// Somebody who watches on standard error, if that is a terminal and there is memory; otherwise nobody.
    pub fn new(rt: R, is_terminal: bool) -> Watcher<R> {
        let shared = if is_terminal {
            shared(rt.alloc()).ok()
        } else {
            None
        };
        Watcher { rt, shared }
    }

    /// One more handle. Nobody watches by it if there can't be one more.
    pub fn again(&self) -> Watcher<R> {
        let shared = match &self.shared {
            Some(shared) => Arc::try_clone(shared).ok(),
            None => None,
        };
        Watcher {
            rt: self.rt,
            shared,
        }
    }
}

impl<R: Wait + Clock + Eprint + AllocGlobal> Watcher<R> {
    /// The line that says how far the run is. `None` if nobody watches.
    ///
    /// # Errors
    ///
    /// `Mem` if there is no memory for it.
    pub fn line(&self) -> Result<Option<String>, Mem> {
        let Some(shared) = &self.shared else {
            return Ok(None);
        };
        let watched = shared.lock(&self.rt);
        let line = watched.screen.board().line(self.rt.alloc())?;
        Ok(Some(line))
    }

    /// Erases the line. Draws none any more.
    pub fn close(&self) {
        if let Some(shared) = &self.shared {
            shared.lock(&self.rt).screen.close(&self.rt);
        }
    }

    // A task of the process has come so far.
    pub(crate) fn told(&self, process: &Txt, step: Step) {
        if let Some(shared) = &self.shared {
            shared
                .lock(&self.rt)
                .screen
                .told(&self.rt, process, &[step]);
        }
    }

    // The keeper found these bytes.
    pub(crate) fn found(&self, bytes: &[u8]) {
        let Some(shared) = &self.shared else {
            return;
        };
        match left_in(self.rt.alloc(), bytes) {
            Ok(Some(left)) => {
                let mut watched = shared.lock(&self.rt);
                if remember(&mut watched.left, left).is_err() {
                    watched.screen.close(&self.rt);
                }
            }
            Ok(None) => {}
            Err(Mem) => shared.lock(&self.rt).screen.close(&self.rt),
        }
    }

    // A lane looked for the files of the report, and they are there or not.
    pub(crate) fn looked(&self, report: &Report, is_there: bool) {
        let Some(shared) = &self.shared else {
            return;
        };
        let mut watched = shared.lock(&self.rt);
        let Some(process) = taken(&mut watched.left, report) else {
            return;
        };
        if is_there {
            watched
                .screen
                .told(&self.rt, &process, &[Step::Begun, Step::Cached]);
        }
    }
}

fn shared(alloc: Global) -> Result<Arc<Mutex<Watched>>, Mem> {
    let watched = Watched {
        screen: Screen::new(alloc),
        left: Vec::new(alloc),
    };
    Ok(Arc::new(alloc, Mutex::new(watched))?)
}

// Puts what was left behind the others. The first goes if there are too many.
fn remember(all: &mut Vec<Left>, left: Left) -> Result<(), Mem> {
    if all.len() >= LEFT_LIMIT {
        let _ = all.remove(0);
    }
    all.push(left)?;
    Ok(())
}

// Takes out the first with this report, and gives its process.
fn taken(all: &mut Vec<Left>, report: &Report) -> Option<Txt> {
    let place = all.iter().position(|left| is_same(&left.report, report))?;
    let Left { process, report: _ } = all.remove(place);
    Some(process)
}
