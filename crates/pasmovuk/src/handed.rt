//! The lanes and the keeper that the program hands to `nf_main`: over hosts of their own, in one work folder. They tell
//! who watches of the run's tasks.

ghost use Rattle.std.specs.Prelude.{◌≡◌, ◌<◌, ◌^◌, All, IfOk, length};
ghost use Rattle.nf_shell.specs.ShellLane.{runs_of};
ghost use Rattle.nf_watched.specs.WatchedLane.{inner_of};

use nf_cli::LANES;
use nf_command::{Command, read_words};
use nf_host::{Host, path_in};
use nf_keeper::FileKeeper;
use nf_shell::ShellLane;
use nf_value::{Mem, Txt};
use nf_watched::{WatchedKeeper, WatchedLane, Watcher};
use std::alloc::Global;
use std::rt::Clock;
use std::sync::Wait;

/// Whether the words ask for a script to be run.
pub fn runs_tasks(words: &[String]) -> bool {
    match words {
        [word, ..] => word.as_str() == "run" || word.as_str() == "gen",
        [] => false,
    }
}

/// The lanes, in this work folder, each over a host of its own.
pub fn lanes<R, H, F>(
    alloc: Global,
    host: &F,
    work: &str,
    watcher: &Watcher<R>,
) -> Result<Vec<WatchedLane<ShellLane<H>, R>>, Mem>
where
    R: AllocGlobal + Clock + Eprint + Wait + Copy + Drop,
    H: Host + Drop,
    F: Fn() -> H,
    requires { F.IsAlwaysCallable host.now }
    ensures count { IfOk result (λ v. length v.items ≡ 16) }
    ensures room { IfOk result (λ v. All (λ l. runs_of (inner_of l) < 2 ^ 62) v.items) }
{
    let mut lanes = Vec::with_capacity(alloc, LANES)?;
    for _ in 0..LANES {
        let work = Txt::of(String::from_str(alloc, work)?);
        let lane = ShellLane::new(alloc, host(), work);
        lanes.push(WatchedLane::new(lane, watcher.again()))?;
    }
    Ok(lanes)
}

/// The keeper of the records in this work folder, over this host.
pub fn keeper<R, H>(
    alloc: Global,
    host: H,
    work: &str,
    watcher: &Watcher<R>,
) -> Result<WatchedKeeper<FileKeeper<H>, R>, Mem>
where
    R: AllocGlobal + Clock + Eprint + Wait + Copy + Drop,
    H: Host + Drop,
{
    let folder = Txt::of(path_in(alloc, work, ".cache")?);
    let keeper = FileKeeper::new(alloc, host, folder);
    Ok(WatchedKeeper::new(keeper, watcher.again()))
}

/// The work folder that the words name; `work` if they name none.
pub fn work_folder(alloc: Global, words: &[String]) -> Result<Txt, Mem> {
    match &read_words(alloc, words) {
        Ok(Command::Run(run)) => run.work.copy(),
        Ok(_) | Err(_) => Ok(Txt::of(String::from_str(alloc, "work")?)),
    }
}
