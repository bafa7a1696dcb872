//! The lane over the system, with a real shell.

use crate::tasks::{Ending, WORK, digest_of, end_of, job_of, store_at, txt};
use nf_host::{FsHost, Host, HostRefusal};
use nf_shell::{ShellLane, is_in_store};
use nf_value::Mem;
use std::alloc::Global;
use std::test::Fail;

/// The file that each script may read.
const STAGED: &[(&str, &str)] = &[("one.in", "1")];

/// A script, its exit status, what it says, and the files that are found by `*.txt`.
type Row = (
    &'static str,
    i32,
    &'static str,
    &'static [(&'static str, &'static str)],
);

/// The names in a job's folder when the shell lists them.
const NAMES: &str = ".command.err\n.command.in\n.command.out\n.command.sh\nl.txt\none.in\n";

/// What a shell does with these scripts (POSIX, "Shell Command Language"): it writes to both outputs and reads its input and a
/// staged file, exits with 3, is ended by a signal (128 and the signal's number in dash and bash; POSIX, 2.8.2, says above 128
/// only), leaves no output, leaves a folder in an output's place, stops at a command that fails, leaves a file in a folder and a
/// symbolic link. A signal that ends the child itself leaves no exit code. The last two rows are one job, whose second try finds
/// nothing of its first.
const ROWS: &[Row] = &[
    (
        "cat; cat one.in; echo no >&2; printf b > b.txt; printf a > a.txt",
        0,
        "in1",
        &[("a.txt", "a"), ("b.txt", "b")],
    ),
    ("printf a > a.txt; exit 3", 3, "", &[("a.txt", "a")]),
    ("printf x; kill -9 $$", 137, "x", &[]),
    ("printf x; kill -9 $PPID", 255, "x", &[]),
    ("true", 0, "", &[]),
    ("mkdir a.txt; printf c > c.txt", 0, "", &[("c.txt", "c")]),
    ("printf y; false; printf z", 1, "y", &[]),
    (
        "mkdir sub; printf d > sub/d.txt; ln -s one.in e.txt",
        0,
        "",
        &[],
    ),
    (
        "ls -A > l.txt; printf a > a.txt",
        0,
        "",
        &[("a.txt", "a"), ("l.txt", NAMES)],
    ),
    (
        "ls -A > l.txt; printf a > a.txt",
        0,
        "",
        &[("a.txt", "a"), ("l.txt", NAMES)],
    ),
];

/// How a script ends on a lane of its own.
fn ends(rt: &HostRuntime, alloc: Global, row: &Row) -> Result<Ending, Mem> {
    let (script, exit, said, files) = *row;
    let job = job_of(alloc, script, STAGED, &["*.txt"])?;
    let work = txt(alloc, WORK)?;
    let mut lane = ShellLane::new(alloc, FsHost::new(rt), work);
    Ok(end_of(alloc, &mut lane, &job, exit, said, &[files]))
}

/// Makes the work folder anew, with the staged file in its file store.
fn make_store<H: Host>(alloc: Global, host: &mut H) -> Result<(), HostRefusal> {
    host.clear_dir(alloc, WORK)?;
    store_at(alloc, host, &digest_of("1"), "1")
}

#[test]
fn tasks_of_the_system(rt: HostRuntime) -> Result<(), Fail> {
    let alloc = rt.alloc();
    let mut host = FsHost::new(&rt);
    make_store(alloc, &mut host)?;
    for row in ROWS {
        let end = ends(&rt, alloc, row)?;
        assert!(rt; matches!(end, Ending::Due), "{}", row.0);
    }
    let stored = is_in_store(alloc, &mut host, WORK, &digest_of("d"))?;
    host.clear_dir(alloc, WORK)?;
    assert!(rt; !stored);
    Ok(())
}
