//! `FsHost`: the system's files and processes.

ghost use Rattle.std.specs.Prelude.{◌≡◌, ◌⊎◌, ◌↔◌, ◌≤◌, None, Ok, IfSome, IfOk, OnErr, IsErr, IsTrue, length, take};
ghost use Rattle.std.specs.IoError.{error_kind};
ghost use Rattle.nf_host.specs.Faults.{Rose, OnFailed};

use crate::host::{Host, HostRefusal, PIECE_LEN, Piece};
use crate::status::status_of;
use nf_value::{Bytes, Mem, Txt};
use std::alloc::{AllocError, AllocFailed, Global};
use std::collections::BTreeSet;
use std::fs::{File, OpenOptions};
use std::io::{ErrorKind, Read, Seek, SeekFrom, Write};
use std::process::{Command, ExitStatus, Processes, Stdio};
use std::rt::Files;
use std::{fs, io};

// What a shell is given to run a folder's script: the folder is its `$0`. It may begin with `-`, and is looked for in no other
// folder.
const CHILD_COMMAND: &str =
    "CDPATH= cd -- \"$0\" && sh -ue .command.sh < .command.in > .command.out 2> .command.err";

/// The files and processes of the system that the program runs on. It doesn't reveal them. A path that is missing, empty or
/// leads through a plain file is absent; a folder in a file's place is a failure (own).
///
/// It keeps the file open that it made last, so that the pieces of a long file are written without opening it anew. It closes
/// that file before it makes or renames a file, clears a folder or starts a child.
#[derive(Drop)]
pub struct FsHost<R: Files> {
    rt: R,
    faults: u64,
    written: Option<Written<R::File>>,
}

// The file that was made last, and its path.
#[derive(Drop)]
struct Written<F> {
    path: String,
    file: F,
}

impl<R: Files + Processes + Copy + Drop> FsHost<R> {
    ghost use Rattle.nf_host.specs.FsHost.{faults_of};

    /// A host over the runtime's files and processes. Takes no memory.
    pub fn new(rt: R) -> FsHost<R>
        ensures { faults_of result ≡ 0 }
    {
        FsHost {
            rt,
            faults: 0,
            written: None,
        }
    }

    fn fail(&mut self) -> HostRefusal
        ensures failed { result ≡ HostRefusal.Failed }
        ensures later { faults_of self.old ≤ faults_of self.new }
        ensures rose { Rose (faults_of self.old) (faults_of self.new) }
    {
        self.faults = self.faults.saturating_add(1);
        HostRefusal::Failed
    }

    // Hands on an answer of the system. An error is counted, unless it is want of memory.
    fn count<T>(&mut self, answer: io::Result<T>) -> Result<T, HostRefusal>
        ensures same { IfOk answer (λ x. result ≡ Ok x) }
        ensures error { OnErr answer (IsErr result) }
        ensures later { faults_of self.old ≤ faults_of self.new }
        ensures cause { OnFailed result (Rose (faults_of self.old) (faults_of self.new)) }
    {
        match answer {
            Ok(value) => Ok(value),
            Err(error) if error.kind() == ErrorKind::OutOfMemory => Err(HostRefusal::Mem),
            Err(_) => Err(self.fail()),
        }
    }
}

impl<R: Files + Processes + Copy + Drop> Host for FsHost<R> {
    ghost use Rattle.nf_host.specs.FsHost.{faults_of};

    ghost files = { λ _. None };

    ghost started = { λ _. None };

    ghost faults = { faults_of };

    fn read_at(&mut self, alloc: Global, path: &str, at: u64) -> Result<Piece, HostRefusal> {
        let mut room = vec![in alloc; 0u8; PIECE_LEN]?;
        let mut file = match open_at(&self.rt, path, at) {
            Ok(file) => file,
            Err(error) if is_absence(&error) => return Ok(Piece::Absent),
            Err(_) => return Err(self.fail()),
        };
        match read_front(&mut file, at, &mut room) {
            Ok(len) => {
                room.truncate(len);
                Ok(Piece::Bytes(Bytes::of(room)))
            }
            Err(_) => Err(self.fail()),
        }
    }

    fn list(&mut self, alloc: Global, dir: &str) -> Result<Option<Vec<Txt>>, HostRefusal> {
        let names = own_names(self.rt, alloc, dir);
        match self.count(names)? {
            Some(names) => Ok(Some(texts_of(alloc, names)?)),
            None => Ok(None),
        }
    }

    fn make_dir(&mut self, dir: &str) -> Result<(), HostRefusal> {
        let made = fs::create_dir_all(&self.rt, dir);
        self.count(made)
    }

    fn clear_dir(&mut self, alloc: Global, dir: &str) -> Result<(), HostRefusal> {
        self.written = None;
        let cleared = clear_at(self.rt, alloc, dir);
        self.count(cleared)
    }

    fn create(&mut self, alloc: Global, path: &str) -> Result<(), HostRefusal> {
        self.written = None;
        let name = String::from_str(alloc, path)?;
        let created = create_plain(&self.rt, path);
        let file = self.count(created)?;
        self.written = Some(Written { path: name, file });
        Ok(())
    }

    fn append(&mut self, _alloc: Global, path: &str, piece: &[u8]) -> Result<(), HostRefusal> {
        let appended = match &mut self.written {
            Some(written) if written.path.as_str() == path => written.file.write_all(piece),
            _ => append_all(&self.rt, path, piece),
        };
        self.count(appended)
    }

    fn rename(&mut self, _alloc: Global, from: &str, to: &str) -> Result<(), HostRefusal> {
        self.written = None;
        let renamed = fs::rename(&self.rt, from, to);
        self.count(renamed)
    }

    fn child(&mut self, alloc: Global, dir: &str) -> Result<i32, HostRefusal> {
        self.written = None;
        let status = run_child(&self.rt, alloc, dir);
        Ok(status_of(self.count(status)?))
    }

    fn faults(&self) -> u64 {
        self.faults
    }
}

// The names of a folder's own plain files, or nothing if the folder isn't there. A symbolic link is no plain file.
fn own_names<R: Files + Copy + Drop>(
    rt: R,
    alloc: Global,
    dir: &str,
) -> io::Result<Option<BTreeSet<String>>> {
    let entries = match fs::read_dir(&(rt, alloc), if dir.is_empty() { "." } else { dir }) {
        Ok(entries) => entries,
        Err(error) if is_absence(&error) => return Ok(None),
        Err(error) => return Err(error),
    };
    let mut names = BTreeSet::new(alloc);
    for entry in entries {
        let entry = entry?;
        if entry.file_type()?.is_file() {
            names.insert(String::from_str(alloc, entry.file_name())?)?;
        }
    }
    Ok(Some(names))
}

fn texts_of(alloc: Global, names: BTreeSet<String>) -> Result<Vec<Txt>, Mem> {
    let mut texts = Vec::new(alloc);
    for name in names {
        texts.push(Txt::of(name))?;
    }
    Ok(texts)
}

// Removes a folder with all that lies in it, or the link or plain file that stands in its place.
fn clear_at<R: Files + Copy + Drop>(rt: R, alloc: Global, dir: &str) -> io::Result<()> {
    match fs::symlink_metadata(&rt, dir) {
        Ok(found) if found.is_dir() => rt.remove_dir_all(alloc, dir),
        Ok(_) => fs::remove_file(&rt, dir),
        Err(error) if is_absence(&error) => Ok(()),
        Err(error) => Err(error),
    }
}

// Opens a file to read it from byte `at` on. Before its front is read, it is seen to be a plain file: to open a pipe may take
// for ever. A link or a pipe in the place of a task's own file is absent, since the task made it: a link may lead anywhere.
fn open_at<R: Files>(rt: &R, path: &str, at: u64) -> io::Result<R::File> {
    if at == 0 && is_of_task(path) && is_special(rt, path)? {
        return Err(io::Error::from(ErrorKind::NotFound));
    }
    if at == 0 && !fs::metadata(rt, path)?.is_file() {
        return Err(io::Error::from(ErrorKind::InvalidInput));
    }
    File::open(rt, path)
}

// Makes an empty file, or empties the one at the path. A link or a pipe in the place of a file of the program's own goes
// first, since a task made it. A link in the place of a task's folder is a failure: a file would be made behind it.
fn create_plain<R: Files>(rt: &R, path: &str) -> io::Result<R::File> {
    if is_of_task(path) && !is_in_folder(rt, path)? {
        return Err(io::Error::from(ErrorKind::NotADirectory));
    }
    if (is_of_task(path) || is_scratch(path)) && is_special(rt, path).unwrap_or(false) {
        fs::remove_file(rt, path)?;
    }
    File::create(rt, path)
}

// Whether a link, a pipe or a device stands at a path.
fn is_special<R: Files>(rt: &R, path: &str) -> io::Result<bool> {
    let found = fs::symlink_metadata(rt, path)?;
    Ok(!found.is_file() && !found.is_dir())
}

// Whether the folder of a path is one itself, and no link to one.
fn is_in_folder<R: Files>(rt: &R, path: &str) -> io::Result<bool> {
    match path.rsplit_once('/') {
        Some((folder, _)) => Ok(fs::symlink_metadata(rt, folder)?.is_dir()),
        None => Ok(true),
    }
}

// Whether a file is one of those that tell of a task in its folder: `.exitcode`, or `.command.` and more.
fn is_of_task(path: &str) -> bool {
    let name = path.rsplit('/').next().unwrap_or(path);
    name == ".exitcode" || name.starts_with(".command.")
}

// Whether a file is written whole at this path, and put in its place then: a record in the cache, or a file in the store.
fn is_scratch(path: &str) -> bool {
    path.ends_with("/.cache/new") || path.ends_with("/.files/.new")
}

fn append_all<R: Files>(rt: &R, path: &str, piece: &[u8]) -> io::Result<()> {
    let mut file = OpenOptions::new().append(true).create(true).open(rt, path)?;
    file.write_all(piece)
}

// The child has no input and no output but the files in its folder; its own errors go to the program's.
fn run_child<R: Processes>(rt: &R, alloc: Global, dir: &str) -> io::Result<ExitStatus> {
    let mut command = Command::new(alloc, "sh")?;
    command.arg("-c")?.arg(CHILD_COMMAND)?.arg(dir)?;
    command.stdin(Stdio::null());
    command.stdout(Stdio::null());
    command.stderr(Stdio::inherit());
    command.status(rt)
}

fn is_absence(error: &io::Error) -> bool
    ensures { IsTrue result ↔ ((error_kind error.now ≡ ErrorKind.NotFound) ⊎ (error_kind error.now ≡ ErrorKind.NotADirectory)) }
{
    let kind = error.kind();
    kind == ErrorKind::NotFound || kind == ErrorKind::NotADirectory
}

// Reads into the front of `room` from byte `at` on, and gives the count of bytes. It is less than `room.len()` only at the
// file's end.
fn read_front<F: Read + Seek>(file: &mut F, at: u64, room: &mut [u8]) -> io::Result<usize>
    ensures { IfOk result (λ n. n ≤ length room.new) }
{
    file.seek(SeekFrom::Start(at))?;
    fill(file, room)
}

fn fill<F: Read>(file: &mut F, room: &mut [u8]) -> io::Result<usize>
    ensures within { IfOk result (λ n. n ≤ length room.new) }
    ensures front { IfSome (F.remaining file.old) (λ xs. IfOk result (λ n. take n room.new ≡ take (length room.new) xs)) }
{
    let mut len = 0;
    for _ in 0..u64::MAX {
        if len >= room.len() {
            return Ok(len);
        }
        match file.read(&mut room[len..]) {
            Ok(0) => return Ok(len),
            Ok(count) => len += count,
            Err(error) if error.kind() == ErrorKind::Interrupted => {}
            Err(error) => return Err(error),
        }
    }
    Err(io::Error::from(ErrorKind::Interrupted))
}
