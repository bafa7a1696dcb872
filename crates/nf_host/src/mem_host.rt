//! `MemHost`: files and children in memory, for tests.

ghost use Rattle.std.specs.Prelude.{◌≡◌, ◌≤◌, ◌+◌, ◌-◌, ◌^◌, ◌++◌, ◌⊎◌, ◌↔◌, ℕ, List, [], ◌∷◌, min, if◌then◌else◌, is_none, IsSome, Some, IfOk, OnOk, OnErr, ◌||◌, IsTrue, map, option_map, option_copied, take, drop, length};
ghost use Rattle.sha2.specs.Sha256.{sha256};
ghost use Rattle.nf_host.specs.Children.{child_at, child_by, status_by, files_after};
ghost use Rattle.nf_host.specs.Faults.{Rose, OnFailed};
ghost use Rattle.nf_host.specs.Files.{IsPiece, IsShort, KeepsOthers, put, no_files, appended, moved};
ghost use Rattle.nf_host.specs.Folders.{IsListed, KeepsOutside, cleared};
ghost use Rattle.nf_host.specs.MemFiles.{files_in};
ghost use Rattle.nf_host.specs.Starts.{IsStatus, start_of};

use crate::children::{Child, UNKNOWN_STATUS, find_child};
use crate::folder::path_in;
use crate::host::{Host, HostRefusal, PIECE_LEN, Piece};
use crate::mem_files;
use crate::mem_files::FileMap;
use nf_value::{Bytes, Digest, Mem, Txt};
use sha2::{Digest as Hasher, Sha256};
use std::alloc::{AllocError, Global};
use std::collections::BTreeMap;

/// Files and children in memory. It reveals all, and fails exactly at the calls that `fail_at` named, and at a `rename` of a
/// file that isn't there (own).
pub struct MemHost {
    files: FileMap,
    children: Vec<(Digest, Child)>,
    started: Vec<MemStart>,
    calls: Calls,
    alloc: Global,
}

impl Drop for MemHost {
    fn drop(self) {
        let MemHost {
            files: _,
            children: _,
            started: _,
            calls: _,
            alloc: _,
        } = self;
    }
}

// The calls so far, the numbers of those that fail, and how many have failed.
#[derive(Drop)]
struct Calls {
    count: u64,
    failing: Vec<u64>,
    faults: u64,
}

/// A child that ended in memory (own).
#[derive(Drop)]
pub struct MemStart {
    /// Its folder.
    pub folder: String,
    /// Its exit status.
    pub status: i32,
    /// The files that lay in the folder when it started, by their names in it.
    pub files: Vec<(Txt, Bytes)>,
    /// The files that lay there when it ended.
    pub left: Vec<(Txt, Bytes)>,
}

impl MemHost {
    ghost use Rattle.nf_host.specs.MemHost.{files_of, children_of, started_of, start_seen, failing_of, calls_of, faults_of, is_next_failing, IsCounted};

    /// A host with no files and no children that never fails. Takes no memory.
    pub fn new(alloc: Global) -> MemHost
        ensures files { files_of result ≡ no_files }
        ensures children { children_of result ≡ [] }
        ensures started { started_of result ≡ [] }
        ensures failing { failing_of result ≡ [] }
        ensures calls { calls_of result ≡ 0 }
        ensures faults { faults_of result ≡ 0 }
    {
        MemHost {
            files: BTreeMap::new(alloc),
            children: Vec::new(alloc),
            started: Vec::new(alloc),
            calls: Calls {
                count: 0,
                failing: Vec::new(alloc),
                faults: 0,
            },
            alloc,
        }
    }

    /// Puts a file with these bytes at the path. It replaces a file that is there.
    ///
    /// # Errors
    ///
    /// `Mem` if there is no memory for it. The files are unchanged.
    pub fn put(&mut self, path: &str, bytes: &[u8]) -> Result<(), Mem>
        ensures ok { OnOk result (files_of self.new ≡ put (files_of self.old) path.now bytes.now) }
        ensures err { OnErr result (files_of self.new ≡ files_of self.old) }
        ensures children { children_of self.new ≡ children_of self.old }
        ensures started { started_of self.new ≡ started_of self.old }
        ensures failing { failing_of self.new ≡ failing_of self.old }
        ensures calls { calls_of self.new ≡ calls_of self.old }
        ensures faults { faults_of self.new ≡ faults_of self.old }
    {
        mem_files::put(self.alloc, &mut self.files, path, bytes)
    }

    /// Makes each child whose `.command.sh` has these bytes do this. What was said of that script before still counts.
    ///
    /// # Errors
    ///
    /// `Mem` if there is no memory for it. The host is unchanged.
    pub fn add_child(&mut self, script: &[u8], child: Child) -> Result<(), Mem>
        ensures ok { OnOk result (children_of self.new ≡ children_of self.old ++ (record { 0 = sha256 script.now }, child) ∷ []) }
        ensures err { OnErr result (children_of self.new ≡ children_of self.old) }
        ensures files { files_of self.new ≡ files_of self.old }
        ensures started { started_of self.new ≡ started_of self.old }
        ensures failing { failing_of self.new ≡ failing_of self.old }
        ensures calls { calls_of self.new ≡ calls_of self.old }
        ensures faults { faults_of self.new ≡ faults_of self.old }
    {
        let digest = Digest(Sha256::digest(script));
        self.children.push((digest, child))?;
        Ok(())
    }

    /// Makes the call with this number fail. Calls are counted from 0, since `new`; all calls of `Host` but `faults` count.
    ///
    /// # Errors
    ///
    /// `Mem` if there is no memory for it. The host is unchanged.
    pub fn fail_at(&mut self, call: u64) -> Result<(), Mem>
        ensures ok { OnOk result (failing_of self.new ≡ failing_of self.old ++ call ∷ []) }
        ensures err { OnErr result (failing_of self.new ≡ failing_of self.old) }
        ensures files { files_of self.new ≡ files_of self.old }
        ensures children { children_of self.new ≡ children_of self.old }
        ensures started { started_of self.new ≡ started_of self.old }
        ensures calls { calls_of self.new ≡ calls_of self.old }
        ensures faults { faults_of self.new ≡ faults_of self.old }
    {
        self.calls.failing.push(call)?;
        Ok(())
    }

    /// How many calls it has had.
    pub fn calls(&self) -> u64
        ensures { result ≡ calls_of self.now }
    {
        self.calls.count
    }

    /// The children that ended, in their order. Takes no memory.
    pub fn starts(&self) -> &[MemStart]
        ensures { map start_seen result.now ≡ started_of self.now }
    {
        self.started.as_slice()
    }

    // Does what the script in a folder does, and gives its exit status.
    fn end_child(&mut self, alloc: Global, dir: &str) -> Result<i32, Mem>
        ensures others { KeepsOutside dir.now (files_of self.old) (files_of self.new) }
        ensures counted { self.new ≡ record self.old { files = self.new.files } }
        ensures status { IfOk result IsStatus }
        ensures ends { IfOk result (λ z. z ≡ status_by (child_at (children_of self.old) (files_of self.old) dir.now)) }
        ensures writes { OnOk result (files_of self.new ≡ files_after (child_at (children_of self.old) (files_of self.old) dir.now) (files_of self.old) dir.now) }
    {
        let path = path_in(alloc, dir, ".command.sh")?;
        match child_in(&self.children, &self.files, path.as_str()) {
            Some(child) => {
                mem_files::write_all(alloc, &mut self.files, dir, &child.files)?;
                Ok(i32::from(child.status))
            }
            None => Ok(i32::from(UNKNOWN_STATUS)),
        }
    }
}

impl Calls {
    ghost use Rattle.nf_host.specs.MemHost.{AreCounted, is_failing};

    // Counts a call, and its failure if it is to fail.
    fn fails_now(&mut self) -> bool
        ensures fails { result ≡ is_failing self.old }
        ensures counted { AreCounted self.old self.new result }
        ensures later { self.old.faults ≤ self.new.faults }
    {
        let call = self.count;
        self.count = call.saturating_add(1);
        let fails = self.failing.contains(&call);
        if fails {
            self.fail();
        }
        fails
    }

    // Counts a failure.
    fn fail(&mut self)
        ensures faults { self.new.faults ≡ min (self.old.faults + 1) (2 ^ 64 - 1) }
        ensures later { self.old.faults ≤ self.new.faults }
        ensures count { self.new.count ≡ self.old.count }
        ensures failing { self.new.failing ≡ self.old.failing }
    {
        self.faults = self.faults.saturating_add(1);
    }
}

impl Host for MemHost {
    ghost use Rattle.nf_host.specs.MemHost.{files_of, children_of, started_of, faults_of, is_next_failing, is_failed, IsCounted};

    ghost files = { λ s. Some (files_of s) };

    ghost started = { λ s. Some (started_of s) };

    ghost faults = { λ s. faults_of s };

    fn read_at(&mut self, alloc: Global, path: &str, at: u64) -> Result<Piece, HostRefusal>
        ensures later { faults_of self.old ≤ faults_of self.new }
        ensures cause { OnFailed result (Rose (faults_of self.old) (faults_of self.new)) }
        ensures same { files_of self.new ≡ files_of self.old }
        ensures no_start { started_of self.new ≡ started_of self.old }
        ensures short { IfOk result IsShort }
        ensures content { IfOk result (IsPiece (files_of self.old path.now) at) }
        ensures fails { is_failed result ≡ is_next_failing self.old }
        ensures counted { IsCounted self.old self.new (is_failed result) }
    {
        if self.calls.fails_now() {
            return Err(HostRefusal::Failed);
        }
        let Some(bytes) = self.files.get(path) else {
            return Ok(Piece::Absent);
        };
        Ok(Piece::Bytes(Bytes::of(cut(alloc, bytes.as_slice(), at)?)))
    }

    fn list(&mut self, alloc: Global, dir: &str) -> Result<Option<Vec<Txt>>, HostRefusal>
        ensures later { faults_of self.old ≤ faults_of self.new }
        ensures cause { OnFailed result (Rose (faults_of self.old) (faults_of self.new)) }
        ensures same { files_of self.new ≡ files_of self.old }
        ensures no_start { started_of self.new ≡ started_of self.old }
        ensures content { IfOk result (λ names. IsListed (files_of self.old) dir.now (option_map (λ v. v.items) names)) }
        ensures fails { is_failed result ≡ is_next_failing self.old }
        ensures counted { IsCounted self.old self.new (is_failed result) }
    {
        if self.calls.fails_now() {
            return Err(HostRefusal::Failed);
        }
        Ok(mem_files::list(alloc, &self.files, dir)?)
    }

    fn make_dir(&mut self, _dir: &str) -> Result<(), HostRefusal>
        ensures later { faults_of self.old ≤ faults_of self.new }
        ensures cause { OnFailed result (Rose (faults_of self.old) (faults_of self.new)) }
        ensures same { files_of self.new ≡ files_of self.old }
        ensures no_start { started_of self.new ≡ started_of self.old }
        ensures fails { is_failed result ≡ is_next_failing self.old }
        ensures counted { IsCounted self.old self.new (is_failed result) }
    {
        if self.calls.fails_now() {
            return Err(HostRefusal::Failed);
        }
        Ok(())
    }

    fn clear_dir(&mut self, alloc: Global, dir: &str) -> Result<(), HostRefusal>
        ensures later { faults_of self.old ≤ faults_of self.new }
        ensures cause { OnFailed result (Rose (faults_of self.old) (faults_of self.new)) }
        ensures no_start { started_of self.new ≡ started_of self.old }
        ensures others { KeepsOutside dir.now (files_of self.old) (files_of self.new) }
        ensures gone { OnOk result (files_of self.new ≡ cleared (files_of self.old) dir.now) }
        ensures kept { OnErr result (files_of self.new ≡ files_of self.old) }
        ensures fails { is_failed result ≡ is_next_failing self.old }
        ensures counted { IsCounted self.old self.new (is_failed result) }
    {
        if self.calls.fails_now() {
            return Err(HostRefusal::Failed);
        }
        Ok(mem_files::clear(alloc, &mut self.files, dir)?)
    }

    fn create(&mut self, alloc: Global, path: &str) -> Result<(), HostRefusal>
        ensures later { faults_of self.old ≤ faults_of self.new }
        ensures cause { OnFailed result (Rose (faults_of self.old) (faults_of self.new)) }
        ensures no_start { started_of self.new ≡ started_of self.old }
        ensures others { KeepsOthers path.now (files_of self.old) (files_of self.new) }
        ensures created { OnOk result (files_of self.new ≡ put (files_of self.old) path.now []) }
        ensures kept { OnErr result (files_of self.new ≡ files_of self.old) }
        ensures fails { is_failed result ≡ is_next_failing self.old }
        ensures counted { IsCounted self.old self.new (is_failed result) }
    {
        if self.calls.fails_now() {
            return Err(HostRefusal::Failed);
        }
        Ok(mem_files::put(alloc, &mut self.files, path, &[])?)
    }

    fn append(&mut self, alloc: Global, path: &str, piece: &[u8]) -> Result<(), HostRefusal>
        ensures later { faults_of self.old ≤ faults_of self.new }
        ensures cause { OnFailed result (Rose (faults_of self.old) (faults_of self.new)) }
        ensures no_start { started_of self.new ≡ started_of self.old }
        ensures others { KeepsOthers path.now (files_of self.old) (files_of self.new) }
        ensures added { OnOk result (files_of self.new ≡ appended (files_of self.old) path.now piece.now) }
        ensures kept { OnErr result (files_of self.new ≡ files_of self.old) }
        ensures fails { is_failed result ≡ is_next_failing self.old }
        ensures counted { IsCounted self.old self.new (is_failed result) }
    {
        if self.calls.fails_now() {
            return Err(HostRefusal::Failed);
        }
        Ok(mem_files::append(alloc, &mut self.files, path, piece)?)
    }

    fn rename(&mut self, alloc: Global, from: &str, to: &str) -> Result<(), HostRefusal>
        ensures later { faults_of self.old ≤ faults_of self.new }
        ensures cause { OnFailed result (Rose (faults_of self.old) (faults_of self.new)) }
        ensures no_start { started_of self.new ≡ started_of self.old }
        ensures in_one_step { (files_of self.new ≡ files_of self.old) ⊎ (files_of self.new ≡ moved (files_of self.old) from.now to.now) }
        ensures there { OnOk result (IsSome (files_of self.old from.now)) }
        ensures renamed { OnOk result (files_of self.new ≡ moved (files_of self.old) from.now to.now) }
        ensures kept { OnErr result (files_of self.new ≡ files_of self.old) }
        ensures fails { OnFailed result (IsTrue (is_next_failing self.old || is_none (files_of self.old from.now))) }
        ensures counted { IsCounted self.old self.new (is_failed result) }
    {
        if self.calls.fails_now() {
            return Err(HostRefusal::Failed);
        }
        if mem_files::rename(alloc, &mut self.files, from, to)? {
            Ok(())
        } else {
            self.calls.fail();
            Err(HostRefusal::Failed)
        }
    }

    fn child(&mut self, alloc: Global, dir: &str) -> Result<i32, HostRefusal>
        ensures later { faults_of self.old ≤ faults_of self.new }
        ensures cause { OnFailed result (Rose (faults_of self.old) (faults_of self.new)) }
        ensures status { IfOk result IsStatus }
        ensures others { KeepsOutside dir.now (files_of self.old) (files_of self.new) }
        ensures start { IfOk result (λ z.
            started_of self.new ≡ started_of self.old ++ start_of (files_of self.old) (files_of self.new) dir.now z ∷ []) }
        ensures no_start { OnErr result (started_of self.new ≡ started_of self.old) }

        // It does what its script does.
        ensures ends { IfOk result (λ z. z ≡ status_by (child_at (children_of self.old) (files_of self.old) dir.now)) }
        ensures writes { OnOk result (files_of self.new ≡ files_after (child_at (children_of self.old) (files_of self.old) dir.now) (files_of self.old) dir.now) }
        ensures fails { is_failed result ≡ is_next_failing self.old }
        ensures counted { IsCounted self.old self.new (is_failed result) }
    {
        if self.calls.fails_now() {
            return Err(HostRefusal::Failed);
        }
        let folder = String::from_str(alloc, dir)?;
        let inside = mem_files::folder(alloc, &self.files, dir)?;
        let status = self.end_child(alloc, dir)?;
        let left = mem_files::folder(alloc, &self.files, dir)?;
        self.started.push(MemStart {
            folder,
            status,
            files: inside,
            left,
        })?;
        Ok(status)
    }

    fn faults(&self) -> u64 {
        self.calls.faults
    }
}

// What the script at a path does, if there is one.
fn child_in<'a>(children: &'a [(Digest, Child)], files: &FileMap, path: &str) -> Option<&'a Child>
    ensures { option_copied result ≡ child_by children.now (files_in files.now path.now) }
{
    match files.get(path) {
        Some(script) => find_child(children, script.as_slice()),
        None => None,
    }
}

fn cut(alloc: Global, bytes: &[u8], at: u64) -> Result<Vec<u8>, AllocError>
    ensures ok { IfOk result (λ v. v.items ≡ take PIECE_LEN (drop at bytes.now)) }
    ensures short { IfOk result (λ v. length v.items ≤ PIECE_LEN) }
{
    let from = (at as usize).min(bytes.len());
    let rest = &bytes[from..];
    let len = PIECE_LEN.min(rest.len());
    Ok(Vec::from_slice(alloc, &rest[..len])?)
}
