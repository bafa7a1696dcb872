//! `SharedHost`: one host in memory for several users, for tests.

ghost use Rattle.std.specs.Prelude.{◌≡◌, ◌≤◌, IfOk, IfErr, All, length, None};
ghost use Rattle.nf_host.specs.Faults.{Rose, OnFailed};
ghost use Rattle.nf_host.specs.SharedHost.{faults_of};

use crate::host::{Host, HostRefusal, Piece};
use crate::mem_host::MemHost;
use nf_value::{Mem, Txt};
use std::alloc::Global;
use std::sync::{Arc, Mutex, Wait};

/// One of several hosts over one `MemHost` under a lock. It reveals nothing, and counts its own failed calls (own).
#[derive(Drop)]
pub struct SharedHost<R> {
    rt: R,
    shared: Arc<Mutex<MemHost>>,
    faults: u64,
}

impl<R: Wait + Copy + Drop> SharedHost<R> {
    /// So many hosts over this one.
    ///
    /// # Errors
    ///
    /// `Mem` if there is no memory for them.
    pub fn handles(
        rt: R,
        alloc: Global,
        host: MemHost,
        count: u32,
    ) -> Result<Vec<SharedHost<R>>, Mem>
        ensures count { IfOk result (λ v. length v.items ≡ count) }
        ensures faults { IfOk result (λ v. All (λ h. faults_of h ≡ 0) v.items) }
    {
        let shared = Arc::new(alloc, Mutex::new(host))?;
        let mut handles = Vec::new(alloc);
        for _ in 0..count {
            let theirs = Arc::try_clone(&shared)?;
            handles.push(SharedHost::over(rt, theirs))?;
        }
        Ok(handles)
    }

    fn over(rt: R, shared: Arc<Mutex<MemHost>>) -> SharedHost<R>
        ensures { faults_of result ≡ 0 }
    {
        SharedHost {
            rt,
            shared,
            faults: 0,
        }
    }

    // Hands on an answer of the host, and counts it if it is a failure.
    fn count<T>(&mut self, answer: Result<T, HostRefusal>) -> Result<T, HostRefusal>
        ensures same { result ≡ answer }
        ensures later { faults_of self.old ≤ faults_of self.new }
        ensures cause { OnFailed result (Rose (faults_of self.old) (faults_of self.new)) }
    {
        if let Err(HostRefusal::Failed) = answer {
            self.faults = self.faults.saturating_add(1);
        }
        answer
    }
}

impl<R: Wait + Copy + Drop> Host for SharedHost<R> {
    ghost files = { λ _. None };

    ghost started = { λ _. None };

    ghost faults = { faults_of };

    fn read_at(&mut self, alloc: Global, path: &str, at: u64) -> Result<Piece, HostRefusal> {
        let answer = self.shared.lock(&self.rt).read_at(alloc, path, at);
        self.count(answer)
    }

    fn list(&mut self, alloc: Global, dir: &str) -> Result<Option<Vec<Txt>>, HostRefusal> {
        let answer = self.shared.lock(&self.rt).list(alloc, dir);
        self.count(answer)
    }

    fn make_dir(&mut self, dir: &str) -> Result<(), HostRefusal> {
        let answer = self.shared.lock(&self.rt).make_dir(dir);
        self.count(answer)
    }

    fn clear_dir(&mut self, alloc: Global, dir: &str) -> Result<(), HostRefusal> {
        let answer = self.shared.lock(&self.rt).clear_dir(alloc, dir);
        self.count(answer)
    }

    fn create(&mut self, alloc: Global, path: &str) -> Result<(), HostRefusal> {
        let answer = self.shared.lock(&self.rt).create(alloc, path);
        self.count(answer)
    }

    fn append(&mut self, alloc: Global, path: &str, piece: &[u8]) -> Result<(), HostRefusal> {
        let answer = self.shared.lock(&self.rt).append(alloc, path, piece);
        self.count(answer)
    }

    fn rename(&mut self, alloc: Global, from: &str, to: &str) -> Result<(), HostRefusal> {
        let answer = self.shared.lock(&self.rt).rename(alloc, from, to);
        self.count(answer)
    }

    fn child(&mut self, alloc: Global, dir: &str) -> Result<i32, HostRefusal> {
        let answer = self.shared.lock(&self.rt).child(alloc, dir);
        self.count(answer)
    }

    fn faults(&self) -> u64 {
        self.faults
    }
}
