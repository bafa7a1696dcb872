//! `MemSink`: output in memory, for tests.

ghost use Rattle.std.specs.Prelude.{◌≡◌, ◌⊎◌, ◌≤◌, ◌+◌, ◌-◌, ◌^◌, ◌++◌, ◌==◌, ℕ, [], min, if◌then◌else◌, Some, None, IfSome, OnSome, OnOk, OnErr, IsErr, is_ok, take};
ghost use Rattle.nf_host.specs.Faults.{Rose};
ghost use Rattle.nf_host.specs.Sink.{GrowsByFront};

use crate::sink::{Sink, SinkFailed};
use nf_value::Mem;
use std::alloc::{AllocError, Global};
use std::collections::BTreeMap;

/// A sink in memory. It reveals its bytes. It fails at the writes that `fail_at` named, and if there is no memory (own).
pub struct MemSink {
    written: Vec<u8>,
    failing: BTreeMap<u64, u64>,
    calls: u64,
    faults: u64,
}

impl Drop for MemSink {
    fn drop(self) {
        let MemSink {
            written: _,
            failing: _,
            calls: _,
            faults: _,
        } = self;
    }
}

impl MemSink {
    ghost use Rattle.nf_host.specs.MemSink.{written_of, failing_of, calls_of, faults_of};

    /// A sink that holds nothing and fails only if there is no memory. Takes no memory itself.
    pub fn new(alloc: Global) -> MemSink
        ensures written { written_of result ≡ [] }
        ensures failing { (q : ℕ) → failing_of result q ≡ None }
        ensures calls { calls_of result ≡ 0 }
        ensures faults { faults_of result ≡ 0 }
    {
        MemSink {
            written: Vec::new(alloc),
            failing: BTreeMap::new(alloc),
            calls: 0,
            faults: 0,
        }
    }

    /// Makes the call of `write` with this number fail. Calls are counted from 0, since `new`. The failing call takes the
    /// first `front` bytes of its piece, or all if there are fewer.
    ///
    /// # Errors
    ///
    /// `Mem` if there is no memory for it. The sink is unchanged.
    pub fn fail_at(&mut self, call: u64, front: u64) -> Result<(), Mem>
        ensures ok { OnOk result ((q : ℕ) → failing_of self.new q ≡ (if q == call then Some front else failing_of self.old q)) }
        ensures err { OnErr result ((q : ℕ) → failing_of self.new q ≡ failing_of self.old q) }
        ensures written { written_of self.new ≡ written_of self.old }
        ensures calls { calls_of self.new ≡ calls_of self.old }
        ensures faults { faults_of self.new ≡ faults_of self.old }
    {
        self.failing.insert(call, front)?;
        Ok(())
    }

    /// All bytes that it took. Takes no memory.
    pub fn written(&self) -> &[u8]
        ensures { result.now ≡ written_of self.now }
    {
        self.written.as_slice()
    }

    fn fail(&mut self) -> SinkFailed
        ensures written { written_of self.new ≡ written_of self.old }
        ensures calls { calls_of self.new ≡ calls_of self.old }
        ensures failing { self.new.failing ≡ self.old.failing }
        ensures faults { faults_of self.new ≡ min (faults_of self.old + 1) (2 ^ 64 - 1) }
        ensures later { faults_of self.old ≤ faults_of self.new }
    {
        self.faults = self.faults.saturating_add(1);
        SinkFailed
    }
}

impl Sink for MemSink {
    ghost use Rattle.nf_host.specs.MemSink.{written_of, failing_of, calls_of, faults_of};

    ghost written = { λ s. Some (written_of s) };

    ghost faults = { λ s. faults_of s };

    fn write(&mut self, piece: &[u8]) -> Result<(), SinkFailed>
        ensures later { faults_of self.old ≤ faults_of self.new }
        ensures cause { OnErr result (Rose (faults_of self.old) (faults_of self.new)) }
        ensures front { GrowsByFront (written_of self.old) piece.now (written_of self.new) }
        ensures all { OnOk result (written_of self.new ≡ written_of self.old ++ piece.now) }

        // It fails at the calls that `fail_at` named, after it took that front, or nothing if there was no memory.
        ensures fails { OnSome (failing_of self.old (calls_of self.old)) (IsErr result) }
        ensures given { IfSome (failing_of self.old (calls_of self.old)) (λ n. (written_of self.new ≡ written_of self.old ++ take n piece.now) ⊎ (written_of self.new ≡ written_of self.old)) }
        ensures counted { faults_of self.new ≡ (if is_ok result then faults_of self.old else min (faults_of self.old + 1) (2 ^ 64 - 1)) }
        ensures calls { calls_of self.new ≡ min (calls_of self.old + 1) (2 ^ 64 - 1) }
        ensures failing { (q : ℕ) → failing_of self.new q ≡ failing_of self.old q }
    {
        let call = self.calls;
        self.calls = call.saturating_add(1);
        if let Some(front) = self.failing.get(&call) {
            let len = (*front as usize).min(piece.len());
            let _ = self.written.extend_from_slice(&piece[..len]);
            return Err(self.fail());
        }
        match self.written.extend_from_slice(piece) {
            Ok(()) => Ok(()),
            Err(_) => Err(self.fail()),
        }
    }

    fn faults(&self) -> u64 {
        self.faults
    }
}
