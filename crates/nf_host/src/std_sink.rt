//! `StdSink`: the standard output.

ghost use Rattle.std.specs.Prelude.{◌≡◌, None};

use crate::sink::{Sink, SinkFailed};
use std::io;
use std::io::Write;

/// The program's standard output. It doesn't reveal its bytes, and takes no memory (own).
#[derive(Drop)]
pub struct StdSink<R> {
    rt: R,
    faults: u64,
}

impl<R: Print> StdSink<R> {
    ghost use Rattle.nf_host.specs.StdSink.{faults_of};

    /// A sink over the runtime's standard output. Takes no memory.
    pub fn new(rt: R) -> StdSink<R>
        ensures { faults_of result ≡ 0 }
    {
        StdSink { rt, faults: 0 }
    }
}

impl<R: Print> Sink for StdSink<R> {
    ghost use Rattle.nf_host.specs.StdSink.{faults_of};

    ghost written = { λ _. None };

    ghost faults = { faults_of };

    fn write(&mut self, piece: &[u8]) -> Result<(), SinkFailed> {
        match print_all(&self.rt, piece) {
            Ok(()) => Ok(()),
            Err(_) => {
                self.faults = self.faults.saturating_add(1);
                Err(SinkFailed)
            }
        }
    }

    fn faults(&self) -> u64 {
        self.faults
    }
}

fn print_all<R: Print>(rt: &R, piece: &[u8]) -> io::Result<()> {
    let mut out = io::writer(rt);
    out.write_all(piece)?;
    out.flush()
}
