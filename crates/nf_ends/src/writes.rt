//! Writes the output or the error line of a call to the sink.

ghost use Rattle.std.specs.Prelude.{◌≡◌, ◌≤◌, ◌++◌, ◌↔◌, IsSome, IfSome, IfOk, IfErr, OnOk, OnErr};
ghost use Rattle.nf_host.specs.Faults.{Rose};
ghost use Rattle.nf_host.specs.Sink.{GrowsByFront};
ghost use Rattle.nf_ends.specs.Writes.{EndsAs, IsKept, IsRefusal, IsWritten, OnSinkFault, WroteLine, WroteOutput, output_text};

use crate::end::End;
use crate::lines::error_line;
use nf_host::{Sink, SinkFailed};
use nf_value::{Bytes, Txt};
use std::alloc::Global;

/// What a call writes that went well.
#[derive(Drop)]
pub enum Output {
    /// Of `run` the report, of `gen` its line; then the summary line. Each has its line ends.
    Report {
        /// The report, or the line of `gen`.
        report: Txt,
        /// The summary line.
        summary: Txt,
    },
    /// Of `fmt` the script's canonical text, of `check` its one line.
    Text(Bytes),
}

/// Writes an output, or the error line of a failed call, and gives the end of the call. A report and its summary are a write each,
/// any other text is one write, and an empty text is none.
///
/// The end is `Ok` if all was written and `SinkFault` if the sink failed in an output. A failed call keeps its end, also if the sink
/// fails in its error line; if there is no memory for the line, the end is `Mem`. `Mem` writes nothing.
pub fn write<O: Sink>(alloc: Global, out: &mut O, outcome: Result<Output, End>) -> End
    requires { IfErr outcome IsRefusal }
    ensures later { O.faults out.old ≤ O.faults out.new }
    ensures ends { EndsAs outcome result }
    ensures cause { OnSinkFault result (Rose (O.faults out.old) (O.faults out.new)) }
    ensures told { IsSome (O.written out.new) ↔ IsSome (O.written out.old) }
    ensures output { IfOk outcome (λ o. IfSome (O.written out.old) (λ before. IfSome (O.written out.new) (λ after.
        WroteOutput result (output_text o) before after))) }
    ensures line { IfSome (O.written out.old) (λ before. IfSome (O.written out.new) (λ after.
        WroteLine result (Rose (O.faults out.old) (O.faults out.new)) before after)) }
{
    match outcome {
        Ok(output) => write_output(out, &output),
        Err(end) => write_line(alloc, out, end),
    }
}

/// Writes an output. Gives `Ok` or `SinkFault`.
fn write_output<O: Sink>(out: &mut O, output: &Output) -> End
    ensures later { O.faults out.old ≤ O.faults out.new }
    ensures cause { OnSinkFault result (Rose (O.faults out.old) (O.faults out.new)) }
    ensures ends { IsWritten result }
    ensures told { IsSome (O.written out.new) ↔ IsSome (O.written out.old) }
    ensures output { IfSome (O.written out.old) (λ before. IfSome (O.written out.new) (λ after.
        WroteOutput result (output_text output.now) before after)) }
{
    match output {
        Output::Report { report, summary } => write_report(
            out,
            report.as_str().as_bytes(),
            summary.as_str().as_bytes(),
        ),
        Output::Text(text) => write_text(out, text.items()),
    }
}

/// Writes a text in one write. An empty text isn't written.
fn write_text<O: Sink>(out: &mut O, text: &[u8]) -> End
    ensures later { O.faults out.old ≤ O.faults out.new }
    ensures cause { OnSinkFault result (Rose (O.faults out.old) (O.faults out.new)) }
    ensures ends { IsWritten result }
    ensures told { IsSome (O.written out.new) ↔ IsSome (O.written out.old) }
    ensures output { IfSome (O.written out.old) (λ before. IfSome (O.written out.new) (λ after.
        WroteOutput result text.now before after)) }
{
    let Ok(()) = write_piece(out, text) else {
        return End::SinkFault;
    };
    End::Ok
}

/// Writes a report and its summary line, each in one write. An empty report isn't written.
fn write_report<O: Sink>(out: &mut O, report: &[u8], summary: &[u8]) -> End
    ensures later { O.faults out.old ≤ O.faults out.new }
    ensures cause { OnSinkFault result (Rose (O.faults out.old) (O.faults out.new)) }
    ensures ends { IsWritten result }
    ensures told { IsSome (O.written out.new) ↔ IsSome (O.written out.old) }
    ensures output { IfSome (O.written out.old) (λ before. IfSome (O.written out.new) (λ after.
        WroteOutput result (report.now ++ summary.now) before after)) }
{
    let Ok(()) = write_piece(out, report) else {
        return End::SinkFault;
    };
    match out.write(summary) {
        Ok(()) => End::Ok,
        Err(SinkFailed) => End::SinkFault,
    }
}

/// Writes a piece, unless it is empty.
fn write_piece<O: Sink>(out: &mut O, piece: &[u8]) -> Result<(), SinkFailed>
    ensures later { O.faults out.old ≤ O.faults out.new }
    ensures cause { OnErr result (Rose (O.faults out.old) (O.faults out.new)) }
    ensures told { IsSome (O.written out.new) ↔ IsSome (O.written out.old) }
    ensures front { IfSome (O.written out.old) (λ before. IfSome (O.written out.new) (λ after.
        GrowsByFront before piece.now after)) }
    ensures all { IfSome (O.written out.old) (λ before. IfSome (O.written out.new) (λ after.
        OnOk result (after ≡ before ++ piece.now))) }
{
    if piece.is_empty() {
        return Ok(());
    }
    out.write(piece)
}

/// Writes the error line of an end, and gives the end; `Mem` if there is no memory for the line. A sink that fails in this
/// line doesn't change the end.
fn write_line<O: Sink>(alloc: Global, out: &mut O, end: End) -> End
    requires { IsRefusal end }
    ensures later { O.faults out.old ≤ O.faults out.new }
    ensures kept { IsKept end result }
    ensures told { IsSome (O.written out.new) ↔ IsSome (O.written out.old) }
    ensures line { IfSome (O.written out.old) (λ before. IfSome (O.written out.new) (λ after.
        WroteLine result (Rose (O.faults out.old) (O.faults out.new)) before after)) }
{
    if let End::Mem = end {
        return End::Mem;
    }
    let Ok(line) = error_line(alloc, &end) else {
        return End::Mem;
    };
    let _ = out.write(line.as_bytes());
    end
}
