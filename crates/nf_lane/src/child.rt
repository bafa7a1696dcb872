//! Runs a job's script as one child process: starts it, reads its output, waits for its end.

ghost use Rattle.std.specs.Prelude.{◌≡◌, ◌≤◌, IfOk, IfSome, option_map};
ghost use Rattle.nf_host.specs.Starts.{exit_number};
ghost use Rattle.nf_lane.specs.Child.{IsChildReport, IsOutput, IsCaptured, kept_of, kept_with};

use nf_host::status_of;
use nf_job::{Captured, Found, Report};
use nf_value::Txt;
use std::alloc::{AllocError, Global};
use std::io;
use std::io::{ErrorKind, Read};
use std::process::{Child, Command, ExitStatus, OpenProcess, Processes, Stdio};

/// The most bytes of a child's standard output that are kept (own).
pub const OUTPUT_LIMIT: usize = 1_048_576;

// Runs a script in a shell of its own. Gives its exit status, and its standard output if that is wanted.
pub(crate) fn run_script<R: Processes>(
    rt: &R,
    alloc: Global,
    script: &str,
    wants_stdout: bool,
) -> io::Result<Report>
    ensures { IfOk result (IsChildReport wants_stdout) }
{
    let mut child = start(rt, alloc, script, wants_stdout)?;
    match read_output(alloc, &mut child, wants_stdout) {
        Ok(captured) => {
            let status = child.wait()?;
            Ok(report_of(alloc, status, captured, wants_stdout))
        }
        Err(error) => {
            if child.kill().is_ok() {
                let _ = child.wait();
            }
            Err(error)
        }
    }
}

// The child reads no input and inherits no open file but the standard error.
fn start<R: Processes>(
    rt: &R,
    alloc: Global,
    script: &str,
    wants_stdout: bool,
) -> io::Result<Child<R::Started>> {
    let mut command = Command::new(alloc, "sh")?;
    command.arg("-ue")?.arg("-c")?.arg(script)?;
    command.stdin(Stdio::null());
    command.stdout(if wants_stdout {
        Stdio::piped()
    } else {
        Stdio::null()
    });
    command.stderr(Stdio::inherit());
    command.spawn(rt)
}

fn report_of(alloc: Global, status: ExitStatus, captured: Captured, wants_stdout: bool) -> Report
    requires { IsOutput wants_stdout captured }
    ensures exit { result.exit ≡ exit_number status }
    ensures report { IsChildReport wants_stdout result }
{
    Report {
        exit: status_of(status),
        captured,
        found: Found::of(Vec::new(alloc)),
    }
}

// The child's standard output up to its end, if it is wanted.
fn read_output<P: OpenProcess>(
    alloc: Global,
    child: &mut Child<P>,
    wants_stdout: bool,
) -> io::Result<Captured>
    ensures { IfOk result (IsOutput wants_stdout) }
{
    if !wants_stdout {
        return Ok(Captured::None);
    }
    let Some(mut stdout) = child.stdout.take() else {
        return Err(io::Error::from(ErrorKind::BrokenPipe));
    };
    let output = read_within(alloc, &mut stdout)?;
    Ok(captured_of(output))
}

// Reads up to the reader's end. Gives all bytes, or nothing if they pass the limit; the rest is then read and dropped.
fn read_within<S: Read>(alloc: Global, from: &mut S) -> io::Result<Option<Vec<u8>>>
    ensures within { IfOk result (λ o. (bytes : _) × (option_map (λ v. v.items) o ≡ kept_of bytes)) }
    ensures all { IfSome (S.remaining from.old) (λ bytes. IfOk result (λ o. option_map (λ v. v.items) o ≡ kept_of bytes)) }
{
    let mut kept = Some(Vec::new(alloc));
    let mut piece = [0u8; 4096];
    'pieces: for _ in 0..u64::MAX {
        match from.read(&mut piece) {
            Ok(0) => return Ok(kept),
            Ok(len) => kept = with_piece(kept, &piece[..len])?,
            Err(error) if error.kind() == ErrorKind::Interrupted => {}
            Err(error) => return Err(error),
        }
    }
    Err(io::Error::from(ErrorKind::Interrupted))
}

fn with_piece(kept: Option<Vec<u8>>, piece: &[u8]) -> Result<Option<Vec<u8>>, AllocError>
    ensures { IfOk result (λ o. option_map (λ v. v.items) o ≡ kept_with (option_map (λ v. v.items) kept) piece.now) }
{
    let Some(mut bytes) = kept else {
        return Ok(None);
    };
    if bytes.len() + piece.len() > OUTPUT_LIMIT {
        return Ok(None);
    }
    bytes.extend_from_slice(piece)?;
    Ok(Some(bytes))
}

fn captured_of(output: Option<Vec<u8>>) -> Captured
    ensures { IsCaptured (option_map (λ v. v.items) output) result }
{
    let Some(bytes) = output else {
        return Captured::Bad;
    };
    match String::from_utf8(bytes) {
        Ok(text) => Captured::Text(Txt::of(text)),
        Err(_) => Captured::Bad,
    }
}
