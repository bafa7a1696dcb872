//! The parameters of a run.

ghost use Rattle.std.specs.Prelude.{◌≡◌, ◌≤◌, ℕ, List, [], IfErr, Some};
ghost use Rattle.std.specs.declared.option.Option.{Option};
ghost use Rattle.nf_host.specs.Faults.{Rose};
ghost use Rattle.nf_request.specs.Held.{IsAt, IsAtPath, OnHostFault};
ghost use Rattle.nf_request.specs.Steps.{GivesInFile, GivesOfBytes, GivesParams};
ghost use Rattle.nf_request.specs.Wishes.{HasLongFile, LacksFile, wish_of_run};

use nf_command::RunWords;
use nf_ends::End;
use nf_host::{Host, Whole, read_whole};
use nf_pairs::merged;
use nf_params::params_of;
use nf_value::{Pairs, Txt};
use std::alloc::Global;

/// The longest parameter file that is read, in bytes (own).
pub const PARAMS_LIMIT: u64 = 16_777_216;

/// The parameters of the words of `run` (Nextflow documentation, "Command line", `run`, "-params-file"): those of its parameter file, if it
/// names one, and those that the words give, which win. The host is only read.
///
/// # Errors
///
/// `NoFile` if the parameter file isn't there, `FileTooLong` if it has more than 16,777,216 bytes, and `BadParams` with the pointer of the
/// first value that is refused: exactly then, if the host reveals its files. `HostFault` if the host failed, which it counted; `Mem` if
/// there is no memory.
pub fn params_of_run<H: Host>(alloc: Global, host: &mut H, words: &RunWords) -> Result<Pairs, End>
    ensures later { H.faults host.old ≤ H.faults host.new }
    ensures cause { IfErr result (λ e. OnHostFault e (Rose (H.faults host.old) (H.faults host.new))) }
    ensures files { H.files host.new ≡ H.files host.old }
    ensures no_start { H.started host.new ≡ H.started host.old }
    ensures gives { (held : Option (List ℕ)) × IsAtPath (H.files host.old) words.now.params_file held
        × GivesParams (wish_of_run words.now) held result }
{
    let in_file = params_in(alloc, host, &words.params_file)?;
    let given = words.params.copy()?;
    let params = merged(in_file, given)?;
    Ok(params)
}

/// The parameters in the file at a path; none if there is no path.
fn params_in<H: Host>(alloc: Global, host: &mut H, path: &Option<Txt>) -> Result<Pairs, End>
    ensures later { H.faults host.old ≤ H.faults host.new }
    ensures cause { IfErr result (λ e. OnHostFault e (Rose (H.faults host.old) (H.faults host.new))) }
    ensures files { H.files host.new ≡ H.files host.old }
    ensures no_start { H.started host.new ≡ H.started host.old }
    ensures gives { (held : Option (List ℕ)) × IsAtPath (H.files host.old) path.now held
        × GivesInFile path.now held result }
{
    match path {
        Some(path) => params_of_file(alloc, host, path),
        None => Ok(no_params(alloc)),
    }
}

fn no_params(alloc: Global) -> Pairs
    ensures { result ≡ [] }
{
    Pairs::of(Vec::new(alloc))
}

/// The parameters in the file at a path.
fn params_of_file<H: Host>(alloc: Global, host: &mut H, path: &Txt) -> Result<Pairs, End>
    ensures later { H.faults host.old ≤ H.faults host.new }
    ensures cause { IfErr result (λ e. OnHostFault e (Rose (H.faults host.old) (H.faults host.new))) }
    ensures files { H.files host.new ≡ H.files host.old }
    ensures no_start { H.started host.new ≡ H.started host.old }
    ensures gives { (held : Option (List ℕ)) × IsAt (H.files host.old) path.now held
        × GivesInFile (Some path.now) held result }
{
    let read = read_whole(alloc, host, path.as_str(), PARAMS_LIMIT)?;
    match read {
        Whole::Absent => Err(no_file(path)),
        Whole::TooLong => Err(long_file(path)),
        Whole::Bytes(bytes) => params_of_bytes(alloc, bytes.items()),
    }
}

/// The end of a call whose parameter file isn't there.
fn no_file(path: &Txt) -> End
    ensures { LacksFile path.now result }
{
    match path.copy() {
        Ok(path) => End::NoFile { path },
        Err(_) => End::Mem,
    }
}

/// The end of a call whose parameter file is too long.
fn long_file(path: &Txt) -> End
    ensures { HasLongFile path.now result }
{
    match path.copy() {
        Ok(path) => End::FileTooLong { path },
        Err(_) => End::Mem,
    }
}

/// The parameters that the bytes of a file give.
fn params_of_bytes(alloc: Global, bytes: &[u8]) -> Result<Pairs, End>
    ensures { GivesOfBytes bytes.now result }
{
    let params = params_of(alloc, bytes)?;
    Ok(params)
}
