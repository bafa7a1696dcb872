//! The exit status of a child process.

ghost use Rattle.std.specs.Prelude.{◌≡◌};
ghost use Rattle.nf_host.specs.Starts.{IsStatus, exit_number};

use std::process::ExitStatus;

/// The status of a child without an exit code: a signal ended it (own).
pub const NO_CODE_STATUS: i32 = 255;

/// The exit code of a process that ended, from 0 to 255, or 255 if it has none. Takes no memory.
pub fn status_of(status: ExitStatus) -> i32
    ensures code { result ≡ exit_number status }
    ensures range { IsStatus result }
{
    status.code().unwrap_or(NO_CODE_STATUS)
}
