//! Reads a whole file piece by piece.

ghost use Rattle.std.specs.Prelude.{◌≡◌, ◌≤◌, IfSome, IfOk};
ghost use Rattle.nf_host.specs.Faults.{Rose, OnFailed};
ghost use Rattle.nf_host.specs.Whole.{IsWhole, IsWithin};

use crate::host::{Host, HostRefusal, PIECE_LEN, Piece};
use nf_value::Bytes;
use std::alloc::Global;

/// What a read of a whole file gave.
#[derive(Drop)]
pub enum Whole {
    /// There is no file at the path.
    Absent,
    /// The file is longer than the limit.
    TooLong,
    /// All the bytes of the file.
    Bytes(Bytes),
}

/// Reads a whole file of at most `limit` bytes, piece by piece. A piece of fewer than 65,536 bytes ends the file. Reading
/// stops at the first piece that passes the limit (own).
///
/// If the host reveals its files: `Absent` exactly if there is no file at the path, `TooLong` exactly if the file is longer
/// than `limit`, else exactly the file's bytes.
///
/// # Errors
///
/// `Failed` if the host failed in this call; it counted that. `Mem` if there is no memory for the bytes.
pub fn read_whole<H: Host>(
    alloc: Global,
    host: &mut H,
    path: &str,
    limit: u64,
) -> Result<Whole, HostRefusal>
    ensures later { H.faults host.old ≤ H.faults host.new }
    ensures cause { OnFailed result (Rose (H.faults host.old) (H.faults host.new)) }
    ensures same { H.files host.new ≡ H.files host.old }
    ensures no_start { H.started host.new ≡ H.started host.old }
    ensures within { IfOk result (IsWithin limit) }
    ensures content { IfSome (H.files host.old) (λ f. IfOk result (IsWhole (f path.now) limit)) }
{
    let mut bytes = Vec::new(alloc);
    loop {
        let at = bytes.len() as u64;
        match host.read_at(alloc, path, at)? {
            Piece::Absent => return Ok(Whole::Absent),
            Piece::Bytes(piece) => {
                let items = piece.items();
                if items.len() as u64 > limit - at {
                    return Ok(Whole::TooLong);
                }
                bytes.extend_from_slice(items)?;
                if items.len() < PIECE_LEN {
                    return Ok(Whole::Bytes(Bytes::of(bytes)));
                }
            }
        }
    }
}
