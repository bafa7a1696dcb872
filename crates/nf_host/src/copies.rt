//! Digests and copies of files, piece by piece.

ghost use Rattle.std.specs.Prelude.{◌≡◌, ◌≤◌, IfSome, IfOk, OnOk, false, bytes_eq, option_map};
ghost use Rattle.nf_host.specs.Copies.{IsDigested, IsCopied, grown};
ghost use Rattle.nf_host.specs.Faults.{Rose, OnFailed};
ghost use Rattle.nf_host.specs.Files.{KeepsOthers, put};
ghost use Rattle.nf_host.specs.Told.{Both};

use crate::host::{Host, HostRefusal, PIECE_LEN, Piece};
use nf_value::Digest;
use sha2::{Digest as Hasher, Sha256};
use std::alloc::Global;

/// The most bytes that a file may have (own).
pub const FILE_LIMIT: u64 = 1_099_511_627_775;

/// What a read of a whole file came to, if its bytes aren't kept.
#[derive(Clone, Copy, Drop)]
pub enum Digested {
    /// There is no file at the path.
    Absent,
    /// The file is longer than the limit.
    TooLong,
    /// The SHA-256 of all the bytes of the file (FIPS 180-4), and how many they are.
    Whole {
        /// Their digest.
        digest: Digest,
        /// Their number.
        len: u64,
    },
}

/// Reads a whole file of at most `limit` bytes piece by piece, and gives its digest. It holds one piece at a time. A piece of
/// fewer than 65,536 bytes ends the file. Reading stops at the first piece that passes the limit (own).
///
/// If the host reveals its files: `Absent` exactly if there is no file at the path, `TooLong` exactly if the file is longer
/// than `limit`, else exactly its digest and length.
///
/// # Errors
///
/// `Failed` if the host failed in this call; it counted that. `Mem` if there is no memory for a piece.
pub fn digest_file<H: Host>(
    alloc: Global,
    host: &mut H,
    path: &str,
    limit: u64,
) -> Result<Digested, HostRefusal>
    ensures later { H.faults host.old ≤ H.faults host.new }
    ensures cause { OnFailed result (Rose (H.faults host.old) (H.faults host.new)) }
    ensures same { H.files host.new ≡ H.files host.old }
    ensures no_start { H.started host.new ≡ H.started host.old }
    ensures content { IfSome (H.files host.old) (λ f. IfOk result (IsDigested limit (f path.now))) }
{
    let mut hasher = Sha256::new();
    let mut at = 0u64;
    'pieces: loop {
        match host.read_at(alloc, path, at)? {
            Piece::Absent => return Ok(Digested::Absent),
            Piece::Bytes(piece) => {
                let items = piece.items();
                let len = items.len() as u64;
                if len > limit - at {
                    return Ok(Digested::TooLong);
                }
                hasher.update(items);
                at += len;
                if items.len() < PIECE_LEN {
                    let digest = Digest(hasher.finalize());
                    return Ok(Digested::Whole { digest, len: at });
                }
            }
        }
    }
}

/// Writes a file with these bytes. It replaces a file that is there (own).
///
/// # Errors
///
/// `Failed` if the host failed in this call; it counted that. `Mem` if there is no memory for it. All other files are
/// unchanged.
pub fn write_file<H: Host>(
    alloc: Global,
    host: &mut H,
    path: &str,
    bytes: &[u8],
) -> Result<(), HostRefusal>
    ensures later { H.faults host.old ≤ H.faults host.new }
    ensures cause { OnFailed result (Rose (H.faults host.old) (H.faults host.new)) }
    ensures no_start { H.started host.new ≡ H.started host.old }
    ensures others { Both (H.files host.old) (H.files host.new) (KeepsOthers path.now) }
    ensures written { OnOk result (H.files host.new ≡ option_map (λ f. put f path.now bytes.now) (H.files host.old)) }
{
    host.create(alloc, path)?;
    host.append(alloc, path, bytes)
}

// Writes the piece of a file from byte `at` on. The first piece makes the file anew.
fn write_piece<H: Host>(
    alloc: Global,
    host: &mut H,
    path: &str,
    at: u64,
    piece: &[u8],
) -> Result<(), HostRefusal>
    ensures later { H.faults host.old ≤ H.faults host.new }
    ensures cause { OnFailed result (Rose (H.faults host.old) (H.faults host.new)) }
    ensures no_start { H.started host.new ≡ H.started host.old }
    ensures others { Both (H.files host.old) (H.files host.new) (KeepsOthers path.now) }
    ensures added { OnOk result (H.files host.new ≡ option_map (λ f. grown at f path.now piece.now) (H.files host.old)) }
{
    if at == 0 {
        write_file(alloc, host, path, piece)
    } else {
        host.append(alloc, path, piece)
    }
}

/// Copies a whole file of at most `limit` bytes to another path piece by piece, and gives the digest of what it read. It
/// reads as `digest_file` does. A file that is absent isn't copied; of one that is too long only a part may be (own).
///
/// If the two paths differ and the host reveals its files, what was read is exactly the file's, and the copy of a whole file
/// has exactly its bytes.
///
/// # Errors
///
/// `Failed` if the host failed in this call; it counted that. `Mem` if there is no memory for a piece. All files but the one
/// at `to` are unchanged.
pub fn copy_file<H: Host>(
    alloc: Global,
    host: &mut H,
    from: &str,
    to: &str,
    limit: u64,
) -> Result<Digested, HostRefusal>
    ensures later { H.faults host.old ≤ H.faults host.new }
    ensures cause { OnFailed result (Rose (H.faults host.old) (H.faults host.new)) }
    ensures no_start { H.started host.new ≡ H.started host.old }
    ensures others { Both (H.files host.old) (H.files host.new) (KeepsOthers to.now) }
    ensures content { bytes_eq from.now to.now ≡ false → IfSome (H.files host.old) (λ f. IfOk result (IsDigested limit (f from.now))) }
    ensures copied { bytes_eq from.now to.now ≡ false → Both (H.files host.old) (H.files host.new) (λ f g. IfOk result (IsCopied (f from.now) (g to.now))) }
{
    let mut hasher = Sha256::new();
    let mut at = 0u64;
    'pieces: loop {
        match host.read_at(alloc, from, at)? {
            Piece::Absent => return Ok(Digested::Absent),
            Piece::Bytes(piece) => {
                let items = piece.items();
                let len = items.len() as u64;
                if len > limit - at {
                    return Ok(Digested::TooLong);
                }
                write_piece(alloc, host, to, at, items)?;
                hasher.update(items);
                at += len;
                if items.len() < PIECE_LEN {
                    let digest = Digest(hasher.finalize());
                    return Ok(Digested::Whole { digest, len: at });
                }
            }
        }
    }
}
