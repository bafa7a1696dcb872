//! The trait `Host`: files by their paths, and child processes in folders.

ghost use Rattle.std.specs.Prelude.{◌≡◌, ◌≤◌, ◌⊎◌, ◌↔◌, ℕ, List, [], IsSome, IfSome, IfOk, OnOk, OnErr, option_map};
ghost use Rattle.std.specs.declared.option.Option.{Option};
ghost use Rattle.nf_host.specs.Faults.{Rose, OnFailed};
ghost use Rattle.nf_host.specs.Files.{Files, IsPiece, IsShort, KeepsOthers, put, appended, moved};
ghost use Rattle.nf_host.specs.Folders.{IsListed, KeepsOutside, cleared};
ghost use Rattle.nf_host.specs.Starts.{Start, IsStatus, start_of, and_start};
ghost use Rattle.nf_host.specs.Told.{Both};

use nf_value::{Bytes, Mem, Txt};
use std::alloc::{AllocError, AllocFailed, Global};
use thiserror::Error;

/// The most bytes that one read gives (own).
pub const PIECE_LEN: usize = 65_536;

/// What a read gave.
#[derive(Drop)]
pub enum Piece {
    /// There is no file at the path.
    Absent,
    /// Bytes of the file, at most 65,536.
    Bytes(Bytes),
}

/// Why a call of a host gave nothing (own).
#[derive(Debug, Drop, Clone, Copy, PartialEq, Eq, Error)]
pub enum HostRefusal {
    /// The host failed, and counted it.
    #[error("Failed")]
    Failed,
    /// Out of memory.
    #[error("Mem")]
    Mem,
}

impl From<Mem> for HostRefusal {
    ghost use Rattle.nf_host.specs.declared.host.HostRefusal.TheVariants as refusal;

    ghost from_gives = { λ _ e. e ≡ refusal.Mem };

    fn from(_error: Mem) -> HostRefusal {
        HostRefusal::Mem
    }
}

impl From<AllocError> for HostRefusal {
    ghost use Rattle.nf_host.specs.declared.host.HostRefusal.TheVariants as refusal;

    ghost from_gives = { λ _ e. e ≡ refusal.Mem };

    fn from(_error: AllocError) -> HostRefusal {
        HostRefusal::Mem
    }
}

impl<T: Drop> From<AllocFailed<T>> for HostRefusal {
    ghost use Rattle.nf_host.specs.declared.host.HostRefusal.TheVariants as refusal;

    ghost from_gives = { λ _ e. e ≡ refusal.Mem };

    fn from(_error: AllocFailed<T>) -> HostRefusal {
        HostRefusal::Mem
    }
}

/// Files by their paths, and child processes in folders, outside the program (own).
///
/// A host may reveal its files. If it does, a read gives exactly their bytes, and a write changes exactly what it says;
/// otherwise nothing is known of the bytes. It may reveal the children that it started, too.
///
/// Of any call an error is `Failed` if the host failed in this call, and counted that, or `Mem` if there is no memory.
pub trait Host {
    /// The bytes at each path, if the host reveals them.
    ghost files: { Self → Option Files };

    /// The children that ended, in their order, if the host reveals them.
    ghost started: { Self → Option (List Start) };

    /// How often the host has failed. The count stops at 2^64 - 1.
    ghost faults: { Self → ℕ };

    /// The next 65,536 bytes of a file from byte `at` on, or fewer at its end. `Absent` exactly if there is no file at the
    /// path. The files don't change.
    ///
    /// # Errors
    ///
    /// `Failed` if the host failed in this call; it counted that. `Mem` if there is no memory for the bytes.
    fn read_at(&mut self, alloc: Global, path: &str, at: u64) -> Result<Piece, HostRefusal>
        ensures later { faults self.old ≤ faults self.new }
        ensures cause { OnFailed result (Rose (faults self.old) (faults self.new)) }
        ensures same { files self.new ≡ files self.old }
        ensures no_start { started self.new ≡ started self.old }
        ensures short { IfOk result IsShort }
        ensures content { IfSome (files self.old) (λ f. IfOk result (IsPiece (f path.now) at)) };

    /// The names of a folder's own plain files in byte order, or nothing if the folder isn't there. The empty path is the
    /// folder that the program runs in. What lies in folders below isn't listed, nor is a symbolic link. The files don't
    /// change.
    ///
    /// # Errors
    ///
    /// `Failed` if the host failed in this call; it counted that. `Mem` if there is no memory for the names.
    fn list(&mut self, alloc: Global, dir: &str) -> Result<Option<Vec<Txt>>, HostRefusal>
        ensures later { faults self.old ≤ faults self.new }
        ensures cause { OnFailed result (Rose (faults self.old) (faults self.new)) }
        ensures same { files self.new ≡ files self.old }
        ensures no_start { started self.new ≡ started self.old }
        ensures content { IfSome (files self.old) (λ f. IfOk result (λ names. IsListed f dir.now (option_map (λ v. v.items) names))) };

    /// Makes a folder, and those above it that are missing. A folder that is there stays as it is. The files don't change.
    ///
    /// # Errors
    ///
    /// `Failed` if the host failed in this call; it counted that. `Mem` if there is no memory for it.
    fn make_dir(&mut self, dir: &str) -> Result<(), HostRefusal>
        ensures later { faults self.old ≤ faults self.new }
        ensures cause { OnFailed result (Rose (faults self.old) (faults self.new)) }
        ensures same { files self.new ≡ files self.old }
        ensures no_start { started self.new ≡ started self.old };

    /// Removes a folder with all that lies in it, also in folders below. It follows no symbolic link. A folder that isn't
    /// there stays so.
    ///
    /// # Errors
    ///
    /// `Failed` if the host failed in this call; it counted that. `Mem` if there is no memory for it. Some of the folder's
    /// files may be gone then.
    fn clear_dir(&mut self, alloc: Global, dir: &str) -> Result<(), HostRefusal>
        ensures later { faults self.old ≤ faults self.new }
        ensures cause { OnFailed result (Rose (faults self.old) (faults self.new)) }
        ensures no_start { started self.new ≡ started self.old }
        ensures others { Both (files self.old) (files self.new) (KeepsOutside dir.now) }
        ensures gone { OnOk result (files self.new ≡ option_map (λ f. cleared f dir.now) (files self.old)) };

    /// Makes an empty file, or empties the one at the path.
    ///
    /// # Errors
    ///
    /// `Failed` if the host failed in this call; it counted that. `Mem` if there is no memory for it. Other files are
    /// unchanged.
    fn create(&mut self, alloc: Global, path: &str) -> Result<(), HostRefusal>
        ensures later { faults self.old ≤ faults self.new }
        ensures cause { OnFailed result (Rose (faults self.old) (faults self.new)) }
        ensures no_start { started self.new ≡ started self.old }
        ensures others { Both (files self.old) (files self.new) (KeepsOthers path.now) }
        ensures created { OnOk result (files self.new ≡ option_map (λ f. put f path.now []) (files self.old)) };

    /// Writes bytes at the end of a file. A file that isn't there is made.
    ///
    /// # Errors
    ///
    /// `Failed` if the host failed in this call; it counted that. `Mem` if there is no memory for it. Other files are
    /// unchanged.
    fn append(&mut self, alloc: Global, path: &str, piece: &[u8]) -> Result<(), HostRefusal>
        ensures later { faults self.old ≤ faults self.new }
        ensures cause { OnFailed result (Rose (faults self.old) (faults self.new)) }
        ensures no_start { started self.new ≡ started self.old }
        ensures others { Both (files self.old) (files self.new) (KeepsOthers path.now) }
        ensures added { OnOk result (files self.new ≡ option_map (λ f. appended f path.now piece.now) (files self.old)) };

    /// Puts a file in the place of another, or of none, in one step: nobody sees a part of it.
    ///
    /// # Errors
    ///
    /// `Failed` if the host failed in this call, as where there is no file at `from`; it counted that. `Mem` if there is no
    /// memory for it. The files are then as they were, or as after the step.
    fn rename(&mut self, alloc: Global, from: &str, to: &str) -> Result<(), HostRefusal>
        ensures later { faults self.old ≤ faults self.new }
        ensures cause { OnFailed result (Rose (faults self.old) (faults self.new)) }
        ensures no_start { started self.new ≡ started self.old }
        ensures in_one_step { (files self.new ≡ files self.old) ⊎ (files self.new ≡ option_map (λ f. moved f from.now to.now) (files self.old)) }
        ensures there { IfSome (files self.old) (λ f. OnOk result (IsSome (f from.now))) }
        ensures renamed { OnOk result (files self.new ≡ option_map (λ f. moved f from.now to.now) (files self.old)) };

    /// Runs the script `.command.sh` of a folder in that folder, and waits for its end. It reads `.command.in`, and writes
    /// `.command.out` and `.command.err` there. Gives its exit status, 255 if it has none.
    ///
    /// A host that reveals its files promises that the child changes files of its folder alone. If it reveals its children
    /// too, it tells what the folder held when this one started and when it ended.
    ///
    /// # Errors
    ///
    /// `Failed` if the child couldn't be started or waited for; the host counted that. `Mem` if there is no memory for it.
    fn child(&mut self, alloc: Global, dir: &str) -> Result<i32, HostRefusal>
        ensures later { faults self.old ≤ faults self.new }
        ensures cause { OnFailed result (Rose (faults self.old) (faults self.new)) }
        ensures status { IfOk result IsStatus }
        ensures others { Both (files self.old) (files self.new) (KeepsOutside dir.now) }
        ensures told { IsSome (started self.new) ↔ IsSome (started self.old) }
        ensures start { Both (files self.old) (files self.new) (λ f g. IfOk result (λ z.
            started self.new ≡ and_start (started self.old) (start_of f g dir.now z))) }
        ensures no_start { OnErr result (started self.new ≡ started self.old) };

    /// How often the host has failed, at most 2^64 - 1.
    fn faults(&self) -> u64
        ensures { result ≡ faults self.now };
}
