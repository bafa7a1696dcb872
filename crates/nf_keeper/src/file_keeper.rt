//! `FileKeeper`: what is kept, in a folder of files.

ghost use Rattle.std.specs.Prelude.{◌≡◌, ◌≤◌, ◌+◌, ◌-◌, ◌^◌, min, length, IfOk, IfSome, OnOk, OnErr, string_bytes};
ghost use Rattle.hex.specs.Hex.{IsBytes};
ghost use Rattle.nf_host.specs.Faults.{Rose, OnFailed as OnHostFailed};
ghost use Rattle.nf_keeper.specs.Faults.{OnFailed};
ghost use Rattle.nf_keeper.specs.FileKeeper.{path_of, HasPut, MayHavePut};
ghost use Rattle.nf_keeper.specs.Held.{Both, Leaves};

use crate::keeper::Keeper;
use crate::refusal::KeeperRefusal;
use nf_host::{Host, HostRefusal, Whole, path_in, read_whole, write_file};
use nf_value::{Bytes, Digest, Mem, Txt};
use std::alloc::Global;

/// The most bytes of a record that a file may have (own).
pub const RECORD_LIMIT: u64 = 16_777_216;

/// The name of a file that is being written. No key has it: it has three characters.
const SCRATCH: &str = "new";

/// Keeps bytes in files of one folder, one for each key, named by the key's 64 hexadecimal digits (own). A file is written whole under
/// another name and renamed then. So a program that is stopped leaves at each key what was there, or all the new bytes. A file of more
/// than 16,777,216 bytes counts as none. It reveals what it holds if its host reveals its files.
#[derive(Drop)]
pub struct FileKeeper<H> {
    host: H,
    folder: Txt,
    refused: u64,
    alloc: Global,
}

impl<H: Host> FileKeeper<H> {
    ghost use Rattle.nf_keeper.specs.FileKeeper.{host_of, folder_of, refused_of};

    /// Keeps bytes in this folder of the host. The folder needn't be there: the first `put` makes it. Nobody else may write to it.
    /// Takes no memory.
    pub fn new(alloc: Global, host: H, folder: Txt) -> FileKeeper<H>
        ensures host { host_of result ≡ host }
        ensures folder { folder_of result ≡ folder }
        ensures refused { refused_of result ≡ 0 }
    {
        FileKeeper {
            host,
            folder,
            refused: 0,
            alloc,
        }
    }

    /// The host. Takes no memory.
    pub fn into_host(self) -> H
        ensures { result ≡ host_of self }
    {
        self.host
    }
}

impl<H: Host> Keeper for FileKeeper<H> {
    ghost use Rattle.nf_keeper.specs.FileKeeper.{held_of, count_of, folder_of};

    ghost held = { held_of H.files };

    ghost faults = { count_of H.faults };

    fn get(&mut self, alloc: Global, key: &Digest) -> Result<Option<Bytes>, KeeperRefusal>
        ensures later { count_of H.faults self.old ≤ count_of H.faults self.new }
        ensures cause { OnFailed result (Rose (count_of H.faults self.old) (count_of H.faults self.new)) }
        ensures same { held_of H.files self.new ≡ held_of H.files self.old }
        ensures content { IfSome (held_of H.files self.old) (λ m. IfOk result (λ o. o ≡ m key.now.0)) }
        ensures folder { folder_of self.new ≡ folder_of self.old }
    {
        let path = record_path(alloc, self.folder.as_str(), &key.0)?;
        match read_whole(alloc, &mut self.host, path.as_str(), RECORD_LIMIT)? {
            Whole::Absent | Whole::TooLong => Ok(None),
            Whole::Bytes(bytes) => Ok(Some(bytes)),
        }
    }

    /// It fails too where there are more than 16,777,216 bytes: nothing changes then.
    fn put(&mut self, key: &Digest, bytes: &[u8]) -> Result<(), KeeperRefusal>
        ensures later { count_of H.faults self.old ≤ count_of H.faults self.new }
        ensures cause { OnFailed result (Rose (count_of H.faults self.old) (count_of H.faults self.new)) }
        ensures content { Both (held_of H.files self.old) (held_of H.files self.new) (Leaves key.now.0 bytes.now result) }
        ensures folder { folder_of self.new ≡ folder_of self.old }
    {
        if bytes.len() as u64 > RECORD_LIMIT {
            self.refused = self.refused.saturating_add(1);
            return Err(KeeperRefusal::Failed);
        }
        put_file(
            self.alloc,
            &mut self.host,
            self.folder.as_str(),
            &key.0,
            bytes,
        )?;
        Ok(())
    }

    fn faults(&self) -> u64 {
        self.host.faults().saturating_add(self.refused)
    }
}

/// The path of a key's file in a folder.
fn record_path(alloc: Global, folder: &str, key: &[u8]) -> Result<String, Mem>
    ensures path { IfOk result (λ p. string_bytes p ≡ path_of folder.now key.now) }
    ensures bytes { IsBytes key.now }
{
    let name = hex::encode(alloc, key)?;
    path_in(alloc, folder, name.as_str())
}

/// Writes a key's file whole under another name, and renames it then.
fn put_file<H: Host>(
    alloc: Global,
    host: &mut H,
    folder: &str,
    key: &[u8],
    bytes: &[u8],
) -> Result<(), HostRefusal>
    requires { length bytes.now ≤ 16777216 }
    ensures later { H.faults host.old ≤ H.faults host.new }
    ensures cause { OnHostFailed result (Rose (H.faults host.old) (H.faults host.new)) }
    ensures ok { OnOk result (Both (H.files host.old) (H.files host.new) (HasPut folder.now key.now bytes.now)) }
    ensures err { OnErr result (Both (H.files host.old) (H.files host.new) (MayHavePut folder.now key.now bytes.now)) }
{
    let path = record_path(alloc, folder, key)?;
    let scratch = path_in(alloc, folder, SCRATCH)?;
    host.make_dir(folder)?;
    write_file(alloc, host, scratch.as_str(), bytes)?;
    host.rename(alloc, scratch.as_str(), path.as_str())
}
