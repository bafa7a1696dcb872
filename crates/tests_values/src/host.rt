//! Hosts and sinks: each public call once, with memory enough.

use nf_host::{
    Child, Digested, FsHost, Host, HostRefusal, MemHost, MemSink, Piece, SharedHost, Sink,
    SinkFailed, StdSink, copy_file, digest_file, write_file,
};
use nf_value::{Bytes, Mem, Txt};
use std::alloc::{AllocError, Global};
use std::fs;
use std::process::Abort;
use std::test::Fail;

const FOLDER: &str = "nf_host_test_files";

const FILE: &str = "nf_host_test_files/file";

const BELOW: &str = "nf_host_test_files/file/below";

const CHILD: &str = "nf_host_test_child/below";

const CHILD_SCRIPT: &str = "nf_host_test_child/below/.command.sh";

const CHILD_INPUT: &str = "nf_host_test_child/below/.command.in";

const CHILD_OUTPUT: &str = "nf_host_test_child/below/.command.out";

const PIECES: &str = "nf_host_test_pieces";

const FIRST: &str = "nf_host_test_pieces/first";

const LAST: &str = "nf_host_test_pieces/last";

const MISSING: &str = "nf_host_test_files/missing";

fn counted(alloc: Global, len: usize) -> Result<Vec<u8>, AllocError> {
    let mut bytes = Vec::with_capacity(alloc, len)?;
    for i in 0..len {
        bytes.push((i % 251) as u8)?;
    }
    Ok(bytes)
}

fn has(piece: &Piece, want: &[u8]) -> bool {
    match piece {
        Piece::Absent => false,
        Piece::Bytes(bytes) => bytes.items() == want,
    }
}

fn has_part(piece: &Piece, bytes: &[u8], from: usize, end: usize) -> bool {
    match bytes.get(from..end) {
        Some(part) => has(piece, part),
        None => false,
    }
}

fn is_absent(piece: &Piece) -> bool {
    match piece {
        Piece::Absent => true,
        Piece::Bytes(_) => false,
    }
}

fn has_failed(read: &Result<Piece, HostRefusal>) -> bool {
    matches!(read, Err(HostRefusal::Failed))
}

/// A host of two files, of which one was put twice, that fails at the fifth read.
fn failing_host(alloc: Global) -> Result<MemHost, Mem> {
    let mut host = MemHost::new(alloc);
    host.put("a", b"first")?;
    host.put("b", b"other")?;
    host.put("a", b"second")?;
    host.fail_at(4)?;
    Ok(host)
}

#[test]
fn a_host_in_memory(rt: HostRuntime) -> Result<(), Fail> {
    let alloc = rt.alloc();
    let mut host = failing_host(alloc)?;
    for (at, want) in [(0, "second"), (2, "cond"), (7, "")] {
        assert!(rt;
            has(&host.read_at(alloc, "a", at)?, want.as_bytes()),
            "{at}"
        );
    }
    assert!(rt; is_absent(&host.read_at(alloc, "", 0)?));
    assert!(rt; has_failed(&host.read_at(alloc, "a", 0)));
    assert_eq!(rt; host.faults(), 1);
    assert!(rt; has(&host.read_at(alloc, "b", 0)?, b"other"));
    assert_eq!(rt; host.faults(), 1);
    Ok(())
}

/// The bytes of a file that is read at once.
fn reads<H: Host>(host: &mut H, alloc: Global, path: &str, want: &[u8]) -> bool {
    match host.read_at(alloc, path, 0) {
        Ok(piece) => has(&piece, want),
        Err(_) => false,
    }
}

/// Whether a folder lists exactly these names.
fn lists<H: Host>(host: &mut H, alloc: Global, dir: &str, want: &[&str]) -> bool {
    let Ok(Some(names)) = host.list(alloc, dir) else {
        return false;
    };
    if names.len() != want.len() {
        return false;
    }
    for i in 0..want.len() {
        if i >= names.len() || names[i].as_str() != want[i] {
            return false;
        }
    }
    true
}

/// A host with a folder of two files, and a third below, whose script writes one more and ends with 3.
fn host_with_a_child(alloc: Global) -> Result<MemHost, Mem> {
    let mut host = MemHost::new(alloc);
    host.put("d/b", b"2")?;
    host.put("d/a", b"1")?;
    host.put("d/sub/c", b"3")?;
    host.put("d2", b"other")?;
    let mut files = Vec::new(alloc);
    files.push((
        Txt::of(String::from_str(alloc, ".command.out")?),
        Bytes::of(Vec::from_slice(alloc, b"said")?),
    ))?;
    host.add_child(b"exit 3\n", Child { status: 3, files })?;
    Ok(host)
}

#[test]
fn folders_in_memory(rt: HostRuntime) -> Result<(), Fail> {
    let alloc = rt.alloc();
    let mut host = host_with_a_child(alloc)?;
    assert!(rt; lists(&mut host, alloc, "d", &["a", "b"]));
    assert!(rt; lists(&mut host, alloc, "", &["d2"]));
    assert!(rt; host.list(alloc, "none")?.is_none());
    host.append(alloc, "d/a", b"0")?;
    assert!(rt; reads(&mut host, alloc, "d/a", b"10"));
    host.create(alloc, "d/a")?;
    assert!(rt; reads(&mut host, alloc, "d/a", b""));
    host.rename(alloc, "d/b", "d/a")?;
    assert!(rt; reads(&mut host, alloc, "d/a", b"2"));
    assert!(rt; is_absent(&host.read_at(alloc, "d/b", 0)?));
    assert_eq!(rt; host.rename(alloc, "d/b", "d/a"), Err(HostRefusal::Failed));
    host.clear_dir(alloc, "d")?;
    assert!(rt; host.list(alloc, "d")?.is_none());
    assert!(rt; reads(&mut host, alloc, "d2", b"other"));
    Ok(())
}

#[test]
fn children_in_memory(rt: HostRuntime) -> Result<(), Fail> {
    let alloc = rt.alloc();
    let mut host = host_with_a_child(alloc)?;
    assert_eq!(rt; host.child(alloc, "d")?, 127);
    host.put("d/.command.sh", b"exit 3\n")?;
    assert_eq!(rt; host.child(alloc, "d")?, 3);
    assert!(rt; reads(&mut host, alloc, "d/.command.out", b"said"));
    Ok(())
}

#[test]
fn a_copy_in_memory(rt: HostRuntime) -> Result<(), Fail> {
    let alloc = rt.alloc();
    let bytes = counted(alloc, 65_537)?;
    let mut host = MemHost::new(alloc);
    host.put("a", &bytes)?;
    let Digested::Whole { digest, len } = copy_file(alloc, &mut host, "a", "b", 65_537)? else {
        return Err(Fail::new("no whole file"));
    };
    assert_eq!(rt; len, 65_537);
    let Digested::Whole { digest: again, .. } = digest_file(alloc, &mut host, "b", 65_537)? else {
        return Err(Fail::new("no whole file"));
    };
    assert_eq!(rt; digest.0, again.0);
    assert!(rt;
        matches!(
            digest_file(alloc, &mut host, "b", 65_536),
            Ok(Digested::TooLong)
        )
    );
    assert!(rt;
        matches!(
            digest_file(alloc, &mut host, "c", 65_536),
            Ok(Digested::Absent)
        )
    );
    Ok(())
}

#[test]
fn a_shared_host(rt: HostRuntime) -> Result<(), Fail> {
    let alloc = rt.alloc();
    let mut host = host_with_a_child(alloc)?;
    host.fail_at(1)?;
    let mut handles = SharedHost::handles(&rt, alloc, host, 2)?;
    assert_eq!(rt; handles.len(), 2);
    for handle in &mut handles {
        let _ = handle.create(alloc, "d/b");
        let _ = handle.append(alloc, "d/b", b"5");
    }
    let mut failed = 0u64;
    for handle in &handles {
        failed = failed.saturating_add(handle.faults());
    }
    assert_eq!(rt; failed, 1);
    Ok(())
}

#[test]
fn a_sink_in_memory(rt: HostRuntime) -> Result<(), Fail> {
    let mut sink = MemSink::new(rt.alloc());
    sink.fail_at(1, 2)?;
    sink.write(b"one")?;
    assert_eq!(rt; sink.write(b"two"), Err(SinkFailed));
    sink.write(b"three")?;
    assert_eq!(rt; sink.written(), b"onetwthree".as_slice());
    assert_eq!(rt; sink.faults(), 1);
    Ok(())
}

#[test]
fn files_of_the_system(rt: HostRuntime) -> Result<(), Fail> {
    let alloc = rt.alloc();
    let bytes = counted(alloc, 65_537)?;
    fs::create_dir_all(&rt, FOLDER)?;
    fs::write(&rt, FILE, &bytes)?;
    let mut host = FsHost::new(&rt);
    for (at, end) in [(0, 65_536), (65_530, 65_537), (65_537, 65_537)] {
        let piece = host.read_at(alloc, FILE, at as u64)?;
        assert!(rt; has_part(&piece, &bytes, at, end), "{at}");
    }
    for absent in ["", MISSING, BELOW] {
        assert!(rt; is_absent(&host.read_at(alloc, absent, 0)?), "{absent}");
    }
    assert_eq!(rt; host.faults(), 0);
    assert!(rt; has_failed(&host.read_at(alloc, FOLDER, 0)));
    assert_eq!(rt; host.faults(), 1);
    fs::remove_dir_all(&rt, FOLDER)?;
    Ok(())
}

#[test]
fn children_of_the_system(rt: HostRuntime) -> Result<(), Fail> {
    let alloc = rt.alloc();
    let mut host = FsHost::new(&rt);
    host.clear_dir(alloc, CHILD)?;
    host.make_dir(CHILD)?;
    write_file(alloc, &mut host, CHILD_INPUT, b"x")?;
    write_file(alloc, &mut host, CHILD_SCRIPT, b"cat; echo y >&2; exit 3\n")?;
    assert_eq!(rt; host.child(alloc, CHILD)?, 3);
    assert!(rt; reads(&mut host, alloc, CHILD_OUTPUT, b"x"));
    write_file(alloc, &mut host, CHILD_SCRIPT, b"kill -9 $$\n")?;
    assert_eq!(rt; host.child(alloc, CHILD)?, 137);
    write_file(alloc, &mut host, CHILD_SCRIPT, b"kill -9 $PPID\n")?;
    assert_eq!(rt; host.child(alloc, CHILD)?, 255);
    host.rename(alloc, CHILD_INPUT, CHILD_OUTPUT)?;
    assert!(rt; reads(&mut host, alloc, CHILD_OUTPUT, b"x"));
    assert!(rt;
        lists(
            &mut host,
            alloc,
            CHILD,
            &[".command.err", ".command.out", ".command.sh"]
        )
    );
    host.clear_dir(alloc, CHILD)?;
    assert!(rt; host.list(alloc, CHILD)?.is_none());
    assert_eq!(rt; host.faults(), 0);
    Ok(())
}

// A file that is renamed, cleared or made anew takes no more pieces under its old path.
#[test]
fn pieces_of_a_file(rt: HostRuntime) -> Result<(), Fail> {
    let alloc = rt.alloc();
    let mut host = FsHost::new(&rt);
    host.make_dir(PIECES)?;
    host.create(alloc, FIRST)?;
    host.append(alloc, FIRST, b"a")?;
    host.append(alloc, FIRST, b"b")?;
    assert!(rt; reads(&mut host, alloc, FIRST, b"ab"));
    host.rename(alloc, FIRST, LAST)?;
    host.append(alloc, FIRST, b"c")?;
    assert!(rt; reads(&mut host, alloc, LAST, b"ab"));
    host.create(alloc, LAST)?;
    host.append(alloc, FIRST, b"d")?;
    assert!(rt; reads(&mut host, alloc, FIRST, b"cd"));
    assert!(rt; reads(&mut host, alloc, LAST, b""));
    host.clear_dir(alloc, PIECES)?;
    assert_eq!(rt; host.faults(), 0);
    assert!(rt; host.append(alloc, LAST, b"e").is_err());
    assert_eq!(rt; host.faults(), 1);
    Ok(())
}

#[test]
fn the_standard_output(rt: HostRuntime) -> Result<(), Fail> {
    let mut sink = StdSink::new(&rt);
    sink.write(b"to the standard output\n")?;
    assert_eq!(rt; sink.faults(), 0);
    Ok(())
}
