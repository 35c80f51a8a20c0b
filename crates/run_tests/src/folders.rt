//! Callers that know a folder or a sink by its trait alone, and each call over memory.
ghost use Rattle.std.specs.Prelude.{◌≡◌, ◌<◌, ◌≤◌, ◌⊎◌, ◌++◌, List, ℕ, length, IfOk, OnOk, IsErrOf, Some};
ghost use Rattle.std.specs.Option.{ForSome};
ghost use Rattle.std.specs.Io.KnownBytes.{append_known};
ghost use Rattle.deuce_io.specs.Fault.{Rose, HasFailed, list_of, read_of};

use deuce_io::*;
use jmodel::Bytes;
use std::alloc::{AllocError, Global};
use std::test::Fail;

/// Lists a folder and reads a file, passing a fault of either on.
#[tactic(auto, using(deuce_io::specs::Told::came_whole))]
fn list_and_read<F: Folder>(
    folder: &mut F,
    dir: &str,
    path: &str,
    most: usize,
) -> Result<Bytes, IoEnd>
    ensures failed { IsErrOf result IoEnd.Failed → Rose (F.seen folder.old).faults (F.seen folder.new).faults }
    ensures call { IsErrOf result IoEnd.Failed → ((F.seen folder.new).failed ≡ Some (list_of dir.now)) ⊎ ((F.seen folder.new).failed ≡ Some (read_of path.now)) }
    ensures whole { ForSome (F.seen folder.old).files (λ told. IfOk result (λ bytes. length bytes < most → told path.now ≡ Some bytes)) }
    ensures kept { (F.seen folder.new).files ≡ (F.seen folder.old).files }
{
    folder.list(dir)?;
    let bytes = folder.read(path, most)?;
    Ok(bytes)
}

/// Writes a whole text, piece by piece.
fn write_all<O: Sink>(out: &mut O, text: &[u8]) -> Result<(), IoEnd>
    ensures written { OnOk result (O.written out.new ≡ append_known (O.written out.old) text.now) }
    ensures failed { IsErrOf result IoEnd.Failed → Rose (O.faults out.old) (O.faults out.new) }
{
    let mut at = 0;
    while at < text.len() {
        let taken = out.write(&text[at..])?;
        if taken == 0 {
            return Err(IoEnd::Failed);
        }
        at += taken;
    }
    Ok(())
}

/// A folder in memory in which each file has its path as its content.
fn folder_of(alloc: Global, paths: &[&str]) -> Result<MemFolder, IoEnd> {
    let mut folder = MemFolder::new(alloc);
    for path in paths {
        folder.put(path, path.as_bytes())?;
    }
    Ok(folder)
}

/// The names of items, each with a space after it, and those of folders with a slash.
fn names(alloc: Global, items: &[Item]) -> Result<String, AllocError> {
    let mut text = String::new(alloc);
    for item in items {
        text.push_str(item.name.as_str())?;
        text.push_str(if item.folder { "/ " } else { " " })?;
    }
    Ok(text)
}

#[test]
fn lists_what_stands_directly_in_a_folder(rt: HostRuntime) -> Result<(), Fail> {
    let alloc = rt.alloc();
    let paths = [
        "d.x",
        "d/A.class",
        "d/p/B.class",
        "d/p/C.class",
        "d/p/q/D.class",
        "dd/E",
        "d/p",
    ];
    let mut folder = folder_of(alloc, paths.as_slice())?;
    for (dir, want) in [
        ("d", "A.class p p/ "),
        ("d/p", "B.class C.class q/ "),
        ("e", ""),
        ("d/A.class", ""),
    ] {
        let names = list_names(alloc, &mut folder, dir)?;
        assert_eq!(rt; names.as_str(), want);
    }
    Ok(())
}

#[test]
fn reads_a_file_or_its_start(rt: HostRuntime) -> Result<(), Fail> {
    let mut folder = folder_of(rt.alloc(), ["d/A.class", "s"].as_slice())?;
    for (path, most, want) in [
        ("d/A.class", 3usize, "d/A"),
        ("d/A.class", 9, "d/A.class"),
        ("s", 100, "s"),
        ("s", 0, ""),
    ] {
        assert!(rt; starts(&mut folder, path, most, want)?);
    }
    assert!(rt; list_and_read(&mut folder, "d", "s", 2).is_ok());
    Ok(())
}

/// Whether the read of a file fails.
pub fn read_fails<F: Folder>(folder: &mut F, path: &str) -> bool {
    folder.read(path, 9).is_err()
}

/// Whether the list of a folder fails.
pub fn list_fails<F: Folder>(folder: &mut F, dir: &str) -> bool {
    folder.list(dir).is_err()
}

/// Whether the put of a file fails.
fn put_fails<F: Folder>(folder: &mut F, path: &str) -> bool {
    folder.put(path, b"other".as_slice()).is_err()
}

/// Whether the first bytes of a file are these.
pub fn starts<F: Folder>(
    folder: &mut F,
    path: &str,
    most: usize,
    want: &str,
) -> Result<bool, IoEnd> {
    let bytes = folder.read(path, most)?;
    Ok(bytes.as_slice() == want.as_bytes())
}

/// The names of what stands directly in a folder.
pub fn list_names<F: Folder>(alloc: Global, folder: &mut F, dir: &str) -> Result<String, IoEnd> {
    let items = folder.list(dir)?;
    Ok(names(alloc, items.as_slice())?)
}

/// Whether this is the last call of a folder in memory that failed.
fn is_last(folder: &MemFolder, kind: CallKind, path: &str) -> bool {
    match &folder.failed {
        Some(call) => call.kind == kind && call.path.as_str() == path,
        None => false,
    }
}

#[test]
fn a_read_fails_by_its_number_or_by_its_path(rt: HostRuntime) -> Result<(), Fail> {
    let mut folder = folder_of(rt.alloc(), ["d/A", "d/B", "d/C"].as_slice())?;
    folder.fail_reads.push(3)?;
    for (path, fails) in [("d/A", false), ("d/B", false), ("d/C", true), ("d/D", true)] {
        assert_eq!(rt; read_fails(&mut folder, path), fails);
        assert_eq!(rt; is_last(&folder, CallKind::Read, path), fails);
    }
    assert_eq!(rt; (folder.reads, folder.faults), (4, 2));
    Ok(())
}

#[test]
fn a_list_fails_by_its_number(rt: HostRuntime) -> Result<(), Fail> {
    let mut folder = MemFolder::new(rt.alloc());
    folder.fail_lists.push(2)?;
    for fails in [false, true, false] {
        assert_eq!(rt; list_fails(&mut folder, "d"), fails);
    }
    assert!(rt; is_last(&folder, CallKind::List, "d"));
    assert_eq!(rt; (folder.lists, folder.faults), (3, 1));
    Ok(())
}

#[test]
fn a_put_fails_by_its_number(rt: HostRuntime) -> Result<(), Fail> {
    let mut folder = folder_of(rt.alloc(), ["o/A"].as_slice())?;
    folder.fail_puts.push(2)?;
    for (path, fails) in [("o/B", true), ("o/A", false)] {
        assert_eq!(rt; put_fails(&mut folder, path), fails, "{path}");
    }
    assert!(rt; is_last(&folder, CallKind::Put, "o/B"));
    assert_eq!(rt;
        (folder.puts, folder.put_faults, folder.files.len()),
        (3, 1, 1)
    );
    assert!(rt; starts(&mut folder, "o/A", 9, "other")?);
    Ok(())
}

#[test]
fn takes_a_few_bytes_and_fails_the_second_write(rt: HostRuntime) -> Result<(), Fail> {
    let mut out = MemSink::new(rt.alloc(), 8);
    out.fail_writes.push(2)?;
    for (text, want) in [
        ("history 3", "history "),
        ("then all of it", "history then all of it"),
    ] {
        assert_eq!(rt;
            write_all(&mut out, text.as_bytes()).is_err(),
            want.len() == 8
        );
        assert!(rt; out.written.as_slice() == want.as_bytes());
    }
    assert_eq!(rt; (out.writes, out.faults), (4, 1));
    Ok(())
}

#[test]
fn takes_nothing(rt: HostRuntime) {
    let mut full = MemSink::new(rt.alloc(), 0);
    for (text, faults) in [("", 0u64), ("x", 1)] {
        assert_eq!(rt; (full.write(text.as_bytes()), full.faults), (Ok(0), faults));
    }
}

#[test]
fn writes_to_standard_output(rt: HostRuntime) -> Result<(), Fail> {
    let mut out = StdSink::new(rt);
    write_all(&mut out, b"standard output\n".as_slice())?;
    assert_eq!(rt; out.faults, 0);
    Ok(())
}
