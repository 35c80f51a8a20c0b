//! The machine's files: what is listed and read of them, and what is a fault.
use crate::folders::{list_fails, list_names, read_fails, starts};
use deuce_io::{Folder, IoEnd, RealFolder};
use std::alloc::{AllocError, Global};
use std::os::fd::AsRawFd;
use std::os::unix::fs::symlink;
use std::test::Fail;
use std::{env, fs, io, process};

/// A folder of this name for a test of this process.
fn place(rt: &HostRuntime, name: &str) -> Result<String, Fail> {
    let alloc = rt.alloc();
    let temporary = env::temp_dir(rt)?;
    let id = process::id(rt.process());
    Ok(format!(in alloc; "{}/deuce-{id}-{name}", temporary.as_path().display())?)
}

/// A path below a folder.
fn below(alloc: Global, folder: &str, name: &str) -> Result<String, AllocError> {
    let mut path = String::from_str(alloc, folder)?;
    path.push_str(name)?;
    Ok(path)
}

/// How many bytes are read of a file, of which this many are asked for.
fn read_len<F: Folder>(folder: &mut F, path: &str, most: usize) -> Result<usize, IoEnd> {
    Ok(folder.read(path, most)?.len())
}

/// Whether these are the names of what stands directly in the folder of a name below another.
fn lists<F: Folder>(
    alloc: Global,
    folder: &mut F,
    root: &str,
    name: &str,
    want: &str,
) -> Result<bool, IoEnd> {
    let dir = below(alloc, root, name)?;
    Ok(list_names(alloc, folder, dir.as_str())?.as_str() == want)
}

#[test]
fn reaches_the_files_of_the_machine(rt: HostRuntime) -> Result<(), Fail> {
    let alloc = rt.alloc();
    let root = place(&rt, "files")?;
    let file = below(alloc, root.as_str(), "/p/x.bin")?;
    let mut folder = RealFolder::new(alloc, rt);
    folder.put(file.as_str(), [7u8; 5000].as_slice())?;
    for (most, want) in [(6000usize, 5000usize), (4097, 4097), (0, 0)] {
        assert_eq!(rt; read_len(&mut folder, file.as_str(), most)?, want);
    }
    for (name, want) in [("", "p/ "), ("/p", "x.bin ")] {
        assert!(rt;
            lists(alloc, &mut folder, root.as_str(), name, want)?,
            "{name}"
        );
    }
    fs::remove_dir_all(&rt, root.as_str())?;
    assert!(rt; read_fails(&mut folder, file.as_str()));
    assert!(rt; list_fails(&mut folder, root.as_str()));
    assert_eq!(rt; (folder.faults, folder.put_faults), (2, 0));
    Ok(())
}

/// Makes a folder of this name below another, with a link in it, and gives the link's path.
fn link_in(rt: &HostRuntime, root: &str, name: &str, to: &str) -> Result<String, Fail> {
    let dir = below(rt.alloc(), root, name)?;
    let link = below(rt.alloc(), dir.as_str(), "/link")?;
    fs::create_dir_all(rt, dir.as_str())?;
    symlink(rt, to, link.as_str())?;
    Ok(link)
}

#[test]
fn a_link_is_a_file_and_a_file_is_read_through_it(rt: HostRuntime) -> Result<(), Fail> {
    let alloc = rt.alloc();
    let root = place(&rt, "links")?;
    let file = below(alloc, root.as_str(), "/f")?;
    let mut folder = RealFolder::new(alloc, rt);
    folder.put(file.as_str(), b"content".as_slice())?;
    for (name, to, reads) in [("/d", root.as_str(), false), ("/e", file.as_str(), true)] {
        let link = link_in(&rt, root.as_str(), name, to)?;
        assert!(rt;
            lists(alloc, &mut folder, root.as_str(), name, "link ")?,
            "{name}"
        );
        assert_eq!(rt;
            starts(&mut folder, link.as_str(), 9, "content").is_ok(),
            reads
        );
    }
    fs::remove_dir_all(&rt, root.as_str())?;
    Ok(())
}

#[test]
fn a_pipe_a_device_and_a_folder_are_not_read(rt: HostRuntime) -> Result<(), Fail> {
    let alloc = rt.alloc();
    let (reader, _writer) = io::pipe(&rt)?;
    let pipe = format!(in alloc; "/proc/self/fd/{}", reader.as_raw_fd())?;
    let mut folder = RealFolder::new(alloc, rt);
    for path in [pipe.as_str(), "/dev/zero", "/dev"] {
        assert!(rt; read_fails(&mut folder, path), "{path}");
    }
    assert_eq!(rt; folder.faults, 3);
    Ok(())
}

/// Makes a folder below another, with a file in it the path of which is longer than the machine takes, and gives the folder's path. The file is put
/// through a link.
fn deep_folder(rt: &HostRuntime, root: &str) -> Result<String, Fail> {
    let alloc = rt.alloc();
    let name = "a".repeat(alloc, 249)?;
    let mut dir = String::from_str(alloc, root)?;
    for _ in 0..16 {
        dir.push('/')?;
        dir.push_str(name.as_str())?;
    }
    fs::create_dir_all(rt, dir.as_str())?;
    let link = below(alloc, root, "/link")?;
    symlink(rt, dir.as_str(), link.as_str())?;
    let file = format!(in alloc; "{link}/{name}")?;
    fs::write(rt, file.as_str(), b"".as_slice())?;
    Ok(dir)
}

#[test]
fn an_item_that_cannot_be_looked_at_fails_the_list(rt: HostRuntime) -> Result<(), Fail> {
    let root = place(&rt, "deep")?;
    let dir = deep_folder(&rt, root.as_str())?;
    let mut folder = RealFolder::new(rt.alloc(), rt);
    assert!(rt; list_fails(&mut folder, dir.as_str()));
    assert!(rt; !list_fails(&mut folder, root.as_str()));
    assert_eq!(rt; folder.faults, 1);
    fs::remove_dir_all(&rt, root.as_str())?;
    Ok(())
}
