//! The machine's files.
ghost use Rattle.std.specs.Prelude.{◌≡◌, ◌≤◌, length, IfOk, OnOk, OnErr, IsErrOf, None, Some};
ghost use Rattle.std.specs.Option.{option_map};
ghost use Rattle.deuce_io.specs.Fault.{HasFailed, Rose, next_count, call_of, list_of, read_of, put_of, seen_call};

use crate::end::IoEnd;
use crate::failed_call::{CallKind, FailedCall, fail};
use crate::folder::{Folder, Item};
use crate::std_sink::end_of;
use jmodel::Bytes;
use std::alloc::Global;
use std::io::{ErrorKind, Read};
use std::rt::Files;
use std::{fs, io};

/// How many bytes are read at once.
const PIECE: usize = 4096;

/// The machine's files, of which it tells nothing. A link counts as a file: what it leads to is read through it,
/// and a folder that it leads to isn't listed. A name that isn't UTF-8 and an item that can't be looked at are
/// faults of the list. Regular files alone are read: a pipe, a device or a folder is a fault, told at once.
#[derive(Drop)]
pub struct RealFolder<R: Files + AllocGlobal + Clone + Drop> {
    rt: R,
    alloc: Global,
    /// How many lists and reads have failed.
    pub faults: u64,
    /// How many puts have failed.
    pub put_faults: u64,
    /// The last call that failed.
    pub failed: Option<FailedCall>,
}

/// The first `most` bytes that a reader gives, or all where there are fewer.
fn first_bytes<F: Read>(alloc: Global, from: &mut F, most: usize) -> io::Result<Bytes>
    ensures { IfOk result (λ bytes. length bytes ≤ most) }
{
    let mut bytes = Vec::new(alloc);
    let mut piece = [0u8; PIECE];
    for _ in 0..u64::MAX {
        let room = PIECE.min(most - bytes.len());
        if room == 0 {
            break;
        }
        let taken = from.read(&mut piece[..room])?;
        if taken == 0 {
            break;
        }
        bytes.extend_from_slice(&piece[..taken])?;
    }
    Ok(Bytes::from_vec(bytes))
}

impl<R: Files + AllocGlobal + Clone + Drop> RealFolder<R> {
    /// The files of a runtime. Takes no memory.
    pub fn new(alloc: Global, rt: R) -> Self
        ensures { (result.faults ≡ 0) × (result.put_faults ≡ 0) × (result.failed ≡ None) }
    {
        RealFolder {
            rt,
            alloc,
            faults: 0,
            put_faults: 0,
            failed: None,
        }
    }

    /// The items that stand directly in a folder.
    fn items(&self, dir: &str) -> io::Result<Vec<Item>> {
        let mut items = Vec::new(self.alloc);
        for entry in fs::read_dir(&self.rt, dir)? {
            let entry = entry?;
            items.push(Item {
                name: String::from_str(self.alloc, entry.file_name())?,
                folder: entry.metadata()?.is_dir(),
            })?;
        }
        Ok(items)
    }

    /// The first `most` bytes of a regular file, or all where there are fewer. What else stands at the path isn't
    /// opened, since a pipe would wait for a writer.
    fn start_of(&self, path: &str, most: usize) -> io::Result<Bytes>
        ensures { IfOk result (λ bytes. length bytes ≤ most) }
    {
        if !fs::metadata(&self.rt, path)?.is_file() {
            return Err(io::Error::from(ErrorKind::InvalidInput));
        }
        let mut file = fs::open(&self.rt, path)?;
        first_bytes(self.alloc, &mut file, most)
    }

    /// Makes a file have these bytes, and makes the folders above it where they are missing.
    fn store(&self, path: &str, bytes: &[u8]) -> io::Result<()> {
        if let Some((above, _)) = path.rsplit_once('/') {
            fs::create_dir_all(&self.rt, above)?;
        }
        fs::write(&self.rt, path, bytes)
    }
}

/// Counts an error of the machine, and keeps this call as the last that failed, but not where there was no
/// memory for it.
fn fail_by(
    alloc: Global,
    error: &io::Error,
    count: &mut u64,
    last: &mut Option<FailedCall>,
    kind: CallKind,
    path: &str,
) -> IoEnd
    ensures counted { count.new ≡ next_count count.old }
    ensures no_less { count.old ≤ count.new }
    ensures rose { Rose count.old count.new }
    ensures failed { result ≡ IoEnd.Failed → option_map seen_call last.new ≡ Some (call_of kind path.now) }
    ensures no_memory { result ≡ IoEnd.NoMemory → last.new ≡ last.old }
{
    match end_of(error) {
        IoEnd::Failed => fail(alloc, count, last, kind, path),
        IoEnd::NoMemory => {
            *count = count.saturating_add(1);
            IoEnd::NoMemory
        }
    }
}

impl<R: Files + AllocGlobal + Clone + Drop> Folder for RealFolder<R> {
    ghost seen = { λ f. record { files = None; faults = f.faults; put_faults = f.put_faults; failed = option_map seen_call f.failed } };

    fn list(&mut self, dir: &str) -> Result<Vec<Item>, IoEnd>
        // as of every folder
        ensures counts { self.old.faults ≤ self.new.faults }
        ensures put_counts { self.old.put_faults ≤ self.new.put_faults }
        ensures cause { IsErrOf result IoEnd.Failed → HasFailed self.old.faults self.new.faults (option_map seen_call self.new.failed) (list_of dir.now) }
        // of this one: its count rises at each error, and nothing else changes
        ensures quiet { OnOk result (self.new ≡ self.old) }
        ensures rises { OnErr result (self.new ≡ record self.old { faults = next_count self.old.faults; failed = self.new.failed }) }
    {
        match self.items(dir) {
            Ok(items) => Ok(items),
            Err(error) => {
                let (count, last) = (&mut self.faults, &mut self.failed);
                Err(fail_by(self.alloc, &error, count, last, CallKind::List, dir))
            }
        }
    }

    fn read(&mut self, path: &str, most: usize) -> Result<Bytes, IoEnd>
        // as of every folder
        ensures within { IfOk result (λ bytes. length bytes ≤ most) }
        ensures counts { self.old.faults ≤ self.new.faults }
        ensures put_counts { self.old.put_faults ≤ self.new.put_faults }
        ensures cause { IsErrOf result IoEnd.Failed → HasFailed self.old.faults self.new.faults (option_map seen_call self.new.failed) (read_of path.now) }
        // of this one: its count rises at each error, and nothing else changes
        ensures quiet { OnOk result (self.new ≡ self.old) }
        ensures rises { OnErr result (self.new ≡ record self.old { faults = next_count self.old.faults; failed = self.new.failed }) }
    {
        match self.start_of(path, most) {
            Ok(bytes) => Ok(bytes),
            Err(error) => {
                let (count, last) = (&mut self.faults, &mut self.failed);
                Err(fail_by(self.alloc, &error, count, last, CallKind::Read, path))
            }
        }
    }

    fn put(&mut self, path: &str, bytes: &[u8]) -> Result<(), IoEnd>
        // as of every folder
        ensures counts { self.old.faults ≤ self.new.faults }
        ensures put_counts { self.old.put_faults ≤ self.new.put_faults }
        ensures cause { IsErrOf result IoEnd.Failed → HasFailed self.old.put_faults self.new.put_faults (option_map seen_call self.new.failed) (put_of path.now) }
        // of this one: its count rises at each error, and nothing else changes
        ensures quiet { OnOk result (self.new ≡ self.old) }
        ensures rises { OnErr result (self.new ≡ record self.old { put_faults = next_count self.old.put_faults; failed = self.new.failed }) }
    {
        match self.store(path, bytes) {
            Ok(()) => Ok(()),
            Err(error) => {
                let (count, last) = (&mut self.put_faults, &mut self.failed);
                Err(fail_by(self.alloc, &error, count, last, CallKind::Put, path))
            }
        }
    }
}
