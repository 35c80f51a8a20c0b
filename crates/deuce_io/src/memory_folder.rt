//! A folder in memory.
ghost use Rattle.std.specs.Prelude.{◌≡◌, ◌≤◌, ◌⊎◌, List, ℕ, [], length, take, Option, IfOk, OnOk, OnErr, IsErrOf, Contains, Some, None};
ghost use Rattle.std.specs.Option.{ForSome, option_map};
ghost use Rattle.std.specs.BTreeMap.{get_by_text};
ghost use Rattle.deuce_io.specs.Fault.{HasFailed, next_count, seen_call, list_of, read_of, put_of};
ghost use Rattle.deuce_io.specs.Files.{IsListing, seen_items, with_content};

use crate::end::IoEnd;
use crate::failed_call::{CallKind, FailedCall, fail};
use crate::folder::{Folder, Item};
use crate::listing::items_of;
use jmodel::Bytes;
use std::alloc::{AllocError, Global};
use std::collections::BTreeMap;

/// A folder in memory, which tells its files. It counts its calls of each kind from 1, and fails those whose
/// numbers stand in its lists. The read of a missing path fails too. A folder without files lists nothing.
/// Each counter stays at its last value once it gets there.
#[derive(Drop)]
pub struct MemFolder {
    /// The content of each file, by its path.
    pub files: BTreeMap<String, Bytes>,
    pub reads: u64,
    pub lists: u64,
    pub puts: u64,
    /// The numbers of the reads that fail.
    pub fail_reads: Vec<u64>,
    /// The numbers of the lists that fail.
    pub fail_lists: Vec<u64>,
    /// The numbers of the puts that fail.
    pub fail_puts: Vec<u64>,
    /// How many lists and reads have failed.
    pub faults: u64,
    /// How many puts have failed.
    pub put_faults: u64,
    /// The last call that failed.
    pub failed: Option<FailedCall>,
}

impl MemFolder {
    /// A folder without files, of which no call fails by its number. Takes no memory.
    pub fn new(alloc: Global) -> Self
        ensures files { result.files.entries ≡ [] }
        ensures calls { (result.reads ≡ 0) × (result.lists ≡ 0) × (result.puts ≡ 0) }
        ensures fails { (result.fail_reads.items ≡ []) × (result.fail_lists.items ≡ []) × (result.fail_puts.items ≡ []) }
        ensures faults { (result.faults ≡ 0) × (result.put_faults ≡ 0) × (result.failed ≡ None) }
    {
        MemFolder {
            files: BTreeMap::new(alloc),
            reads: 0,
            lists: 0,
            puts: 0,
            fail_reads: Vec::new(alloc),
            fail_lists: Vec::new(alloc),
            fail_puts: Vec::new(alloc),
            faults: 0,
            put_faults: 0,
            failed: None,
        }
    }
}

/// The first `most` bytes, or all where there are fewer.
fn start_of(alloc: Global, whole: &[u8], most: usize) -> Result<Bytes, AllocError>
    ensures { IfOk result (λ bytes. bytes ≡ take most whole.now) }
{
    Bytes::from_slice(alloc, &whole[..most.min(whole.len())])
}

impl Folder for MemFolder {
    ghost seen = { λ f. record { files = Some (get_by_text f.files); faults = f.faults; put_faults = f.put_faults; failed = option_map seen_call f.failed } };

    fn list(&mut self, dir: &str) -> Result<Vec<Item>, IoEnd>
        // as of every folder
        ensures items { ForSome (Some (get_by_text self.old.files)) (λ told. IfOk result (λ items. IsListing told dir.now (seen_items items.items))) }
        ensures files_kept { Some (get_by_text self.new.files) ≡ Some (get_by_text self.old.files) }
        ensures counts { self.old.faults ≤ self.new.faults }
        ensures put_counts { self.old.put_faults ≤ self.new.put_faults }
        ensures cause { IsErrOf result IoEnd.Failed → HasFailed self.old.faults self.new.faults (option_map seen_call self.new.failed) (list_of dir.now) }
        // of this one: which calls fail, and what each call changes
        ensures failed { IsErrOf result IoEnd.Failed → Contains self.old.fail_lists.items (next_count self.old.lists) }
        ensures passed { OnOk result (Contains self.old.fail_lists.items (next_count self.old.lists) → ⊥) }
        ensures counted { IsErrOf result IoEnd.Failed → self.new.faults ≡ next_count self.old.faults }
        ensures quiet { OnOk result (self.new ≡ record self.old { lists = next_count self.old.lists }) }
        ensures rest { self.new ≡ record self.old { lists = next_count self.old.lists; faults = self.new.faults; failed = self.new.failed } }
    {
        let alloc = *self.fail_lists.allocator();
        self.lists = self.lists.saturating_add(1);
        if self.fail_lists.contains(&self.lists) {
            let end = fail(
                alloc,
                &mut self.faults,
                &mut self.failed,
                CallKind::List,
                dir,
            );
            return Err(end);
        }
        Ok(items_of(alloc, &self.files, dir)?)
    }

    fn read(&mut self, path: &str, most: usize) -> Result<Bytes, IoEnd>
        // as of every folder
        ensures content { ForSome (Some (get_by_text self.old.files)) (λ told. IfOk result (λ bytes. option_map (take most) (told path.now) ≡ Some bytes)) }
        ensures within { IfOk result (λ bytes. length bytes ≤ most) }
        ensures files_kept { Some (get_by_text self.new.files) ≡ Some (get_by_text self.old.files) }
        ensures counts { self.old.faults ≤ self.new.faults }
        ensures put_counts { self.old.put_faults ≤ self.new.put_faults }
        ensures cause { IsErrOf result IoEnd.Failed → HasFailed self.old.faults self.new.faults (option_map seen_call self.new.failed) (read_of path.now) }
        // of this one: which calls fail, and what each call changes
        ensures failed { IsErrOf result IoEnd.Failed → Contains self.old.fail_reads.items (next_count self.old.reads) ⊎ (get_by_text self.old.files path.now ≡ None) }
        ensures passed { OnOk result (Contains self.old.fail_reads.items (next_count self.old.reads) → ⊥) }
        ensures counted { IsErrOf result IoEnd.Failed → self.new.faults ≡ next_count self.old.faults }
        ensures quiet { OnOk result (self.new ≡ record self.old { reads = next_count self.old.reads }) }
        ensures rest { self.new ≡ record self.old { reads = next_count self.old.reads; faults = self.new.faults; failed = self.new.failed } }
    {
        let alloc = *self.fail_reads.allocator();
        self.reads = self.reads.saturating_add(1);
        if self.fail_reads.contains(&self.reads) {
            let end = fail(
                alloc,
                &mut self.faults,
                &mut self.failed,
                CallKind::Read,
                path,
            );
            return Err(end);
        }
        match self.files.get(path) {
            Some(whole) => Ok(start_of(alloc, whole.as_slice(), most)?),
            None => {
                let end = fail(
                    alloc,
                    &mut self.faults,
                    &mut self.failed,
                    CallKind::Read,
                    path,
                );
                Err(end)
            }
        }
    }

    fn put(&mut self, path: &str, bytes: &[u8]) -> Result<(), IoEnd>
        // as of every folder
        ensures content { OnOk result (Some (get_by_text self.new.files) ≡ option_map (with_content path.now (Some bytes.now)) (Some (get_by_text self.old.files))) }
        ensures others { (found : Option (List ℕ)) × (Some (get_by_text self.new.files) ≡ option_map (with_content path.now found) (Some (get_by_text self.old.files))) }
        ensures counts { self.old.faults ≤ self.new.faults }
        ensures put_counts { self.old.put_faults ≤ self.new.put_faults }
        ensures cause { IsErrOf result IoEnd.Failed → HasFailed self.old.put_faults self.new.put_faults (option_map seen_call self.new.failed) (put_of path.now) }
        // of this one: which calls fail, and what each call changes
        ensures failed { IsErrOf result IoEnd.Failed → Contains self.old.fail_puts.items (next_count self.old.puts) }
        ensures passed { OnOk result (Contains self.old.fail_puts.items (next_count self.old.puts) → ⊥) }
        ensures counted { IsErrOf result IoEnd.Failed → self.new.put_faults ≡ next_count self.old.put_faults }
        ensures err { OnErr result (self.new.files.entries ≡ self.old.files.entries) }
        ensures quiet { OnOk result (self.new ≡ record self.old { files = self.new.files; puts = next_count self.old.puts }) }
        ensures rest { self.new ≡ record self.old { files = self.new.files; puts = next_count self.old.puts; put_faults = self.new.put_faults; failed = self.new.failed } }
    {
        let alloc = *self.fail_puts.allocator();
        self.puts = self.puts.saturating_add(1);
        if self.fail_puts.contains(&self.puts) {
            let end = fail(
                alloc,
                &mut self.put_faults,
                &mut self.failed,
                CallKind::Put,
                path,
            );
            return Err(end);
        }
        let path = String::from_str(alloc, path)?;
        let content = Bytes::from_slice(alloc, bytes)?;
        match self.files.insert(path, content) {
            Ok(_) => Ok(()),
            Err(_) => Err(IoEnd::NoMemory),
        }
    }
}
