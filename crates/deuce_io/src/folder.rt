//! A folder of files.
ghost use Rattle.std.specs.Prelude.{◌≡◌, ◌≤◌, ℕ, List, Option, length, take, IfOk, OnOk, OnErr, IsErrOf};
ghost use Rattle.std.specs.Option.{ForSome, option_map};
ghost use Rattle.deuce_io.specs.Fault.{list_of, read_of, put_of, HasFailed};
ghost use Rattle.deuce_io.specs.Files.{IsListing, seen_items, with_content};
ghost use Rattle.deuce_io.specs.Seen.{Seen};

use crate::end::IoEnd;
use jmodel::Bytes;

/// A file or a folder, by its name in the folder that it stands in.
#[derive(Drop)]
pub struct Item {
    pub name: String,
    /// Whether it is a folder.
    pub folder: bool,
}

/// A folder of files. The path of an item is its folder's path, `/` and its name.
///
/// A clause reads what it tells as `F.seen f`: its files, which are `None` where it doesn't tell them, its two counts
/// of faults, and its last failed call.
pub trait Folder {
    /// What it tells.
    ghost seen: { Self → Seen };

    /// The items that stand directly in the folder at a path, each once, in any order. `Failed` where the
    /// folder can't be listed.
    fn list(&mut self, dir: &str) -> Result<Vec<Item>, IoEnd>
        ensures items { ForSome (seen self.old).files (λ told. IfOk result (λ items. IsListing told dir.now (seen_items items.items))) }
        ensures files_kept { (seen self.new).files ≡ (seen self.old).files }
        ensures counts { (seen self.old).faults ≤ (seen self.new).faults }
        ensures put_counts { (seen self.old).put_faults ≤ (seen self.new).put_faults }
        ensures cause { IsErrOf result IoEnd.Failed → HasFailed (seen self.old).faults (seen self.new).faults (seen self.new).failed (list_of dir.now) };

    /// The first `most` bytes of the file at a path, or all of them where it is shorter. `Failed` where there
    /// is no such file or it can't be read.
    fn read(&mut self, path: &str, most: usize) -> Result<Bytes, IoEnd>
        ensures content { ForSome (seen self.old).files (λ told. IfOk result (λ bytes. option_map (take most) (told path.now) ≡ Some bytes)) }
        ensures within { IfOk result (λ bytes. length bytes ≤ most) }
        ensures files_kept { (seen self.new).files ≡ (seen self.old).files }
        ensures counts { (seen self.old).faults ≤ (seen self.new).faults }
        ensures put_counts { (seen self.old).put_faults ≤ (seen self.new).put_faults }
        ensures cause { IsErrOf result IoEnd.Failed → HasFailed (seen self.old).faults (seen self.new).faults (seen self.new).failed (read_of path.now) };

    /// Makes the file at a path have these bytes, and makes the folders above it where they are missing. After
    /// an error nothing is known of that path, and the others are as before.
    fn put(&mut self, path: &str, bytes: &[u8]) -> Result<(), IoEnd>
        ensures content { OnOk result ((seen self.new).files ≡ option_map (with_content path.now (Some bytes.now)) (seen self.old).files) }
        ensures others { (found : Option (List ℕ)) × ((seen self.new).files ≡ option_map (with_content path.now found) (seen self.old).files) }
        ensures counts { (seen self.old).faults ≤ (seen self.new).faults }
        ensures put_counts { (seen self.old).put_faults ≤ (seen self.new).put_faults }
        ensures cause { IsErrOf result IoEnd.Failed → HasFailed (seen self.old).put_faults (seen self.new).put_faults (seen self.new).failed (put_of path.now) };
}
