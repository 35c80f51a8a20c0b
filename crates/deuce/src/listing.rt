//! The class files under a folder, by their paths from it.
ghost use Rattle.std.specs.Prelude.{◌≡◌, ◌+◌, ◌≤◌, ◌↔◌, ℕ, Contains, IsTrue, IfOk, IfErr, OnOk, String, string_bytes};
ghost use Rattle.std.specs.declared.alloc.Global.{Global};
ghost use Rattle.std.specs.Option.{ForSome};
ghost use Rattle.std.specs.List.{All};
ghost use Rattle.deuce_io.specs.Fault.{list_of};
ghost use Rattle.deuce_io.specs.Files.{StandsIn, seen_items};
ghost use Rattle.deuce.specs.Folder.{IsClassFileName, HoldsClasses};
ghost use Rattle.deuce.specs.Listing.{seen_texts, TakesIn, AreFound};
ghost use Rattle.deuce.specs.Ending.{IsCallOfFolder, IsListed, EndsListing, EndsReads};

use crate::inputs::{InputEnd, outside, over_limit};
use deuce_io::{Folder, Item};
use std::alloc::{AllocError, Global};
use std::collections::BTreeSet;

/// The most levels of folders under a folder of class files.
const DEPTH_LIMIT: usize = 16;

/// The paths from a folder to the class files under it, in the order of their bytes. Lists the folder and those under it, level by level; each
/// folder's subfolders come in the byte order of their names. A folder that is a level too deep isn't listed, but refused once all others are.
pub fn class_paths<F: Folder>(
    alloc: Global,
    folder: &mut F,
    dir: &str,
) -> Result<Vec<String>, InputEnd>
    ensures paths { IfOk result (λ v. HoldsClasses (F.seen folder.old).files dir.now (seen_texts v.items)) }
    ensures named { IfOk result (λ v. All (λ (path : String Global). IsClassFileName (string_bytes path)) v.items) }
    ensures files_kept { (F.seen folder.new).files ≡ (F.seen folder.old).files }
    ensures counts { (F.seen folder.old).faults ≤ (F.seen folder.new).faults }
    ensures put_counts { (F.seen folder.old).put_faults ≤ (F.seen folder.new).put_faults }
    ensures cause { IfErr result (EndsListing dir.now (F.seen folder.old) (F.seen folder.new)) }
{
    let mut classes = BTreeSet::new(alloc);
    let mut level = list_folder(alloc, folder, dir, "", &mut classes)?;
    'levels: for _ in 0..DEPTH_LIMIT {
        level = list_level(alloc, folder, dir, level.as_slice(), &mut classes)?;
    }
    if !level.is_empty() {
        return Err(over_limit(alloc, b"depth", DEPTH_LIMIT + 1));
    }
    let paths: Vec<String> = classes.into_iter().collect(alloc)?;
    Ok(paths)
}

/// Lists the folders of a level, one after another: adds the class files in them to those that were found, and gives the folders in them, which
/// are the next level.
fn list_level<F: Folder>(
    alloc: Global,
    folder: &mut F,
    dir: &str,
    level: &[String],
    classes: &mut BTreeSet<String>,
) -> Result<Vec<String>, InputEnd>
    requires { All (λ (path : String Global). IsListed (F.seen folder.old).files dir.now (string_bytes path)) level.now }
    ensures found { ForSome (F.seen folder.old).files (λ told. IfOk result (λ next. (levels : ℕ) → AreFound told dir.now levels (seen_texts classes.old.keys) (seen_texts level.now)
        → AreFound told dir.now (levels + 1) (seen_texts classes.new.keys) (seen_texts next.items))) }
    ensures named { OnOk result (All IsClassFileName (seen_texts classes.old.keys) → All IsClassFileName (seen_texts classes.new.keys)) }
    ensures files_kept { (F.seen folder.new).files ≡ (F.seen folder.old).files }
    ensures counts { (F.seen folder.old).faults ≤ (F.seen folder.new).faults }
    ensures put_counts { (F.seen folder.old).put_faults ≤ (F.seen folder.new).put_faults }
    ensures cause { IfErr result (EndsReads (IsCallOfFolder (F.seen folder.old).files dir.now) (F.seen folder.old) (F.seen folder.new)) }
{
    let mut next = Vec::new(alloc);
    for relative in level {
        let path = format!(in alloc; "{dir}/{relative}")?;
        let front = format!(in alloc; "{relative}/")?;
        let mut folders = list_folder(alloc, folder, path.as_str(), front.as_str(), classes)?;
        next.append(&mut folders)?;
    }
    Ok(next)
}

/// Lists the folder at a path: adds the class files in it to those that were found, and gives the folders in it, in the byte order of their names. What
/// stands in it is known by its name with this in front.
fn list_folder<F: Folder>(
    alloc: Global,
    folder: &mut F,
    path: &str,
    front: &str,
    classes: &mut BTreeSet<String>,
) -> Result<Vec<String>, InputEnd>
    ensures found { ForSome (F.seen folder.old).files (λ told. IfOk result (λ folders. TakesIn (StandsIn told path.now) front.now (seen_texts classes.old.keys) (seen_texts classes.new.keys) (seen_texts folders.items))) }
    ensures named { OnOk result (All IsClassFileName (seen_texts classes.old.keys) → All IsClassFileName (seen_texts classes.new.keys)) }
    ensures files_kept { (F.seen folder.new).files ≡ (F.seen folder.old).files }
    ensures counts { (F.seen folder.old).faults ≤ (F.seen folder.new).faults }
    ensures put_counts { (F.seen folder.old).put_faults ≤ (F.seen folder.new).put_faults }
    ensures cause { IfErr result (EndsReads (λ call. call ≡ list_of path.now) (F.seen folder.old) (F.seen folder.new)) }
{
    match folder.list(path) {
        Ok(items) => Ok(take_in(alloc, &items, front, classes)?),
        Err(end) => Err(outside(alloc, end, path)),
    }
}

/// Adds the class files among items to those that were found, and gives the folders among them, in the byte order of their names.
fn take_in(
    alloc: Global,
    items: &[Item],
    front: &str,
    classes: &mut BTreeSet<String>,
) -> Result<Vec<String>, AllocError>
    ensures { IfOk result (λ folders. TakesIn (Contains (seen_items items.now)) front.now (seen_texts classes.old.keys) (seen_texts classes.new.keys) (seen_texts folders.items)) }
{
    let mut folders = Vec::new(alloc);
    for item in items {
        let path = format!(in alloc; "{front}{name}", name = item.name)?;
        if item.folder {
            folders.push(path)?;
        } else if is_class_file(path.as_str()) {
            classes.insert(path)?;
        }
    }
    folders.sort()?;
    Ok(folders)
}

fn is_class_file(path: &str) -> bool
    ensures { IsTrue result ↔ IsClassFileName path.now }
{
    path.as_bytes().ends_with(b".class")
}
