//! What stands directly in a folder, by the paths of files.
ghost use Rattle.std.specs.Prelude.{◌≡◌, ◌≢◌, ◌↔◌, ◌⊎◌, List, ℕ, Bool, IfOk, OnOk, IfSome, IfNone, IsTrue, Contains, MatchOption};
ghost use Rattle.std.specs.BTreeMap.{get_by_text};
ghost use Rattle.deuce_io.specs.Files.{inside, Shows, IsListing, NoRepeats, seen_item, seen_items};

use crate::folder::Item;
use jmodel::Bytes;
use std::alloc::{AllocError, Global};
use std::collections::BTreeMap;

/// What follows a folder's path and a slash in a path.
fn below<'a>(dir: &str, path: &'a str) -> Option<&'a str>
    ensures { MatchOption result ((rest : List ℕ) → path.now ≢ inside dir.now rest) (λ rest. path.now ≡ inside dir.now rest.now) }
{
    match path.strip_prefix(dir) {
        Some(rest) => rest.strip_prefix('/'),
        None => None,
    }
}

/// The name of what a file's path shows to stand in a folder, and whether that is a folder.
fn shown<'a>(dir: &str, path: &'a str) -> Option<(&'a str, bool)>
    ensures { MatchOption result ((item : List ℕ × Bool) → Shows dir.now path.now item → ⊥) (λ item. Shows dir.now path.now (item.0.now, item.1)) }
{
    match below(dir, path) {
        Some(rest) => match rest.split_once('/') {
            Some((name, _)) => Some((name, true)),
            None => Some((rest, false)),
        },
        None => None,
    }
}

/// Whether this is an item of this name and kind.
fn is(item: &Item, name: &str, folder: bool) -> bool
    ensures { IsTrue result ↔ (seen_item item.now ≡ (name.now, folder)) }
{
    item.folder == folder && item.name.as_str() == name
}

/// Whether an item is among these.
fn has(items: &[Item], name: &str, folder: bool) -> bool
    ensures { IsTrue result ↔ Contains (seen_items items.now) (name.now, folder) }
{
    for item in items {
        if is(item, name, folder) {
            return true;
        }
    }
    false
}

/// Adds an item unless it is there. After an error nothing has changed.
fn add(alloc: Global, items: &mut Vec<Item>, name: &str, folder: bool) -> Result<(), AllocError>
    ensures added { OnOk result ((item : List ℕ × Bool) → Contains (seen_items items.new.items) item ↔ (Contains (seen_items items.old.items) item ⊎ (item ≡ (name.now, folder)))) }
    ensures once { NoRepeats (seen_items items.old.items) → NoRepeats (seen_items items.new.items) }
{
    if has(items, name, folder) {
        return Ok(());
    }
    items.push(Item {
        name: String::from_str(alloc, name)?,
        folder,
    })?;
    Ok(())
}

/// The items that stand directly in a folder of these files, in the order of the paths that show them.
pub(crate) fn items_of(
    alloc: Global,
    files: &BTreeMap<String, Bytes>,
    dir: &str,
) -> Result<Vec<Item>, AllocError>
    ensures { IfOk result (λ items. IsListing (get_by_text files.now) dir.now (seen_items items.items)) }
{
    let mut items = Vec::new(alloc);
    for path in files.keys() {
        if let Some((name, folder)) = shown(dir, path.as_str()) {
            add(alloc, &mut items, name, folder)?;
        }
    }
    Ok(items)
}
