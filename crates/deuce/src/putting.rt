//! New files, and how they are put into a folder.
ghost use Rattle.std.specs.Prelude.{◌≡◌, map, IfOk, IfErr, OnOk};
ghost use Rattle.std.specs.Option.{option_map};
ghost use Rattle.deuce.specs.Folder.{with_files, placed_in, placed_with};
ghost use Rattle.deuce.specs.Ending.{paths_of, seen_files, EndsPuts};

use crate::inputs::ClassInput;
use crate::reserved::HELPER_PATH;
use deuce_io::{Folder, IoEnd};
use jmodel::Bytes;
use std::alloc::{AllocError, Global};

/// Bytes that are to be put at a path.
#[derive(Drop)]
pub struct NewFile {
    pub path: String,
    pub bytes: Bytes,
}

/// Why not all new files were put.
#[derive(Drop)]
pub enum PutEnd {
    /// The put at this path failed.
    Failed(String),
    NoMemory,
}

/// The new files of class files, each with its bytes, and behind them the helper of arrays: they go under a folder, at the paths that the class files
/// have under theirs, and at the helper's.
pub fn new_files(
    alloc: Global,
    out: &str,
    inputs: &[ClassInput],
    news: Vec<Bytes>,
    last: Bytes,
) -> Result<Vec<NewFile>, AllocError>
    ensures { IfOk result (λ v. seen_files v.items ≡ placed_with out.now (paths_of inputs.now) news.items last) }
{
    let mut files = class_files(alloc, out, inputs, news)?;
    let path = format!(in alloc; "{out}/{helper}", helper = HELPER_PATH)?;
    files.push(NewFile { path, bytes: last })?;
    Ok(files)
}

/// The new files of class files, without the helper.
fn class_files(
    alloc: Global,
    out: &str,
    inputs: &[ClassInput],
    news: Vec<Bytes>,
) -> Result<Vec<NewFile>, AllocError>
    ensures { IfOk result (λ v. seen_files v.items ≡ placed_in out.now (paths_of inputs.now) news.items) }
{
    let mut files = Vec::new(alloc);
    for (input, bytes) in inputs.iter().zip(news) {
        let path = format!(in alloc; "{out}/{relative}", relative = input.relative)?;
        files.push(NewFile { path, bytes })?;
    }
    Ok(files)
}

/// Puts new files, one after another. After an error those before the one at which it came were put, nothing is known of the path of that one, and
/// the others are as before.
pub fn put_each<F: Folder>(folder: &mut F, files: Vec<NewFile>) -> Result<(), PutEnd>
    ensures put { OnOk result ((F.seen folder.new).files ≡ option_map (with_files (seen_files files.items)) (F.seen folder.old).files) }
    ensures cause { IfErr result (EndsPuts (seen_files files.items) (F.seen folder.old) (F.seen folder.new)) }
{
    for file in files {
        match folder.put(file.path.as_str(), file.bytes.as_slice()) {
            Ok(()) => {}
            Err(IoEnd::Failed) => return Err(PutEnd::Failed(file.path)),
            Err(IoEnd::NoMemory) => return Err(PutEnd::NoMemory),
        }
    }
    Ok(())
}
