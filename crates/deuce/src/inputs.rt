//! What a command reads from its folder.
ghost use Rattle.std.specs.Prelude.{◌≡◌, ◌<◌, ◌≤◌, ◌^◌, String, string_bytes, IfOk, IfErr};
ghost use Rattle.std.specs.declared.alloc.Global.{Global};
ghost use Rattle.std.specs.List.{All, AllByRecursion};
ghost use Rattle.deuce.specs.Listing.{seen_texts};
ghost use Rattle.deuce.specs.Ending.{IsRead, IsCallOfFolder, IsCallOfRun, IsClassInput, AreClassInputs, AreInputs, paths_of, EndsInputs, EndsReads, IsOverLimitAs, IsOutsideAt};

use crate::listing::class_paths;
use deuce_io::{Folder, IoEnd};
use jmodel::{Bytes, Refusal};
use std::alloc::{AllocError, AllocFailed, Global};

/// The most class files under a folder.
const CLASSES_LIMIT: usize = 256;

/// The most bytes of a class file.
pub const CLASS_LIMIT: usize = 1_048_576;

/// The most bytes of a script.
pub const SCRIPT_LIMIT: usize = 16_777_216;

/// A class file under a folder, with at most one byte over its limit.
pub struct ClassInput {
    /// Its path from the folder.
    pub relative: String,
    pub path: String,
    pub bytes: Bytes,
}

impl Drop for ClassInput {
    fn drop(self) {
        let Self {
            relative: _,
            path: _,
            bytes: _,
        } = self;
    }
}

/// The class files, in the order of their paths, and the script of a run, each with at most one byte over its limit.
pub struct Inputs {
    pub classes: Vec<ClassInput>,
    pub script: Bytes,
}

impl Drop for Inputs {
    fn drop(self) {
        let Self {
            classes: _,
            script: _,
        } = self;
    }
}

/// Why a command has no inputs, or no classes.
#[derive(Drop)]
pub enum InputEnd {
    /// A list or a read failed at this path.
    Outside(String),
    /// The file at this path is no class file, with the first fault.
    BadClass { path: String, refusal: Refusal },
    /// A folder lies too deep, or there are too many class files, as this says.
    Refused(Refusal),
    NoMemory,
}

impl From<AllocError> for InputEnd {
    ghost use Rattle.deuce.specs.declared.inputs.InputEnd.TheVariants.{NoMemory};
    ghost use Rattle.std.specs.Prelude.{◌≡◌};

    ghost from_gives = { λ _ e. e ≡ NoMemory };

    fn from(_: AllocError) -> Self {
        InputEnd::NoMemory
    }
}

impl<T: Drop> From<AllocFailed<T>> for InputEnd {
    ghost use Rattle.deuce.specs.declared.inputs.InputEnd.TheVariants.{NoMemory};
    ghost use Rattle.std.specs.Prelude.{◌≡◌};

    ghost from_gives = { λ _ e. e ≡ NoMemory };

    fn from(_: AllocFailed<T>) -> Self {
        InputEnd::NoMemory
    }
}

/// Lists a folder and those under it, and reads the class files in them, in the order of their paths.
pub fn read_classes<F: Folder>(
    alloc: Global,
    folder: &mut F,
    dir: &str,
) -> Result<Vec<ClassInput>, InputEnd>
    ensures inputs { IfOk result (λ v. AreClassInputs (F.seen folder.old).files dir.now v.items) }
    ensures files_kept { (F.seen folder.new).files ≡ (F.seen folder.old).files }
    ensures counts { (F.seen folder.old).faults ≤ (F.seen folder.new).faults }
    ensures put_counts { (F.seen folder.old).put_faults ≤ (F.seen folder.new).put_faults }
    ensures cause { IfErr result (EndsInputs (IsCallOfFolder (F.seen folder.old).files dir.now) dir.now (F.seen folder.old) (F.seen folder.new)) }
{
    let paths = class_paths(alloc, folder, dir)?;
    if paths.len() > CLASSES_LIMIT {
        return Err(over_limit(alloc, b"classes", paths.len()));
    }
    read_each(alloc, folder, dir, paths.as_slice())
}

/// Lists a folder and those under it, and reads the class files in them, in the order of their paths, and then the script.
pub fn read_inputs<F: Folder>(
    alloc: Global,
    folder: &mut F,
    dir: &str,
    script: &str,
) -> Result<Inputs, InputEnd>
    ensures inputs { IfOk result (AreInputs (F.seen folder.old).files dir.now script.now) }
    ensures files_kept { (F.seen folder.new).files ≡ (F.seen folder.old).files }
    ensures cause { IfErr result (EndsInputs (IsCallOfRun (F.seen folder.old).files dir.now script.now) dir.now (F.seen folder.old) (F.seen folder.new)) }
{
    let classes = read_classes(alloc, folder, dir)?;
    match folder.read(script, SCRIPT_LIMIT + 1) {
        Ok(script) => Ok(Inputs { classes, script }),
        Err(end) => Err(outside(alloc, end, script)),
    }
}

/// Reads the class files at these paths from a folder, one after another.
fn read_each<F: Folder>(
    alloc: Global,
    folder: &mut F,
    dir: &str,
    paths: &[String],
) -> Result<Vec<ClassInput>, InputEnd>
    requires { All (λ (path : String Global). IsRead (F.seen folder.old).files dir.now (string_bytes path)) paths.now }
    ensures paths { IfOk result (λ v. paths_of v.items ≡ seen_texts paths.now) }
    ensures inputs { IfOk result (λ v. AllByRecursion (IsClassInput (F.seen folder.old).files dir.now) v.items) }
    ensures files_kept { (F.seen folder.new).files ≡ (F.seen folder.old).files }
    ensures counts { (F.seen folder.old).faults ≤ (F.seen folder.new).faults }
    ensures put_counts { (F.seen folder.old).put_faults ≤ (F.seen folder.new).put_faults }
    ensures cause { IfErr result (EndsReads (IsCallOfFolder (F.seen folder.old).files dir.now) (F.seen folder.old) (F.seen folder.new)) }
{
    let mut inputs = Vec::new(alloc);
    for relative in paths {
        inputs.push(read_class_file(alloc, folder, dir, relative.as_str())?)?;
    }
    Ok(inputs)
}

/// Reads the class file at this path from a folder.
fn read_class_file<F: Folder>(
    alloc: Global,
    folder: &mut F,
    dir: &str,
    relative: &str,
) -> Result<ClassInput, InputEnd>
    requires { IsRead (F.seen folder.old).files dir.now relative.now }
    ensures relative { IfOk result (λ input. string_bytes input.relative ≡ relative.now) }
    ensures input { IfOk result (IsClassInput (F.seen folder.old).files dir.now) }
    ensures files_kept { (F.seen folder.new).files ≡ (F.seen folder.old).files }
    ensures counts { (F.seen folder.old).faults ≤ (F.seen folder.new).faults }
    ensures put_counts { (F.seen folder.old).put_faults ≤ (F.seen folder.new).put_faults }
    ensures cause { IfErr result (EndsReads (IsCallOfFolder (F.seen folder.old).files dir.now) (F.seen folder.old) (F.seen folder.new)) }
{
    let path = format!(in alloc; "{dir}/{relative}")?;
    match folder.read(path.as_str(), CLASS_LIMIT + 1) {
        Ok(bytes) => Ok(ClassInput {
            relative: String::from_str(alloc, relative)?,
            path,
            bytes,
        }),
        Err(end) => Err(outside(alloc, end, path.as_str())),
    }
}

/// The end of a command whose call of the folder at this path ended so.
pub fn outside(alloc: Global, end: IoEnd, path: &str) -> InputEnd
    ensures { IsOutsideAt end path.now result }
{
    match end {
        IoEnd::Failed => match String::from_str(alloc, path) {
            Ok(path) => InputEnd::Outside(path),
            Err(_) => InputEnd::NoMemory,
        },
        IoEnd::NoMemory => InputEnd::NoMemory,
    }
}

/// The end of a command over a folder that passes this limit by this number.
pub fn over_limit(alloc: Global, limit: &[u8], number: usize) -> InputEnd
    requires { number < 2 ^ 63 }
    ensures { IsOverLimitAs limit.now number result }
{
    match Bytes::from_slice(alloc, limit) {
        Ok(limit) => InputEnd::Refused(Refusal::OverLimit(limit, number as i64)),
        Err(_) => InputEnd::NoMemory,
    }
}
