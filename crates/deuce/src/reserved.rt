//! Class files at the path that rewriting keeps for the helper of arrays.
ghost use Rattle.std.specs.Prelude.{◌≡◌, ◌≤◌, ◌↔◌, Contains, IsTrue, IfOk, MatchOption, length, string_bytes};
ghost use Rattle.std.specs.List.{AllByRecursion};
ghost use Rattle.jmodel.specs.format.ClassRules.{IsClassFile};
ghost use Rattle.deuce.specs.Folder.{helper_path};
ghost use Rattle.deuce.specs.Ending.{paths_of, AreClassesOf, IsHelperAt, IsReservedAs, EndsReserved};

use crate::inputs::ClassInput;
use const_pool::ClassFile;
use hierarchy::symbols::own_name;
use jmodel::{Bytes, NoMemory, Refusal};
use runner::{RunEnd, link_files};
use std::alloc::Global;

/// The path of the helper of arrays, from a folder of rewritten class files.
pub const HELPER_PATH: &str = "org/deuce/transaction/ArrayHelper.class";

/// Why class files that were read, with these classes, are refused before they are typed, where one of them has the helper's path. They are refused
/// for the first fault of the classes; where these have none, as ReservedName with the name of that file's class.
pub fn reserved(
    alloc: Global,
    inputs: &[ClassInput],
    files: &[ClassFile],
) -> Result<Option<Refusal>, NoMemory>
    requires few { length files.now ≤ 256 }
    requires form { AllByRecursion IsClassFile files.now }
    requires good { AreClassesOf inputs.now files.now }
    ensures { IfOk result (EndsReserved inputs.now files.now) }
{
    match place_of_helper(inputs) {
        Some(number) => Ok(Some(refusal_of(alloc, files, &files[number])?)),
        None => Ok(None),
    }
}

/// The place of the class file that has the helper's path, if one has it.
fn place_of_helper(inputs: &[ClassInput]) -> Option<usize>
    ensures { MatchOption result (Contains (paths_of inputs.now) helper_path → ⊥) (IsHelperAt inputs.now) }
{
    for (number, input) in inputs.iter().enumerate() {
        if is_at_helper(input) {
            return Some(number);
        }
    }
    None
}

fn is_at_helper(input: &ClassInput) -> bool
    ensures { IsTrue result ↔ (string_bytes input.now.relative ≡ helper_path) }
{
    input.relative.as_str() == HELPER_PATH
}

/// The refusal of class files of which the file of this class has the helper's path.
fn refusal_of(alloc: Global, files: &[ClassFile], class: &ClassFile) -> Result<Refusal, NoMemory>
    requires few { length files.now ≤ 256 }
    requires form { AllByRecursion IsClassFile files.now }
    ensures { IfOk result (IsReservedAs files.now class.now) }
{
    match link_files(alloc, files) {
        Ok(()) => Ok(Refusal::ReservedName(Bytes::from_slice(alloc, own_name(class))?)),
        Err(RunEnd::Refused(refusal)) => Ok(refusal),
        Err(_) => Err(NoMemory),
    }
}
