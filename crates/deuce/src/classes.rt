//! The classes that class files spell.
ghost use Rattle.std.specs.Prelude.{◌≤◌, length, IfOk, IfErr, OnOk};
ghost use Rattle.std.specs.List.{AllByRecursion};
ghost use Rattle.jmodel.specs.format.ClassRules.{Spells};
ghost use Rattle.rewriter.specs.Asked.{AreFiled};
ghost use Rattle.deuce.specs.Folder.{class_limit};
ghost use Rattle.deuce.specs.Ending.{EndsReading, AreClassesOf, IsBadClassAs, EndsClasses};

use crate::inputs::{CLASS_LIMIT, ClassInput, InputEnd};
use class_reader::read_class;
use const_pool::ClassFile;
use jmodel::{Bytes, Halt, Refusal};
use std::alloc::Global;

/// The class of a class file. Refused where there are more bytes than a class file may have, or they are none.
pub fn class_of(alloc: Global, bytes: &[u8]) -> Result<ClassFile, Halt>
    ensures within { OnOk result (length bytes.now ≤ class_limit) }
    ensures class { IfOk result (Spells bytes.now) }
    ensures filed { IfOk result AreFiled }
    ensures cause { IfErr result (EndsReading bytes.now) }
{
    if bytes.len() > CLASS_LIMIT {
        let limit = Bytes::from_slice(alloc, b"file")?;
        return Err(Halt::Refused(Refusal::OverLimit(limit, bytes.len() as i64)));
    }
    read_class(alloc, bytes)
}

/// The classes of class files, in their order. Refused at the first file that is none, with its path.
pub fn classes_of(alloc: Global, inputs: &[ClassInput]) -> Result<Vec<ClassFile>, InputEnd>
    ensures classes { IfOk result (λ v. AreClassesOf inputs.now v.items) }
    ensures filed { IfOk result (λ v. AllByRecursion AreFiled v.items) }
    ensures cause { IfErr result (EndsClasses inputs.now) }
{
    let mut classes = Vec::new(alloc);
    for input in inputs {
        match class_of(alloc, input.bytes.as_slice()) {
            Ok(class) => classes.push(class)?,
            Err(Halt::Refused(refusal)) => return Err(bad_class(alloc, input, refusal)),
            Err(Halt::NoMemory) => return Err(InputEnd::NoMemory),
        }
    }
    Ok(classes)
}

/// The end of a command over a class file that has this fault.
fn bad_class(alloc: Global, input: &ClassInput, refusal: Refusal) -> InputEnd
    ensures { IsBadClassAs input.now refusal result }
{
    match String::from_str(alloc, input.path.as_str()) {
        Ok(path) => InputEnd::BadClass { path, refusal },
        Err(_) => InputEnd::NoMemory,
    }
}
