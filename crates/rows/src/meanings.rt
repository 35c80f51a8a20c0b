//! What rewritten class files mean. For each folder of `data/folders` the program puts the rewriting of its class files into a folder, reads that again, and
//! prints whether the program that the class files there mean is the rewriting of the program that the folder's own mean.

ghost use Rattle.std.specs.Prelude.{IfOk};
ghost use Rattle.std.specs.List.{AllByRecursion};
ghost use Rattle.jmodel.specs.format.ClassRules.{IsClassFile};
ghost use Rattle.objects.specs.typing.Source.{IsSource};
ghost use Rattle.program_typing.specs.Tables.{AreTables};
ghost use Rattle.rewriter.specs.Asked.{AreFiled};

use crate::called;
use crate::same::same_program;
use const_pool::ClassFile;
use deuce::classes::class_of;
use deuce::listing::class_paths;
use deuce_io::{Folder, IoEnd, RealFolder, names_in};
use hierarchy::symbols::own_name;
use hierarchy::{Program, Typing};
use linking::rebuild::rebuild;
use program_rewriter::rewrite_program;
use runner::instrument_files;
use std::alloc::{AllocError, Global};
use std::collections::BTreeMap;
use std::io;
use std::rt::Runtime;
use std::thread::Threads;

/// The most bytes of a class file.
const CLASS_LIMIT: usize = 1_048_576;

/// Prints for each folder of class files what the top call answers to its rewriting, and what was put means.
pub fn print_meanings<R: Runtime + AllocGlobal + Threads + Sync>(
    rt: &R,
    alloc: Global,
) -> io::Result<()> {
    for name in &names_in(rt, alloc, "folders")? {
        println!(rt; "== {name}")?;
        print_folder(rt, alloc, name.as_str())?;
    }
    Ok(())
}

/// Puts the rewriting of the class files of a folder, prints what the top call answers, and then what was put means.
fn print_folder<R: Runtime + AllocGlobal + Threads + Sync>(
    rt: &R,
    alloc: Global,
    name: &str,
) -> io::Result<()> {
    let old = format!(in alloc; "folders/{name}")?;
    let new = format!(in alloc; "rewritten/{name}")?;
    let mut folder = RealFolder::new(alloc, rt);
    let words = words_of(alloc, old.as_str(), new.as_str())?;
    let (status, written) = called(rt, alloc, words.as_slice(), &mut folder)?;
    let text = str::from_utf8(written.as_slice()).unwrap_or("no text\n");
    print!(rt; "status {status}\n{text}")?;
    if status == 0 {
        print_put(rt, alloc, &mut folder, old.as_str(), new.as_str())
    } else {
        Ok(())
    }
}

/// The words of a rewriting from one folder into another.
fn words_of(alloc: Global, old: &str, new: &str) -> Result<Vec<String>, AllocError> {
    let mut words = Vec::new(alloc);
    for word in ["rewrite", old, new] {
        words.push(String::from_str(alloc, word)?)?;
    }
    Ok(words)
}

/// Prints what the class files under a folder mean, as the rewriting of those under another.
fn print_put<R: Runtime, F: Folder>(
    rt: &R,
    alloc: Global,
    folder: &mut F,
    old: &str,
    new: &str,
) -> io::Result<()> {
    let Ok(originals) = classes_in(alloc, folder, old) else {
        return println!(rt; "no class files");
    };
    let Ok(rewritten) = classes_in(alloc, folder, new) else {
        return println!(rt; "no rewritten class files");
    };
    print_meaning(rt, alloc, originals.as_slice(), rewritten.as_slice())
}

/// The class of the class file at a path under a folder.
fn class_at<F: Folder>(
    alloc: Global,
    folder: &mut F,
    dir: &str,
    path: &str,
) -> Result<ClassFile, IoEnd>
    ensures form { IfOk result IsClassFile }
    ensures filed { IfOk result AreFiled }
{
    let file = format!(in alloc; "{dir}/{path}")?;
    let bytes = folder.read(file.as_str(), CLASS_LIMIT + 1)?;
    match class_of(alloc, bytes.as_slice()) {
        Ok(class) => Ok(class),
        Err(_) => Err(IoEnd::Failed),
    }
}

/// The classes of the class files under a folder.
fn classes_in<F: Folder>(alloc: Global, folder: &mut F, dir: &str) -> Result<Vec<ClassFile>, IoEnd>
    ensures form { IfOk result (λ v. AllByRecursion IsClassFile v.items) }
    ensures filed { IfOk result (λ v. AllByRecursion AreFiled v.items) }
{
    let Ok(paths) = class_paths(alloc, folder, dir) else {
        return Err(IoEnd::Failed);
    };
    let mut classes = Vec::new(alloc);
    for path in &paths {
        classes.push(class_at(alloc, folder, dir, path.as_str())?)?;
    }
    Ok(classes)
}

/// Classes in the order of their names.
fn sorted(alloc: Global, classes: &[ClassFile]) -> Result<Vec<&ClassFile>, AllocError> {
    let mut named = BTreeMap::new(alloc);
    for class in classes {
        named.insert(own_name(class), class)?;
    }
    Ok(named.into_values().collect(alloc)?)
}

/// Prints what rewritten classes mean over the program of their originals.
fn print_meaning<R: Runtime>(
    rt: &R,
    alloc: Global,
    originals: &[ClassFile],
    rewritten: &[ClassFile],
) -> io::Result<()>
    requires form { AllByRecursion IsClassFile originals.now }
    requires filed { AllByRecursion AreFiled originals.now }
{
    if originals.len() > 256 {
        return println!(rt; "too many class files");
    }
    let Ok(made) = instrument_files(alloc, originals) else {
        return println!(rt; "no program");
    };
    let classes = sorted(alloc, rewritten)?;
    let before = made.classes.as_slice();
    match rebuild(alloc, before, classes.as_slice(), &made.original) {
        Ok(rebuilt) => print_rebuilt(rt, alloc, &made.original, made.typings.as_slice(), &rebuilt),
        Err(_) => println!(rt; "no program of the rewritten class files"),
    }
}

/// Prints how many methods a program has, and whether it is the rewriting of another by the narrowest typings of that one's methods.
fn print_rebuilt<R: Runtime>(
    rt: &R,
    alloc: Global,
    original: &Program,
    typings: &[Typing],
    rebuilt: &Program,
) -> io::Result<()>
    requires source { IsSource original.now }
    requires tables { AreTables original.now typings.now }
{
    let Ok(wanted) = rewrite_program(alloc, original, typings) else {
        return println!(rt; "no rewriting");
    };
    let is_meant = same_program(rebuilt, &wanted);
    let methods = rebuilt.methods().len();
    println!(rt; "methods {methods}, as rewritten: {is_meant}")
}
