//! The commands, each over a folder.
ghost use Rattle.std.specs.Prelude.{◌≡◌, List, String, IfOk, length};
ghost use Rattle.std.specs.declared.alloc.Global.{Global};
ghost use Rattle.deuce.specs.Command.{seen_words, run_words, rewrite_words};
ghost use Rattle.deuce.specs.Outcomes.{IsUnreadAs, IsRefusedAs, IsNotPutAs, IsOutcome, ArePut};
ghost use Rattle.deuce.specs.Telling.{told_by, TellsOutcome};

use crate::classes::classes_of;
use crate::inputs::{InputEnd, read_classes, read_inputs};
use crate::outcome::Outcome;
use crate::putting::{PutEnd, new_files, put_each};
use crate::reserved::reserved;
use crate::rewriting::write_rewriting;
use deuce_io::Folder;
use jmodel::NoMemory;
use machine::Gate;
use runner::{RunEnd, run_files};
use std::alloc::Global;
use std::thread::Threads;

/// Runs a script on the class files under a folder, and tells the gates.
pub fn run_command<R: Threads + Sync, F: Folder, G: Gate + Send + Drop>(
    rt: &R,
    alloc: Global,
    folder: &mut F,
    dir: &str,
    script: &str,
    gates: &mut Vec<G>,
) -> Result<Outcome, NoMemory>
    requires gates { length gates.old.items ≡ 16 }
    ensures outcome { IfOk result (λ o. (words : List (String Global)) → seen_words words ≡ run_words dir.now script.now
        → IsOutcome words (F.seen folder.old) (F.seen folder.new) o) }
    ensures told { IfOk result (λ o. (words : List (String Global)) → seen_words words ≡ run_words dir.now script.now
        → TellsOutcome words (F.seen folder.old).files (told_by G.told gates.old.items) (told_by G.told gates.new.items) o) }
    ensures files_kept { (F.seen folder.new).files ≡ (F.seen folder.old).files }
{
    let inputs = match read_inputs(alloc, folder, dir, script) {
        Ok(inputs) => inputs,
        Err(end) => return unread(end),
    };
    let files = match classes_of(alloc, inputs.classes.as_slice()) {
        Ok(files) => files,
        Err(end) => return unread(end),
    };
    if let Some(refusal) = reserved(alloc, inputs.classes.as_slice(), files.as_slice())? {
        return Ok(Outcome::BadProgram(refusal));
    }
    match run_files(rt, alloc, files.as_slice(), inputs.script.as_slice(), gates) {
        Ok(text) => Ok(Outcome::Journal(text)),
        Err(end) => refused(end),
    }
}

/// Rewrites the class files under a folder, and puts the new ones under another, at the same paths, and behind them the helper of arrays.
pub fn rewrite_command<F: Folder>(
    alloc: Global,
    folder: &mut F,
    dir: &str,
    out: &str,
) -> Result<Outcome, NoMemory>
    ensures outcome { IfOk result (λ o. (words : List (String Global)) → seen_words words ≡ rewrite_words dir.now out.now
        → IsOutcome words (F.seen folder.old) (F.seen folder.new) o) }
    ensures put { (words : List (String Global)) → seen_words words ≡ rewrite_words dir.now out.now → ArePut words (F.seen folder.old).files (F.seen folder.new).files }
{
    let inputs = match read_classes(alloc, folder, dir) {
        Ok(inputs) => inputs,
        Err(end) => return unread(end),
    };
    let files = match classes_of(alloc, inputs.as_slice()) {
        Ok(files) => files,
        Err(end) => return unread(end),
    };
    if let Some(refusal) = reserved(alloc, inputs.as_slice(), files.as_slice())? {
        return Ok(Outcome::BadProgram(refusal));
    }
    let written = match write_rewriting(alloc, files.as_slice()) {
        Ok(written) => written,
        Err(end) => return refused(end),
    };
    let news = new_files(alloc, out, inputs.as_slice(), written.files, written.helper)?;
    match put_each(folder, news) {
        Ok(()) => Ok(Outcome::Rewritten {
            classes: inputs.len(),
            taken: written.taken,
            marked: written.marked,
        }),
        Err(end) => not_put(end),
    }
}

/// The outcome of a command without inputs, or without their classes.
fn unread(end: InputEnd) -> Result<Outcome, NoMemory>
    ensures { IfOk result (IsUnreadAs end) }
{
    match end {
        InputEnd::Outside(path) => Ok(Outcome::Outside(path)),
        InputEnd::BadClass { path, refusal } => Ok(Outcome::BadClass { path, refusal }),
        InputEnd::Refused(refusal) => Ok(Outcome::BadProgram(refusal)),
        InputEnd::NoMemory => Err(NoMemory),
    }
}

/// The outcome of a run or a rewriting that ended so.
pub(crate) fn refused(end: RunEnd) -> Result<Outcome, NoMemory>
    ensures { IfOk result (IsRefusedAs end) }
{
    match end {
        RunEnd::Refused(refusal) => Ok(Outcome::BadProgram(refusal)),
        RunEnd::Untyped(refusal) => Ok(Outcome::Untyped(refusal)),
        RunEnd::BadScript(refusal) => Ok(Outcome::BadScript(refusal)),
        RunEnd::Unopened { class, answer } => Ok(Outcome::Unopened { class, answer }),
        RunEnd::NoMemory => Err(NoMemory),
    }
}

/// The outcome of a rewriting the puts of which ended so.
fn not_put(end: PutEnd) -> Result<Outcome, NoMemory>
    ensures { IfOk result (IsNotPutAs end) }
{
    match end {
        PutEnd::Failed(path) => Ok(Outcome::NotPut(path)),
        PutEnd::NoMemory => Err(NoMemory),
    }
}
